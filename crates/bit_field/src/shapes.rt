// The shape of a machine, and the number of bits of each structure.

ghost use Rattle.std.specs.Prelude.{◌≡◌, ◌↔◌, ◌≤◌, IsTrue};
ghost use Rattle.bit_field.specs.Shapes as shape_words;

use crate::places::Structure;

/// The bits of a program counter, which is a word address.
pub const COUNTER_BITS: u32 = 30;

/// The bits of the branch history.
pub const BHT_BITS: u32 = 128;

/// The bits of the branch target buffer.
pub const BTB_BITS: u32 = 912;

/// The bits of the instruction buffer.
pub const IB_BITS: u32 = 256;

/// The bits of ID/EX.
pub const ID_EX_BITS: u32 = 153;

/// The bits of EX/MEM.
pub const EX_MEM_BITS: u32 = 79;

/// The bits of MEM/WB.
pub const MEM_WB_BITS: u32 = 37;

/// The bits of the register file.
pub const RF_BITS: u32 = 992;

/// The bits of the store buffer.
pub const SB_BITS: u32 = 264;

/// The bits of the port's latch.
pub const PORT_BITS: u32 = 6;

/// The size of the RAM and the shape of the data cache.
#[derive(Clone, Copy, PartialEq, Eq)]
pub struct Shape {
    /// RAM in MiB, 1 to 16.
    pub mib: u8,
    /// Sets of the data cache: 16, 32, 64 or 128.
    pub sets: u16,
    /// Ways of a set: 1, 2 or 4.
    pub ways: u8,
}

/// The shape that is used where none is named: 1 MiB, 32 sets, 2 ways.
pub fn plain_shape() -> Shape
    ensures { result ≡ shape_words.plain }
{
    Shape {
        mib: 1,
        sets: 32,
        ways: 2,
    }
}

/// Whether a machine can have this shape.
pub fn is_shape(s: &Shape) -> bool
    ensures { IsTrue result ↔ shape_words.IsShape s.now }
{
    s.mib >= 1 && s.mib <= 16 && matches!(s.sets, 16 | 32 | 64 | 128) && matches!(s.ways, 1 | 2 | 4)
}

/// The bits of a cache line's tag, 21 to 24: a line has 28 bits, and its set is the lowest of them.
pub fn tag_bits(shape: &Shape) -> u32
    requires { shape_words.IsShape shape.now }
    ensures { result ≡ shape_words.tag_bits shape.now }
{
    match shape.sets {
        16 => 24,
        32 => 23,
        64 => 22,
        _ => 21,
    }
}

fn slots(shape: &Shape) -> u32
    requires { shape_words.IsShape shape.now }
    ensures value { result ≡ shape_words.slots shape.now }
    ensures most { result ≤ 512 }
{
    u32::from(shape.sets) * u32::from(shape.ways)
}

/// The bits of a structure in a machine of this shape.
pub fn bits_in(s: Structure, shape: &Shape) -> u32
    requires { shape_words.IsShape shape.now }
    ensures { result ≡ shape_words.bits_in s shape.now }
{
    match s {
        Structure::Pc | Structure::Npc => COUNTER_BITS,
        Structure::Bht => BHT_BITS,
        Structure::Btb => BTB_BITS,
        Structure::Ib => IB_BITS,
        Structure::IdEx => ID_EX_BITS,
        Structure::ExMem => EX_MEM_BITS,
        Structure::MemWb => MEM_WB_BITS,
        Structure::Rf => RF_BITS,
        Structure::Sb => SB_BITS,
        Structure::Port => PORT_BITS,
        Structure::CData => slots(shape) * 128,
        Structure::CTag => slots(shape) * tag_bits(shape),
        Structure::CValid | Structure::CDirty => slots(shape),
        Structure::CLru => u32::from(shape.sets) * (u32::from(shape.ways) - 1),
    }
}

/// The bits of a structure in a machine of the plain shape.
pub fn bits_of(s: Structure) -> u32
    ensures { result ≡ shape_words.bits_in s shape_words.plain }
{
    bits_in(s, &plain_shape())
}
