// The latch MEM/WB.
ghost use Rattle.std.specs.Prelude.{◌≡◌};

use bit_field::{Field, MEM_WB_BITS, Struck, bit_at, field_at, flip_at_u8, flip_at_u32};
use std::marker::Model;

/// The latch MEM/WB: what is written into the register file.
#[derive(Clone, Copy, PartialEq, Eq)]
pub struct MemWb {
    /// The register to write, below 32; 0 is none.
    pub rd: u8,
    /// The value to write.
    pub value: u32,
}

impl Model for MemWb {
    ghost use Rattle.std.specs.Prelude.{◌^◌, ◌<◌};
    ghost use Rattle.pipe_latch.specs.ResultBits.{width};
    ghost use Rattle.pipe_latch.specs.Latches.{ResultLatch};
    ghost use Rattle.pipe_latch.specs.declared.mem_wb.MemWbField.TheVariants.{Rd};

    ghost Value = { ResultLatch };

    ghost view = { λ d. record { rd = d.rd; value = d.value } };

    ghost invariant = { λ d. d.rd < 2 ^ width Rd };

    ghost inverse = { λ d. record { rd = d.rd; value = d.value } };
}

/// A field of MEM/WB.
#[derive(Clone, Copy, PartialEq, Eq)]
pub enum MemWbField {
    Rd,
    Value,
}

/// The fields of MEM/WB in bit order.
pub const MEM_WB_FIELDS: [MemWbField; 2] = [MemWbField::Rd, MemWbField::Value];

impl Field for MemWbField {
    ghost use Rattle.pipe_latch.specs.ResultBits as bits;

    ghost width_of = { bits.width };

    fn width(self) -> u32 {
        match self {
            MemWbField::Rd => 5,
            MemWbField::Value => 32,
        }
    }
}

impl Struck for MemWb {
    ghost use Rattle.bit_field.specs.Layouts.{bit_count as bits_of_layout};
    ghost use Rattle.pipe_latch.specs.ResultBits as bits;

    ghost IsFit = { bits.IsFit };

    ghost bit_count = { λ _. bits_of_layout bits.layout };

    ghost bit_of = { bits.bit_of };

    ghost flipped = { bits.flipped };

    fn bits(&self) -> u32 {
        MEM_WB_BITS
    }

    fn bit(&self, k: u32) -> bool {
        let (field, place) = field_at(&MEM_WB_FIELDS, k);
        bit_at(self.value(field), place)
    }

    fn flip(&mut self, k: u32) {
        let (field, place) = field_at(&MEM_WB_FIELDS, k);
        let width = field.width();
        match field {
            MemWbField::Rd => flip_at_u8(&mut self.rd, width, place),
            MemWbField::Value => flip_at_u32(&mut self.value, width, place),
        }
    }

    fn fits(&self) {
        let _value = self.value;
    }

    fn laws(&self) {}
}

impl MemWb {
    ghost use Rattle.std.specs.Prelude.{◌<◌, Some};
    ghost use Rattle.pipe_latch.specs.Latches.{no_result};
    ghost use Rattle.pipe_latch.specs.ResultBits as bits;

    /// The empty latch: all zero.
    pub fn empty() -> MemWb
        ensures { result ≡ no_result }
    {
        MemWb { rd: 0, value: 0 }
    }

    /// The field that holds a bit, and which of the field's own bits that is, both counted from 0.
    pub fn field_at(bit: u32) -> (MemWbField, u32)
        requires { bit < MEM_WB_BITS }
        ensures { bits.field_of bit ≡ Some result }
    {
        field_at(&MEM_WB_FIELDS, bit)
    }

    // The number that a field holds.
    fn value(&self, field: MemWbField) -> u32
        ensures { result ≡ bits.value self.now field }
    {
        match field {
            MemWbField::Rd => u32::from(self.rd),
            MemWbField::Value => self.value,
        }
    }
}
