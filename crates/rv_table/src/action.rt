// What an instruction does besides going on.
ghost use Rattle.std.specs.Prelude.{◌≡◌, ◌<◌, ◌^◌, ◌&&◌, not};
ghost use Rattle.rv_table.specs.Effects.{written_register};
ghost use Rattle.rv_table.specs.WriteLaw.{WriteLaw};
ghost use Rattle.rv_table.specs.Actions.{access_of, asked, called, is_clocked, is_aligned, is_counter, judged_by, load_asked, next_address, store_asked, with_counter};

use crate::{
    Computed, CounterKind, LoadKind, Op, Operation, StoreKind, compute, operation_of, trap,
};

/// What an instruction asks for, between decoding and doing: the instruction set performs it, EX puts it into a latch
/// and MEM takes it out again. `address` is a byte address.
#[derive(Clone, Copy, Debug, PartialEq, Eq)]
pub enum Action {
    /// No instruction.
    Nothing,
    /// Writes register `rd`; a write to register 0 is none.
    Writes {
        rd: u8,
        value: u32,
    },
    Loads {
        kind: LoadKind,
        rd: u8,
        address: u32,
    },
    Stores {
        kind: StoreKind,
        address: u32,
        value: u32,
    },
    /// Puts the low byte.
    Puts(u32),
    /// Ends with the low byte.
    Exits(u32),
    /// Ends with the trap of this number (`trap` names them).
    Traps(u8),
}

/// An access to memory: its byte address, how many bytes (1, 2 or 4), and whether it writes them.
#[derive(Clone, Copy)]
pub struct Access {
    pub address: u32,
    pub size: u32,
    pub writes: bool,
}

impl Action {
    #[tactic(auto, unfolding(crate::specs::Actions::access_of))]
    /// The access that a load or a store asks for.
    pub fn access(&self) -> Option<Access>
        ensures { result ≡ access_of self.now }
    {
        match *self {
            Action::Loads { kind, address, .. } => Some(Access {
                address,
                size: kind.size(),
                writes: false,
            }),
            Action::Stores { kind, address, .. } => Some(Access {
                address,
                size: kind.size(),
                writes: true,
            }),
            _ => None,
        }
    }

    #[tactic(auto, unfolding(crate::specs::Actions::judged_by))]
    /// What memory makes of it: a load outside RAM traps, and so does a store outside RAM or to an executable byte.
    /// `in_ram` tells of the word that it accesses, `executable` of its bytes.
    pub fn judged(self, in_ram: bool, executable: bool) -> Action
        ensures action { result ≡ judged_by in_ram executable self }
        ensures register { written_register self < 32 → written_register result < 32 }
    {
        match self {
            Action::Loads { .. } if !in_ram => Action::Traps(trap::LOAD_FAULT),
            Action::Stores { .. } if !in_ram || executable => Action::Traps(trap::STORE_FAULT),
            action => action,
        }
    }
}

#[tactic(auto, unfolding(crate::specs::Actions::asked, crate::specs::Actions::asked_by, crate::specs::Actions::value_by))]
/// What an instruction at word address `pc` asks for, with the values a of rs1 and b of rs2 (for a counter read b is
/// the counter), before memory judges an access.
pub fn asked(op: &Op, pc: u32, a: u32, b: u32) -> Action
    requires { pc < 2 ^ 30 }
    ensures action { result ≡ asked op.now pc a b }
    ensures register { op.now.rd < 32 → written_register result < 32 }
{
    let computed = compute(op, a, b, 4 * pc);
    match operation_of(op.code) {
        Operation::Illegal => Action::Traps(trap::ILLEGAL_INSTRUCTION),
        Operation::FetchFault => Action::Traps(trap::FETCH_FAULT),
        Operation::Jal | Operation::Jalr | Operation::Branch(_) if misses_target(&computed) =>
            Action::Traps(trap::MISALIGNED_TARGET),
        Operation::Branch(_) | Operation::Fence => Action::Writes { rd: 0, value: 0 },
        Operation::Load(kind) => loaded_from(kind, op.rd, computed.value),
        Operation::Store(kind) => stored_to(kind, computed.value, b),
        Operation::Ecall => called(a, b),
        Operation::Ebreak => Action::Traps(trap::BREAKPOINT),
        Operation::Lui
        | Operation::Auipc
        | Operation::Jal
        | Operation::Jalr
        | Operation::AluImmediate(_)
        | Operation::Alu(_)
        | Operation::ReadCounter(_) => Action::Writes {
            rd: op.rd,
            value: computed.value,
        },
    }
}

/// Whether it goes to a target that is no multiple of 4.
fn misses_target(computed: &Computed) -> bool
    ensures { result ≡ (computed.now.taken && not (is_aligned 4 computed.now.target)) }
{
    computed.taken && computed.target % 4 != 0
}

/// A load, or a trap at an address that is no multiple of its size.
fn loaded_from(kind: LoadKind, rd: u8, address: u32) -> Action
    ensures action { result ≡ load_asked kind rd address }
    ensures register { rd < 32 → written_register result < 32 }
{
    if address % kind.size() == 0 {
        Action::Loads { kind, rd, address }
    } else {
        Action::Traps(trap::MISALIGNED_ACCESS)
    }
}

/// A store, or a trap at an address that is no multiple of its size.
fn stored_to(kind: StoreKind, address: u32, value: u32) -> Action
    ensures action { result ≡ store_asked kind address value }
    ensures register { written_register result ≡ 0 }
{
    if address % kind.size() == 0 {
        Action::Stores {
            kind,
            address,
            value,
        }
    } else {
        Action::Traps(trap::MISALIGNED_ACCESS)
    }
}

/// A system call: 1 puts a byte, 93 ends, any other traps.
fn called(a: u32, b: u32) -> Action
    ensures action { result ≡ called a b }
    ensures register { written_register result ≡ 0 }
{
    match a {
        1 => Action::Puts(b),
        93 => Action::Exits(b),
        _ => Action::Traps(trap::UNKNOWN_CALL),
    }
}

#[tactic(auto, unfolding(crate::specs::Actions::next_address))]
/// The word address that comes next. A jump to a target that is no multiple of 4 has trapped.
pub fn next_address(op: &Op, pc: u32, a: u32, b: u32) -> u32
    requires { pc < 2 ^ 30 }
    ensures address { result ≡ next_address op.now pc a b }
    ensures within { result < 2 ^ 30 }
{
    let computed = compute(op, a, b, 4 * pc);
    if computed.taken && computed.target % 4 == 0 {
        computed.target / 4
    } else {
        (pc + 1) % 0x4000_0000
    }
}

#[tactic(auto, unfolding(crate::specs::Actions::with_counter, crate::specs::Actions::counter_by))]
/// Operand b of an instruction: for a counter read the counter, else the value `b` of rs2. `clock` is the number of the
/// cycle, `count` the number of earlier instructions.
pub fn with_counter(op: &Op, clock: u32, count: u32, b: u32) -> u32
    ensures { result ≡ with_counter op.now clock count b }
{
    match operation_of(op.code) {
        Operation::ReadCounter(CounterKind::Cycle) => clock,
        Operation::ReadCounter(CounterKind::Instret) => count,
        Operation::ReadCounter(CounterKind::Cycleh | CounterKind::Instreth) => 0,
        _ => b,
    }
}

#[tactic(auto, unfolding(crate::specs::Actions::is_counter, crate::specs::Actions::counter_test))]
/// Whether it reads a counter.
pub fn is_counter(op: &Op) -> bool
    ensures { result ≡ is_counter op.now }
{
    matches!(operation_of(op.code), Operation::ReadCounter(_))
}

#[tactic(auto, unfolding(crate::specs::Actions::is_clocked, crate::specs::Actions::clock_test))]
/// Whether it reads the cycle counter.
pub fn is_clocked(op: &Op) -> bool
    ensures { result ≡ is_clocked op.now }
{
    matches!(
        operation_of(op.code),
        Operation::ReadCounter(CounterKind::Cycle)
    )
}

/// Says that a decoded instruction that names a register other than 0 as rd writes it or traps. It does nothing.
pub fn write_law()
    ensures { WriteLaw }
{}
