// What one instruction does, told from outside.

ghost use Rattle.std.specs.Prelude.{◌≡◌};
ghost use Rattle.rv_isa.specs.AccessLaw.{AccessLaw};
ghost use Rattle.rv_isa.specs.Effects as spec;
ghost use Rattle.rv_isa.specs.Instruction as instruction;
ghost use Rattle.rv_table.specs.Effects as table;

use avf_base::End;
use rv_table::{Action, Op};

/// What one instruction does. Addresses are byte addresses.
#[derive(Clone, Copy)]
pub struct Effect {
    /// The address of the instruction that comes next; after an end the instruction's own address plus 4.
    pub next: u32,
    /// The register, 1 to 31, that it writes, and the value.
    pub write: Option<(u8, u32)>,
    /// The address and the number of bytes, 1, 2 or 4, that it loads.
    pub load: Option<(u32, u8)>,
    /// The address and the number of bytes, 1, 2 or 4, that it stores, and the whole value of rs2, whose low bytes are stored.
    pub store: Option<(u32, u8, u32)>,
    /// The byte that it puts.
    pub put: Option<u8>,
    /// How it ends the run.
    pub end: Option<End>,
    /// Whether it takes the first clock value, as RDCYCLE alone does.
    pub clocked: bool,
}

/// An instruction of a run.
#[derive(Clone, Copy)]
pub struct Retired {
    /// Its byte address.
    pub pc: u32,
    pub op: Op,
    /// The value of register rs1.
    pub a: u32,
    /// The value of register rs2. It is 0 for the counter reads, which have no rs2.
    pub b: u32,
    pub effect: Effect,
}

/// The register that an action writes, or 0.
pub fn written_register(action: &Action) -> u8
    ensures { result ≡ table.written_register action.now }
{
    match *action {
        Action::Writes { rd, .. } | Action::Loads { rd, .. } => rd,
        _ => 0,
    }
}

/// The byte address and the length of an action's load.
pub(crate) fn load_of(action: &Action) -> Option<(u32, u8)>
    ensures { result ≡ spec.load_of action.now }
{
    match *action {
        Action::Loads { kind, address, .. } => Some((address, kind.size() as u8)),
        _ => None,
    }
}

/// The byte address, the length and the value of an action's store.
pub(crate) fn store_of(action: &Action) -> Option<(u32, u8, u32)>
    ensures { result ≡ spec.store_of action.now }
{
    match *action {
        Action::Stores {
            kind,
            address,
            value,
        } => Some((address, kind.size() as u8, value)),
        _ => None,
    }
}

/// The byte that an action puts, the low one of the register's value, or `None`.
pub fn byte_put(action: &Action) -> Option<u8>
    ensures { result ≡ table.byte_put action.now }
{
    match *action {
        Action::Puts(value) => Some((value % 256) as u8),
        _ => None,
    }
}

/// How an action ends the run, or `None` where it doesn't.
pub fn end_of(action: &Action) -> Option<End>
    ensures { result ≡ instruction.end_of action.now }
{
    match *action {
        Action::Exits(value) => Some(End::Exit((value % 256) as u8)),
        Action::Traps(cause) => Some(End::Trap(cause)),
        _ => None,
    }
}

/// Says what holds of the accesses of instructions: as they are recorded, and the lines that they lie in. It does nothing.
pub fn access_law()
    ensures { AccessLaw }
{}
