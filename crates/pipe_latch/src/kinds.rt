// The kinds of EX/MEM: what it asks of the memory stage.

ghost use Rattle.std.specs.Prelude.{◌≡◌, ◌<◌};
ghost use Rattle.pipe_latch.specs.LatchedActions.{kind_of, kind_number};

use rv_table::{LoadKind, StoreKind};

/// What EX/MEM asks of the memory stage.
#[derive(Clone, Copy)]
pub enum ExMemKind {
    /// To write a result into a register.
    WriteBack,
    /// To load into a register.
    Load(LoadKind),
    /// To store.
    Store(StoreKind),
    /// To put a byte of output.
    Put,
    /// To end the program with a code.
    Exit,
    /// To end it by a trap.
    Trap,
}

/// The kinds in the order of their numbers, from 0. Every further number acts as 0.
pub const EX_MEM_KINDS: [ExMemKind; 12] = [
    ExMemKind::WriteBack,
    ExMemKind::Load(LoadKind::Lb),
    ExMemKind::Load(LoadKind::Lh),
    ExMemKind::Load(LoadKind::Lw),
    ExMemKind::Load(LoadKind::Lbu),
    ExMemKind::Load(LoadKind::Lhu),
    ExMemKind::Store(StoreKind::Sb),
    ExMemKind::Store(StoreKind::Sh),
    ExMemKind::Store(StoreKind::Sw),
    ExMemKind::Put,
    ExMemKind::Exit,
    ExMemKind::Trap,
];

impl ExMemKind {
    /// The kind of a number, whatever it is.
    #[tactic(auto, unfolding(crate::specs::LatchedActions::kind_of))]
    pub fn of_number(number: u8) -> ExMemKind
        ensures { result ≡ kind_of number }
    {
        if usize::from(number) < EX_MEM_KINDS.len() {
            EX_MEM_KINDS[usize::from(number)]
        } else {
            ExMemKind::WriteBack
        }
    }

    /// Its number.
    pub fn number(self) -> u8
        ensures number { result ≡ kind_number self }
        ensures within { result < 32 }
    {
        match self {
            ExMemKind::WriteBack => 0,
            ExMemKind::Load(LoadKind::Lb) => 1,
            ExMemKind::Load(LoadKind::Lh) => 2,
            ExMemKind::Load(LoadKind::Lw) => 3,
            ExMemKind::Load(LoadKind::Lbu) => 4,
            ExMemKind::Load(LoadKind::Lhu) => 5,
            ExMemKind::Store(StoreKind::Sb) => 6,
            ExMemKind::Store(StoreKind::Sh) => 7,
            ExMemKind::Store(StoreKind::Sw) => 8,
            ExMemKind::Put => 9,
            ExMemKind::Exit => 10,
            ExMemKind::Trap => 11,
        }
    }
}
