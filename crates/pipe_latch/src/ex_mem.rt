// The latch EX/MEM.
ghost use Rattle.std.specs.Prelude.{◌≡◌, ◌<◌};
ghost use Rattle.rv_table.specs.Effects.{written_register};
ghost use Rattle.pipe_latch.specs.LatchedActions.{latch_of, trap_number};

use crate::kinds::ExMemKind;
use bit_field::{EX_MEM_BITS, Field, Struck, bit_at, field_at, flip_at_u8, flip_at_u32};
use rv_table::Action;
use std::marker::Model;

/// The latch EX/MEM: what execution asks of the memory stage.
#[derive(Clone, Copy, PartialEq, Eq)]
pub struct ExMem {
    /// Whether it holds an instruction.
    pub valid: bool,
    /// The number of what is to be done, below 32: an `ExMemKind`.
    pub kind: u8,
    /// The register to write, below 32; 0 is none.
    pub rd: u8,
    /// The result, or the byte address of a load or store.
    pub x: u32,
    /// The value to store.
    pub y: u32,
    /// The trap's number, below 16.
    pub cause: u8,
}

impl Model for ExMem {
    ghost use Rattle.std.specs.Prelude.{◌^◌, ◌<◌};
    ghost use Rattle.pipe_latch.specs.ExecutedBits.{width};
    ghost use Rattle.pipe_latch.specs.Latches.{ExecutedLatch};
    ghost use Rattle.pipe_latch.specs.declared.ex_mem.ExMemField.TheVariants.{Kind, Rd, Cause};

    ghost Value = { ExecutedLatch };

    ghost view = { λ d. record { valid = d.valid; kind = d.kind; rd = d.rd; x = d.x; y = d.y; cause = d.cause } };

    ghost invariant = { λ d. (d.kind < 2 ^ width Kind) × (d.rd < 2 ^ width Rd) × (d.cause < 2 ^ width Cause) };

    ghost inverse = { λ d. record { valid = d.valid; kind = d.kind; rd = d.rd; x = d.x; y = d.y; cause = d.cause } };
}

/// A field of EX/MEM.
#[derive(Clone, Copy, PartialEq, Eq)]
pub enum ExMemField {
    Valid,
    Kind,
    Rd,
    X,
    Y,
    Cause,
}

/// The fields of EX/MEM in bit order.
pub const EX_MEM_FIELDS: [ExMemField; 6] = [
    ExMemField::Valid,
    ExMemField::Kind,
    ExMemField::Rd,
    ExMemField::X,
    ExMemField::Y,
    ExMemField::Cause,
];

impl Field for ExMemField {
    ghost use Rattle.pipe_latch.specs.ExecutedBits as bits;

    ghost width_of = { bits.width };

    fn width(self) -> u32 {
        match self {
            ExMemField::Valid => 1,
            ExMemField::Kind | ExMemField::Rd => 5,
            ExMemField::X | ExMemField::Y => 32,
            ExMemField::Cause => 4,
        }
    }
}

impl Struck for ExMem {
    ghost use Rattle.bit_field.specs.Layouts.{bit_count as bits_of_layout};
    ghost use Rattle.pipe_latch.specs.ExecutedBits as bits;

    ghost IsFit = { bits.IsFit };

    ghost bit_count = { λ _. bits_of_layout bits.layout };

    ghost bit_of = { bits.bit_of };

    ghost flipped = { bits.flipped };

    fn bits(&self) -> u32 {
        EX_MEM_BITS
    }

    fn bit(&self, k: u32) -> bool {
        let (field, place) = field_at(&EX_MEM_FIELDS, k);
        bit_at(self.value(field), place)
    }

    fn flip(&mut self, k: u32) {
        let (field, place) = field_at(&EX_MEM_FIELDS, k);
        let width = field.width();
        match field {
            ExMemField::Valid => self.valid = !self.valid,
            ExMemField::Kind => flip_at_u8(&mut self.kind, width, place),
            ExMemField::Rd => flip_at_u8(&mut self.rd, width, place),
            ExMemField::X => flip_at_u32(&mut self.x, width, place),
            ExMemField::Y => flip_at_u32(&mut self.y, width, place),
            ExMemField::Cause => flip_at_u8(&mut self.cause, width, place),
        }
    }

    fn fits(&self) {
        let _x = self.x;
        let _y = self.y;
    }

    fn laws(&self) {}
}

impl ExMem {
    ghost use Rattle.std.specs.Prelude.{Some};
    ghost use Rattle.pipe_latch.specs.ExecutedBits as bits;
    ghost use Rattle.pipe_latch.specs.Latches.{no_executed};
    ghost use Rattle.pipe_latch.specs.LatchedActions.{action_of};

    /// The empty latch: all zero.
    pub fn empty() -> ExMem
        ensures { result ≡ no_executed }
    {
        ExMem {
            valid: false,
            kind: 0,
            rd: 0,
            x: 0,
            y: 0,
            cause: 0,
        }
    }

    /// The field that holds a bit, and which of the field's own bits that is, both counted from 0.
    pub fn field_at(bit: u32) -> (ExMemField, u32)
        requires { bit < EX_MEM_BITS }
        ensures { bits.field_of bit ≡ Some result }
    {
        field_at(&EX_MEM_FIELDS, bit)
    }

    // The number that a field holds.
    fn value(&self, field: ExMemField) -> u32
        ensures { result ≡ bits.value self.now field }
    {
        match field {
            ExMemField::Valid => u32::from(self.valid),
            ExMemField::Kind => u32::from(self.kind),
            ExMemField::Rd => u32::from(self.rd),
            ExMemField::X => self.x,
            ExMemField::Y => self.y,
            ExMemField::Cause => u32::from(self.cause),
        }
    }

    #[tactic(auto, unfolding(crate::specs::LatchedActions::action_of))]
    /// What the memory stage does with the latch, whatever it holds.
    pub fn action(&self) -> Action
        ensures action { result ≡ action_of self.now }
        ensures register { written_register result < 32 }
        ensures cause { trap_number result < 16 }
    {
        if !self.valid {
            return Action::Nothing;
        }
        match ExMemKind::of_number(self.kind) {
            ExMemKind::WriteBack => Action::Writes {
                rd: self.rd,
                value: self.x,
            },
            ExMemKind::Load(kind) => Action::Loads {
                kind,
                rd: self.rd,
                address: self.x,
            },
            ExMemKind::Store(kind) => Action::Stores {
                kind,
                address: self.x,
                value: self.y,
            },
            ExMemKind::Put => Action::Puts(self.x),
            ExMemKind::Exit => Action::Exits(self.x),
            ExMemKind::Trap => Action::Traps(self.cause),
        }
    }
}

#[tactic(auto, unfolding(crate::specs::LatchedActions::latch_of))]
/// The latch that execution writes for an action. All fields that the action doesn't name are 0.
pub fn latch_for(action: &Action) -> ExMem
    requires register { written_register action.now < 32 }
    requires cause { trap_number action.now < 16 }
    ensures { result ≡ latch_of action.now }
{
    let written = ExMem {
        valid: true,
        ..ExMem::empty()
    };
    match *action {
        Action::Nothing => ExMem::empty(),
        Action::Writes { rd, value } => ExMem {
            rd,
            x: value,
            ..written
        },
        Action::Loads { kind, rd, address } => ExMem {
            kind: ExMemKind::Load(kind).number(),
            rd,
            x: address,
            ..written
        },
        Action::Stores {
            kind,
            address,
            value,
        } => ExMem {
            kind: ExMemKind::Store(kind).number(),
            x: address,
            y: value,
            ..written
        },
        Action::Puts(value) => ExMem {
            kind: ExMemKind::Put.number(),
            x: value,
            ..written
        },
        Action::Exits(value) => ExMem {
            kind: ExMemKind::Exit.number(),
            x: value,
            ..written
        },
        Action::Traps(cause) => ExMem {
            kind: ExMemKind::Trap.number(),
            cause,
            ..written
        },
    }
}
