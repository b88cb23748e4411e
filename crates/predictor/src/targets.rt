// The branch target buffer: 16 entries.

ghost use Rattle.std.specs.Prelude.{◌≡◌, ◌%◌, ◌^◌, ◌<◌, replicate, slice_index_or, slice_set};
ghost use Rattle.predictor.specs.Tables.{no_target};

use bit_field::{BTB_BITS, Field, Struck, bit_at, field_at, flip_at_u32};
use std::marker::Model;

/// The bits of an entry.
pub const ENTRY_BITS: u32 = 57;

/// An entry of the branch target buffer.
#[derive(Clone, Copy)]
pub struct BranchTarget {
    /// Whether a branch was seen.
    pub valid: bool,
    /// The branch's word address divided by 16, below 2^26.
    pub tag: u32,
    /// The word address that it went to, below 2^30.
    pub target: u32,
}

impl Model for BranchTarget {
    ghost use Rattle.std.specs.Prelude.{◌^◌, ◌<◌};
    ghost use Rattle.predictor.specs.Tables.{Target};

    ghost Value = { Target };

    ghost view = { λ x. record { valid = x.valid; tag = x.tag; target = x.target } };

    ghost invariant = { λ x. (x.tag < 2 ^ 26) × (x.target < 2 ^ 30) };

    ghost inverse = { λ x. record { valid = x.valid; tag = x.tag; target = x.target } };
}

/// A field of an entry of the branch target buffer.
#[derive(Clone, Copy, PartialEq, Eq)]
pub enum BranchTargetField {
    Valid,
    Tag,
    Target,
}

/// The fields of an entry of the branch target buffer in bit order.
pub const BRANCH_TARGET_FIELDS: [BranchTargetField; 3] = [
    BranchTargetField::Valid,
    BranchTargetField::Tag,
    BranchTargetField::Target,
];

impl Field for BranchTargetField {
    ghost use Rattle.predictor.specs.EntryBits as bits;

    ghost width_of = { bits.width };

    fn width(self) -> u32 {
        match self {
            BranchTargetField::Valid => 1,
            BranchTargetField::Tag => 26,
            BranchTargetField::Target => 30,
        }
    }
}

impl Struck for BranchTarget {
    ghost use Rattle.bit_field.specs.Layouts.{bit_count as bits_of_layout};
    ghost use Rattle.predictor.specs.EntryBits as bits;

    ghost IsFit = { bits.IsFit };

    ghost bit_count = { λ _. bits_of_layout bits.layout };

    ghost bit_of = { bits.bit_of };

    ghost flipped = { bits.flipped };

    fn bits(&self) -> u32 {
        ENTRY_BITS
    }

    fn bit(&self, k: u32) -> bool {
        let (field, place) = field_at(&BRANCH_TARGET_FIELDS, k);
        bit_at(self.value(field), place)
    }

    fn flip(&mut self, k: u32) {
        let (field, place) = field_at(&BRANCH_TARGET_FIELDS, k);
        let width = field.width();
        match field {
            BranchTargetField::Valid => self.valid = !self.valid,
            BranchTargetField::Tag => flip_at_u32(&mut self.tag, width, place),
            BranchTargetField::Target => flip_at_u32(&mut self.target, width, place),
        }
    }

    fn fits(&self) {
        let _tag = self.tag;
    }

    fn laws(&self) {}
}

impl BranchTarget {
    ghost use Rattle.std.specs.Prelude.{◌≡◌, ◌<◌, Some};
    ghost use Rattle.predictor.specs.EntryBits as bits;

    /// The field that holds a bit, and which of the field's own bits that is, both counted from 0.
    pub fn field_at(bit: u32) -> (BranchTargetField, u32)
        requires { bit < ENTRY_BITS }
        ensures { bits.field_of bit ≡ Some result }
    {
        field_at(&BRANCH_TARGET_FIELDS, bit)
    }

    // The number that a field holds.
    fn value(&self, field: BranchTargetField) -> u32
        ensures { result ≡ bits.value self.now field }
    {
        match field {
            BranchTargetField::Valid => u32::from(self.valid),
            BranchTargetField::Tag => self.tag,
            BranchTargetField::Target => self.target,
        }
    }
}

/// The number of entries of the branch target buffer.
pub const ENTRIES: usize = 16;

/// The branch target buffer. The bits of its entries stand one entry after another.
#[derive(Clone, Copy)]
pub struct Targets {
    entries: [BranchTarget; ENTRIES],
}

impl Model for Targets {
    ghost use Rattle.std.specs.Prelude.{◌≡◌, List, length};
    ghost use Rattle.predictor.specs.declared.targets.TheConstants.{ENTRIES};
    ghost use Rattle.predictor.specs.Tables.{Target};

    ghost Value = { List Target };

    ghost view = { λ x. x.entries };

    ghost invariant = { λ x. length x.entries ≡ ENTRIES };

    ghost inverse = { λ entries. record { entries = entries } };
}

impl Struck for Targets {
    ghost use Rattle.predictor.specs.TargetBits as target_bits;

    ghost IsFit = { target_bits.IsFit };

    ghost bit_count = { λ _. target_bits.bit_count };

    ghost bit_of = { target_bits.bit_of };

    ghost flipped = { target_bits.flipped };

    fn bits(&self) -> u32 {
        BTB_BITS
    }

    fn bit(&self, k: u32) -> bool {
        let entry = &self.entries[(k / ENTRY_BITS) as usize];
        entry.bit(k % ENTRY_BITS)
    }

    fn flip(&mut self, k: u32) {
        let entry = &mut self.entries[(k / ENTRY_BITS) as usize];
        entry.flip(k % ENTRY_BITS);
    }

    fn fits(&self) {
        for entry in &self.entries {
            entry.fits();
        }
    }

    fn laws(&self) {}
}

impl Targets {
    /// No branch was seen.
    pub fn new() -> Targets
        ensures { result ≡ replicate ENTRIES no_target }
    {
        Targets {
            entries: [no_branch(); ENTRIES],
        }
    }

    /// The entry for a branch at word address `pc`.
    pub fn entry(&self, pc: u32) -> BranchTarget
        ensures { result ≡ slice_index_or self.now (pc % ENTRIES) no_target }
    {
        self.entries[pc as usize % ENTRIES]
    }

    /// Writes the entry for a branch at word address `pc`.
    pub fn put(&mut self, pc: u32, entry: BranchTarget)
        ensures { self.new ≡ slice_set self.old (pc % ENTRIES) entry }
    {
        self.entries[pc as usize % ENTRIES] = entry;
    }
}

fn no_branch() -> BranchTarget
    ensures { result ≡ no_target }
{
    BranchTarget {
        valid: false,
        tag: 0,
        target: 0,
    }
}
