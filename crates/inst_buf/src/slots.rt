// A slot of the instruction buffer.

ghost use Rattle.std.specs.Prelude.{◌≡◌};
ghost use Rattle.inst_buf.specs.Entry.{no_entry};

use bit_field::{Field, Struck, bit_at, field_at, flip_at_u32};
use std::marker::Model;

/// The bits of a slot.
pub const SLOT_BITS: u32 = 64;

/// A fetched instruction, or an empty slot.
#[derive(Clone, Copy, PartialEq, Eq)]
pub struct Slot {
    /// Whether the slot holds an instruction.
    pub valid: bool,
    /// Whether the fetch found no executable word.
    pub fault: bool,
    /// The word address, below 2^30.
    pub pc: u32,
    /// The instruction's word.
    pub word: u32,
}

impl Model for Slot {
    ghost use Rattle.std.specs.Prelude.{◌^◌, ◌<◌};
    ghost use Rattle.inst_buf.specs.Entry.{Entry};

    ghost Value = { Entry };

    ghost view = { λ x. record { valid = x.valid; fault = x.fault; pc = x.pc; word = x.word } };

    ghost invariant = { λ x. x.pc < 2 ^ 30 };

    ghost inverse = { λ x. record { valid = x.valid; fault = x.fault; pc = x.pc; word = x.word } };
}

/// A field of a slot of the instruction buffer.
#[derive(Clone, Copy, PartialEq, Eq)]
pub enum SlotField {
    Valid,
    Fault,
    Pc,
    Word,
}

/// The fields of a slot of the instruction buffer in bit order.
pub const SLOT_FIELDS: [SlotField; 4] = [
    SlotField::Valid,
    SlotField::Fault,
    SlotField::Pc,
    SlotField::Word,
];

impl Field for SlotField {
    ghost use Rattle.inst_buf.specs.EntryBits as slot_bits;

    ghost width_of = { slot_bits.width };

    fn width(self) -> u32 {
        match self {
            SlotField::Valid | SlotField::Fault => 1,
            SlotField::Pc => 30,
            SlotField::Word => 32,
        }
    }
}

impl Struck for Slot {
    ghost use Rattle.bit_field.specs.Layouts.{bit_count as bits_of_layout};
    ghost use Rattle.inst_buf.specs.EntryBits as slot_bits;

    ghost IsFit = { slot_bits.IsFit };

    ghost bit_count = { λ _. bits_of_layout slot_bits.layout };

    ghost bit_of = { slot_bits.bit_of };

    ghost flipped = { slot_bits.flipped };

    fn bits(&self) -> u32 {
        SLOT_BITS
    }

    fn bit(&self, k: u32) -> bool {
        let (field, place) = field_at(&SLOT_FIELDS, k);
        bit_at(self.value(field), place)
    }

    fn flip(&mut self, k: u32) {
        let (field, place) = field_at(&SLOT_FIELDS, k);
        let width = field.width();
        match field {
            SlotField::Valid => self.valid = !self.valid,
            SlotField::Fault => self.fault = !self.fault,
            SlotField::Pc => flip_at_u32(&mut self.pc, width, place),
            SlotField::Word => flip_at_u32(&mut self.word, width, place),
        }
    }

    fn fits(&self) {
        let _word = self.word;
    }

    fn laws(&self) {}
}

impl Slot {
    ghost use Rattle.std.specs.Prelude.{◌<◌, Some};
    ghost use Rattle.inst_buf.specs.EntryBits as slot_bits;

    /// The field that holds a bit, and which of the field's own bits that is, both counted from 0.
    pub fn field_at(bit: u32) -> (SlotField, u32)
        requires { bit < SLOT_BITS }
        ensures { slot_bits.field_of bit ≡ Some result }
    {
        field_at(&SLOT_FIELDS, bit)
    }

    // The number that a field holds.
    fn value(&self, field: SlotField) -> u32
        ensures { result ≡ slot_bits.value self.now field }
    {
        match field {
            SlotField::Valid => u32::from(self.valid),
            SlotField::Fault => u32::from(self.fault),
            SlotField::Pc => self.pc,
            SlotField::Word => self.word,
        }
    }
}

/// An empty slot: all zero.
pub fn empty_slot() -> Slot
    ensures { result ≡ no_entry }
{
    Slot {
        valid: false,
        fault: false,
        pc: 0,
        word: 0,
    }
}
