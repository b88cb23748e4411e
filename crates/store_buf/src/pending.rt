// A slot of the store buffer.

ghost use Rattle.std.specs.Prelude.{◌≡◌, ◌<◌, ℕ};
ghost use Rattle.store_buf.specs.Entry.{no_entry};
ghost use Rattle.store_buf.specs.Covers.{held};

use bit_field::{Field, Struck, bit_at, field_at, flip_at_u8, flip_at_u32, has_lane, lane_byte};
use std::marker::Model;

/// The bits of a slot.
pub const PENDING_BITS: u32 = 66;

/// A store to one word that waits for the cache; with mask 0 a free slot.
#[derive(Clone, Copy, PartialEq, Eq)]
pub struct Pending {
    /// Bit `l` says that byte lane `l` is written; below 16.
    pub mask: u8,
    /// Word address, below 2^30.
    pub addr: u32,
    /// The word, with lane 0 in its lowest byte.
    pub value: u32,
}

impl Model for Pending {
    ghost use Rattle.std.specs.Prelude.{◌^◌, ◌<◌};
    ghost use Rattle.store_buf.specs.Entry.{Entry};

    ghost Value = { Entry };

    ghost view = { λ x. record { mask = x.mask; addr = x.addr; value = x.value } };

    ghost invariant = { λ x. (x.mask < 2 ^ 4) × (x.addr < 2 ^ 30) };

    ghost inverse = { λ x. record { mask = x.mask; addr = x.addr; value = x.value } };
}

/// A field of a slot of the store buffer.
#[derive(Clone, Copy, PartialEq, Eq)]
pub enum PendingField {
    Mask,
    Addr,
    Value,
}

/// The fields of a slot of the store buffer in bit order.
pub const PENDING_FIELDS: [PendingField; 3] = [
    PendingField::Mask,
    PendingField::Addr,
    PendingField::Value,
];

impl Field for PendingField {
    ghost use Rattle.store_buf.specs.EntryBits as pending_bits;

    ghost width_of = { pending_bits.width };

    fn width(self) -> u32 {
        match self {
            PendingField::Mask => 4,
            PendingField::Addr => 30,
            PendingField::Value => 32,
        }
    }
}

impl Struck for Pending {
    ghost use Rattle.bit_field.specs.Layouts.{bit_count as bits_of_layout};
    ghost use Rattle.store_buf.specs.EntryBits as pending_bits;

    ghost IsFit = { pending_bits.IsFit };

    ghost bit_count = { λ _. bits_of_layout pending_bits.layout };

    ghost bit_of = { pending_bits.bit_of };

    ghost flipped = { pending_bits.flipped };

    fn bits(&self) -> u32 {
        PENDING_BITS
    }

    fn bit(&self, k: u32) -> bool {
        let (field, place) = field_at(&PENDING_FIELDS, k);
        bit_at(self.value(field), place)
    }

    fn flip(&mut self, k: u32) {
        let (field, place) = field_at(&PENDING_FIELDS, k);
        let width = field.width();
        match field {
            PendingField::Mask => flip_at_u8(&mut self.mask, width, place),
            PendingField::Addr => flip_at_u32(&mut self.addr, width, place),
            PendingField::Value => flip_at_u32(&mut self.value, width, place),
        }
    }

    fn fits(&self) {
        let _value = self.value;
    }

    fn laws(&self) {}
}

impl Pending {
    ghost use Rattle.std.specs.Prelude.{Some};
    ghost use Rattle.store_buf.specs.EntryBits as pending_bits;

    /// The field that holds a bit, and which of the field's own bits that is, both counted from 0.
    pub fn field_at(bit: u32) -> (PendingField, u32)
        requires { bit < PENDING_BITS }
        ensures { pending_bits.field_of bit ≡ Some result }
    {
        field_at(&PENDING_FIELDS, bit)
    }

    // The number that a field holds.
    fn value(&self, field: PendingField) -> u32
        ensures { result ≡ pending_bits.value self.now field }
    {
        match field {
            PendingField::Mask => u32::from(self.mask),
            PendingField::Addr => self.addr,
            PendingField::Value => self.value,
        }
    }

    /// The byte that this store holds for a lane of the word at a word address, if it writes that lane.
    #[tactic(auto, unfolding(crate::specs::Covers::held))]
    pub(crate) fn held(&self, addr: u32, lane: u32) -> Option<u8>
        requires { lane < 4 }
        ensures { result ≡ held self.now addr lane }
    {
        if self.addr == addr && has_lane(self.mask, lane) {
            Some(lane_byte(self.value, lane))
        } else {
            None
        }
    }
}

/// A free slot: all zero.
pub(crate) fn free_slot() -> Pending
    ensures { result ≡ no_entry }
{
    Pending {
        mask: 0,
        addr: 0,
        value: 0,
    }
}
