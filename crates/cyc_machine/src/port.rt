// The port of the cache, and what it does in a cycle.
ghost use Rattle.std.specs.Prelude.{◌≡◌, ◌↔◌, ℕ, ◌<◌, ◌^◌, IsTrue};

use bit_field::{Field, PORT_BITS, Struck, bit_at, field_at, flip_at_u8};
use std::marker::Model;
use store_buf::Pending;

/// The port's latch.
#[derive(Clone, Copy)]
pub struct PortLatch {
    /// How many cycles its client must still wait, below 32.
    pub count: u8,
    /// Whether that is the store client.
    pub owner: bool,
}

impl Model for PortLatch {
    ghost use Rattle.std.specs.Prelude.{◌<◌, ◌^◌};
    ghost use Rattle.cyc_machine.specs.PortState.{PortState};

    ghost Value = { PortState };

    ghost view = { λ x. record { count = x.count; owner = x.owner } };

    ghost invariant = { λ x. x.count < 2 ^ 5 };

    ghost inverse = { λ x. record { count = x.count; owner = x.owner } };
}

/// A field of the port's latch.
#[derive(Clone, Copy, PartialEq, Eq)]
pub enum PortField {
    Count,
    Owner,
}

/// The fields of the port's latch in bit order.
pub const PORT_FIELDS: [PortField; 2] = [PortField::Count, PortField::Owner];

impl Field for PortField {
    ghost use Rattle.cyc_machine.specs.PortBits as bits;

    ghost width_of = { bits.width };

    fn width(self) -> u32 {
        match self {
            PortField::Count => 5,
            PortField::Owner => 1,
        }
    }
}

impl Struck for PortLatch {
    ghost use Rattle.bit_field.specs.Layouts.{bit_count as bits_of_layout};
    ghost use Rattle.cyc_machine.specs.PortBits as bits;

    ghost IsFit = { bits.IsFit };

    ghost bit_count = { λ _. bits_of_layout bits.layout };

    ghost bit_of = { bits.bit_of };

    ghost flipped = { bits.flipped };

    fn bits(&self) -> u32 {
        PORT_BITS
    }

    fn bit(&self, k: u32) -> bool {
        let (field, place) = field_at(&PORT_FIELDS, k);
        bit_at(self.value(field), place)
    }

    fn flip(&mut self, k: u32) {
        let (field, place) = field_at(&PORT_FIELDS, k);
        let width = field.width();
        match field {
            PortField::Count => flip_at_u8(&mut self.count, width, place),
            PortField::Owner => self.owner = !self.owner,
        }
    }

    fn fits(&self) {
        let _count = self.count;
    }

    fn laws(&self) {}
}

impl PortLatch {
    ghost use Rattle.std.specs.Prelude.{◌<◌, Some};
    ghost use Rattle.cyc_machine.specs.PortBits as bits;

    /// The field that holds a bit, and which of the field's own bits that is, both counted from 0.
    pub fn field_at(bit: u32) -> (PortField, u32)
        requires { bit < PORT_BITS }
        ensures { bits.field_of bit ≡ Some result }
    {
        field_at(&PORT_FIELDS, bit)
    }

    // The number that a field holds.
    fn value(&self, field: PortField) -> u32
        ensures { result ≡ bits.value self.now field }
    {
        match field {
            PortField::Count => u32::from(self.count),
            PortField::Owner => u32::from(self.owner),
        }
    }
}

/// What the port does in a cycle, and with which way of the set. Words and lines are word and line addresses.
#[derive(Clone, Copy)]
pub enum Move {
    /// No client is there.
    Rests,
    /// Serves the load client.
    Reads {
        word: u32,
        way: u32,
    },
    /// Serves the store client.
    Drains {
        entry: Pending,
        way: u32,
    },
    /// A look-up misses: its client waits `count` cycles, and `way` is the victim at this moment.
    Misses {
        line: u32,
        way: u32,
        count: u8,
        owner: bool,
    },
    /// The client waits.
    Waits,
    /// The client is absent, or its line is there: the port is free again.
    Leaves,
    /// Reads the line into the way, whose line is written back first where it is dirty.
    Fills {
        line: u32,
        way: u32,
    },
}
