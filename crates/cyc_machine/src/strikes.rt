// Strikes: the machine's bits by place.

use crate::machine::Machine;
use bit_field::{Place, Struck, Structure, bits_in};

impl Machine<'_> {
    ghost use Rattle.std.specs.Prelude.{◌≡◌, ◌↔◌, IsTrue};
    ghost use Rattle.cyc_machine.specs.Strikes.{InRange, bit_at_place, flip_at_place};

    /// Whether the place is a bit of its structure.
    pub fn in_range(&self, place: &Place) -> bool
        ensures { IsTrue result ↔ InRange self.now place.now }
    {
        self.parts.storage.cache.is_cache();
        place.bit < bits_in(place.structure, &self.parts.storage.cache.shape())
    }

    /// The bit at a place.
    pub fn bit(&self, place: &Place) -> bool
        requires { InRange self.now place.now }
        ensures { IsTrue result ↔ (bit_at_place self.now place.now ≡ 1) }
    {
        match place.structure {
            Structure::Pc => self.parts.pc.bit(place.bit),
            Structure::Npc => self.parts.npc.bit(place.bit),
            Structure::Bht | Structure::Btb => self.parts.predictor.bit(place),
            Structure::Ib => self.parts.buffer.bit(place.bit),
            Structure::IdEx => self.parts.decoded.bit(place.bit),
            Structure::ExMem => self.parts.executed.bit(place.bit),
            Structure::MemWb => self.parts.written.bit(place.bit),
            Structure::Rf => self.parts.registers.bit(place.bit),
            Structure::Sb => self.parts.stores.bit(place.bit),
            Structure::Port => self.parts.port.bit(place.bit),
            Structure::CData
            | Structure::CTag
            | Structure::CValid
            | Structure::CDirty
            | Structure::CLru => self.parts.storage.cache.bit(place),
        }
    }

    /// Flips the bit at a place. Nothing else changes.
    pub fn flip(&mut self, place: &Place)
        requires { InRange self.old place.now }
        ensures { self.new ≡ flip_at_place self.old place.now }
    {
        match place.structure {
            Structure::Pc => self.parts.pc.flip(place.bit),
            Structure::Npc => self.parts.npc.flip(place.bit),
            Structure::Bht | Structure::Btb => self.parts.predictor.flip(place),
            Structure::Ib => self.parts.buffer.flip(place.bit),
            Structure::IdEx => self.parts.decoded.flip(place.bit),
            Structure::ExMem => self.parts.executed.flip(place.bit),
            Structure::MemWb => self.parts.written.flip(place.bit),
            Structure::Rf => self.parts.registers.flip(place.bit),
            Structure::Sb => self.parts.stores.flip(place.bit),
            Structure::Port => self.parts.port.flip(place.bit),
            Structure::CData
            | Structure::CTag
            | Structure::CValid
            | Structure::CDirty
            | Structure::CLru => self.parts.storage.cache.flip(place),
        }
    }
}
