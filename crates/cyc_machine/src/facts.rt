// What holds of every machine, and the laws of its cycles, runs and strikes, as contracts of calls that do nothing.

ghost use Rattle.std.specs.Prelude.{ℕ};
ghost use Rattle.cyc_machine.specs.Cycle.{cycle};
ghost use Rattle.cyc_machine.specs.EventsLaw.{EventLaw, EventsLaw, HeldLaw};
ghost use Rattle.cyc_machine.specs.FlipLaw.{FlipsBack, FlipsNoOther, FlipsThatBit};
ghost use Rattle.cyc_machine.specs.RunsLaw.{RunsLaw};
ghost use Rattle.cyc_machine.specs.Sizes.{IsSteady};
ghost use Rattle.cyc_machine.specs.SizesLaw.{SizesLaw};
ghost use Rattle.cyc_machine.specs.State.{State};

use crate::machine::Machine;
use bit_field::{Struck, bytes_fit};

impl Machine<'_> {
    ghost use Rattle.cyc_machine.specs.Facts.{IsMachine};

    /// Changes nothing; says what holds of every machine: the sizes and widths of its structures, the length of main memory
    /// and that it holds bytes.
    pub fn is_machine(&self)
        ensures { IsMachine self.now }
    {
        self.parts.image.is_image();
        self.parts.storage.cache.is_cache();
        bytes_fit(&self.parts.storage.memory);
        let _issued = self.parts.issued;
        self.parts.pc.fits();
        self.parts.npc.fits();
        self.parts.predictor.fits();
        self.parts.buffer.fits();
        self.parts.decoded.fits();
        self.parts.executed.fits();
        self.parts.written.fits();
        self.parts.registers.fits();
        self.parts.stores.fits();
        self.parts.port.fits();
    }
}

/// Changes nothing; its contract is the law of strikes: a flip at a place changes that bit, and no other bit of any of the
/// sixteen structures, and a second flip restores the state.
pub fn flip_law()
    ensures flips { FlipsThatBit }
    ensures others { FlipsNoOther }
    ensures restores { FlipsBack }
{}

/// Changes nothing; its contract is the law of runs from any state: a run goes on from where it stands.
pub fn runs_law()
    ensures { RunsLaw }
{}

/// Changes nothing; its contract is what the events of the cache tell, from every state that has the machine's sizes: what an
/// event does to its slot, that nothing else changes a slot, that the events of a run rise in cycles, and what each slot holds by them.
pub fn events_law()
    ensures cycle { (s : State) → IsSteady s → EventLaw s (cycle s) }
    ensures runs { (n : ℕ) (s : State) → IsSteady s → EventsLaw n s }
    ensures held { HeldLaw }
{}

/// Changes nothing; its contract is the law of the machine's sizes: every cycle keeps them, from every state that has them, and
/// a strike keeps what holds of every machine.
pub fn sizes_law()
    ensures { SizesLaw }
{}
