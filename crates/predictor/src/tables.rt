// The two tables of the predictor together.

ghost use Rattle.std.specs.Prelude.{◌≡◌, ◌↔◌, ◌^◌, ◌<◌, IsTrue};
ghost use Rattle.predictor.specs.Tables.{fresh_tables, predicts_taken, predicted, trained};
ghost use Rattle.predictor.specs.Places.{IsPlace, IsFit, bit_at_place, flip_at_place};

use crate::history::History;
use crate::targets::{BranchTarget, ENTRIES, Targets};
use bit_field::{Place, Struck, Structure};
use std::marker::Model;

/// The branch predictor: a history of two-bit counters and a buffer of branch targets.
#[derive(Clone, Copy)]
pub struct Predictor {
    history: History,
    targets: Targets,
}

impl Model for Predictor {
    ghost use Rattle.predictor.specs.Tables.{Tables};

    ghost Value = { Tables };

    ghost view = { λ x. record { history = x.history; targets = x.targets } };

    ghost inverse = { λ x. record { history = x.history; targets = x.targets } };
}

impl Predictor {
    /// The predictor at reset: each counter is 1, and no branch was seen.
    pub fn new() -> Predictor
        ensures { result ≡ fresh_tables }
    {
        Predictor {
            history: History::new(),
            targets: Targets::new(),
        }
    }

    /// The word address that is predicted to follow word address `pc`, whatever the tables hold: the target of
    /// its entry, where that is valid, has its tag and its counter is 2 or 3, else the next word address.
    #[tactic(auto, unfolding(crate::specs::Tables::predicted))]
    pub fn next(&self, pc: u32) -> u32
        requires { pc < 2 ^ 30 }
        ensures value { result ≡ predicted self.now pc }
        ensures within { result < 2 ^ 30 }
    {
        let entry = self.targets.entry(pc);
        if entry.valid && entry.tag == pc / ENTRIES as u32 && self.history.counter(pc) >= 2 {
            entry.target
        } else {
            (pc + 1) % (1 << 30)
        }
    }

    /// Learns that the branch at word address `pc` was taken to word address `target`, or not taken.
    #[tactic(auto, unfolding(crate::specs::Tables::trained))]
    pub fn learn(&mut self, pc: u32, taken: bool, target: u32)
        requires pc { pc < 2 ^ 30 }
        requires target { target < 2 ^ 30 }
        ensures { self.new ≡ trained self.old pc taken target }
    {
        self.history.learn(pc, taken);
        if taken {
            let entry = BranchTarget {
                valid: true,
                tag: pc / ENTRIES as u32,
                target,
            };
            self.targets.put(pc, entry);
        }
    }

    /// Whether the bit at a place of the two tables is 1.
    pub fn bit(&self, place: &Place) -> bool
        requires { IsPlace place.now }
        ensures { IsTrue result ↔ (bit_at_place self.now place.now ≡ 1) }
    {
        match place.structure {
            Structure::Bht => self.history.bit(place.bit),
            Structure::Btb => self.targets.bit(place.bit),
            _ => unreachable!(),
        }
    }

    /// Flips the bit at a place of the two tables, and changes nothing else.
    pub fn flip(&mut self, place: &Place)
        requires { IsPlace place.now }
        ensures { self.new ≡ flip_at_place self.old place.now }
    {
        match place.structure {
            Structure::Bht => self.history.flip(place.bit),
            Structure::Btb => self.targets.flip(place.bit),
            _ => unreachable!(),
        }
    }

    /// Changes nothing; says that each counter and each field of the tables is below its width.
    pub fn fits(&self)
        ensures { IsFit self.now }
    {
        self.history.fits();
        self.targets.fits();
    }
}
