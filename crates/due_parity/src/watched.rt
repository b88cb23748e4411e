// The touches of one group of bits in a run.
ghost use Rattle.std.specs.Prelude.{◌≡◌, ◌++◌, ◌∷◌, [], OnOk};
ghost use Rattle.cyc_machine.specs.Run.{with_one};
ghost use Rattle.due_parity.specs.Notes as notes;
ghost use Rattle.due_parity.specs.Notes.{IsRising};

use crate::fate::Fate;
use crate::touch::Touch;
use avf_base::OutOfMemory;
use std::alloc::Global;
use std::marker::Model;

/// A cycle that touches a group, and whether it reads the group. A cycle that doesn't makes it anew.
#[derive(Clone, Copy)]
pub struct Noted {
    pub cycle: u32,
    pub reads: bool,
}

/// The touches of a group, in the order in which they came.
#[derive(Drop)]
pub struct Watched {
    notes: Vec<Noted>,
}

impl Model for Watched {
    ghost use Rattle.std.specs.Prelude.{List};
    ghost use Rattle.due_parity.specs.declared.watched.Noted.{Noted};

    ghost Value = { List Noted };

    ghost view = { λ w. w.notes.items };
}

impl Watched {
    /// No touch.
    pub fn new(alloc: Global) -> Watched
        ensures { result ≡ [] }
    {
        Watched {
            notes: Vec::new(alloc),
        }
    }

    /// Notes what a cycle does to the group.
    pub fn note(&mut self, cycle: u32, touch: Touch) -> Result<(), OutOfMemory>
        ensures { OnOk result (self.new ≡ with_one self.old (notes.noted touch cycle)) }
    {
        match touch {
            Touch::Untouched => Ok(()),
            Touch::ReadOut => self.push(cycle, true),
            Touch::Renewed => self.push(cycle, false),
        }
    }

    fn push(&mut self, cycle: u32, reads: bool) -> Result<(), OutOfMemory>
        ensures { OnOk result (self.new ≡ self.old ++ (record { cycle = cycle; reads = reads }) ∷ []) }
    {
        self.notes.push(Noted { cycle, reads })?;
        Ok(())
    }

    /// The touches, in order.
    pub fn notes(&self) -> &[Noted]
        ensures { result.now ≡ self.now }
    {
        &self.notes
    }

    /// What becomes of a flip before cycle `t`: the first touch from `t` on decides, found by a binary search.
    pub fn fate(&self, t: u32) -> Fate
        requires { IsRising self.now }
        ensures { result ≡ notes.fate_in t self.now }
    {
        let earlier = self.notes.partition_point(|note| note.cycle < t);
        fate_of(self.notes.get(earlier).copied())
    }
}

/// What a touch makes of a flip that no touch before it has met.
fn fate_of(note: Option<Noted>) -> Fate
    ensures { result ≡ notes.fate_of_first note }
{
    match note {
        None => Fate::Quiet,
        Some(note) => {
            if note.reads {
                Fate::Detected(note.cycle)
            } else {
                Fate::Quiet
            }
        }
    }
}
