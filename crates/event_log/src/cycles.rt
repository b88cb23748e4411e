// Cycles in the order in which they came.
ghost use Rattle.std.specs.Prelude.{◌≡◌, ◌++◌, ◌∷◌, [], if◌then◌else◌, is_ok};
ghost use Rattle.event_log.specs.Cycles as lists;
ghost use Rattle.event_log.specs.Cycles.{IsRising};

use avf_base::OutOfMemory;
use std::alloc::Global;
use std::marker::Model;

/// A list of cycles.
#[derive(Drop)]
pub struct CycleList {
    cycles: Vec<u32>,
}

impl Model for CycleList {
    ghost use Rattle.std.specs.Prelude.{List, ℕ};

    ghost Value = { List ℕ };

    ghost view = { λ c. c.cycles.items };
}

impl CycleList {
    /// No cycle.
    pub fn new(alloc: Global) -> CycleList
        ensures { result ≡ [] }
    {
        CycleList {
            cycles: Vec::new(alloc),
        }
    }

    /// Puts a cycle behind the others. After want of memory the list is as it was.
    pub fn push(&mut self, cycle: u32) -> Result<(), OutOfMemory>
        ensures { self.new ≡ (if is_ok result then self.old ++ cycle ∷ [] else self.old) }
    {
        self.cycles.push(cycle)?;
        Ok(())
    }

    /// The first cycle of a rising list from cycle `t` on, found by a binary search.
    pub fn first_from(&self, t: u32) -> Option<u32>
        requires { IsRising self.now }
        ensures { result ≡ lists.first_from t self.now }
    {
        let earlier = self.cycles.partition_point(|cycle| *cycle < t);
        self.cycles.get(earlier).copied()
    }
}
