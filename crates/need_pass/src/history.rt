// The need of one register or byte over a run.
ghost use Rattle.need_pass.specs.Histories.{IsFalling, IsUpTo, change_after, mask_at, until_at};
ghost use Rattle.std.specs.Prelude.{[], List, None, OnOk, length, nat_le, nat_lt, true, ◌<◌, ◌≡◌, ◌≤◌, ℕ, if◌then◌else◌};
ghost use Rattle.std.specs.List.{AllWithin};

use avf_base::OutOfMemory;
use std::alloc::Global;
use std::marker::Model;

/// From instruction `at` back to the next change the needed bits are those of `mask`.
#[derive(Clone, Copy)]
pub struct Change {
    pub at: u32,
    pub mask: u32,
}

/// The needed bits of one register or byte before each instruction of a run, as the changes from the last instruction to the
/// first.
#[derive(Drop)]
pub struct History {
    changes: Vec<Change>,
}

impl Model for History {
    ghost use Rattle.std.specs.Prelude.{List};
    ghost use Rattle.need_pass.specs.declared.history.Change.{Change};
    ghost use Rattle.need_pass.specs.Histories.{IsFalling};

    ghost Value = { List Change };

    ghost view = { λ h. h.changes.items };

    ghost invariant = { λ h. IsFalling h.changes.items };
}

impl History {
    /// Nothing is needed.
    pub fn new(alloc: Global) -> History
        ensures { result ≡ [] }
    {
        History {
            changes: Vec::new(alloc),
        }
    }

    /// The last change that stands at instruction `i` or later.
    fn last_change(&self, i: u32) -> Option<Change>
        ensures change { result ≡ change_after None self.now i }
        ensures falls { IsFalling self.now }
    {
        let count = self.changes.partition_point(|change| i <= change.at);
        if count == 0 {
            None
        } else {
            Some(self.changes[count - 1])
        }
    }

    /// The needed bits before instruction `i`.
    pub fn at(&self, i: u32) -> u32
        ensures { result ≡ mask_at self.now i }
    {
        match self.last_change(i) {
            Some(change) => change.mask,
            None => 0,
        }
    }

    /// The last instruction up to and with which the needed bits stay those before instruction `i`, none where they stay for ever.
    pub fn until(&self, i: u32) -> Option<u32>
        ensures last { result ≡ until_at self.now i }
        ensures same { (k : ℕ) → i ≤ k → IsUpTo k result → mask_at self.now k ≡ mask_at self.now i }
    {
        match self.last_change(i) {
            Some(change) => Some(change.at),
            None => None,
        }
    }

    /// Sets the needed bits before each instruction up to `at`.
    pub fn set(&mut self, at: u32, mask: u32) -> Result<(), OutOfMemory>
        ensures { OnOk result ((i : ℕ) → mask_at self.new i ≡ (if nat_le i at then mask else mask_at self.old i)) }
    {
        cut(&mut self.changes, at);
        if earliest(&self.changes) != mask {
            self.changes.push(Change { at, mask })?;
        }
        Ok(())
    }
}

/// Drops the changes up to instruction `at`.
fn cut(changes: &mut Vec<Change>, at: u32)
    requires { IsFalling changes.old.items }
    ensures falls { IsFalling changes.new.items }
    ensures above { AllWithin (λ c. nat_lt at c.at ≡ true) changes.new.items 0 (length changes.new.items) }
    ensures later { (i : ℕ) → at < i → mask_at changes.new.items i ≡ mask_at changes.old.items i }
{
    let kept = changes.partition_point(|change| at < change.at);
    changes.truncate(kept);
}

/// The mask of the first change in the run.
fn earliest(changes: &[Change]) -> u32
    ensures { result ≡ mask_at changes.now 0 }
{
    match changes.last() {
        Some(change) => change.mask,
        None => 0,
    }
}
