// A shelf in memory, whose calls fail by number.
ghost use Rattle.std.specs.Prelude.{◌≡◌, ◌-◌, ◌∷◌, ◌↔◌, ◌⊎◌, [], List, ℕ, Contains, length, min, IfOk, OnOk, OnErr, IfSome, IsErr, IsNone, MatchOption, Some};
ghost use Rattle.std.specs.Io.{ReadsAtMost};
ghost use Rattle.avf_base.specs.Causes.{HasCause};
ghost use Rattle.avf_base.specs.Moves.{Reads};
ghost use Rattle.avf_base.specs.Entries.{entries_of};
ghost use Rattle.avf_base.specs.States.{MemFiles, holding, next_call, next_fault};

use crate::held::{Held, copy_at, find};
use crate::{Failed, OutOfMemory, Shelf};
use std::alloc::Global;
use std::marker::Model;

/// A shelf of named bytes in memory. Its reads with the given numbers fail, counted from 1.
#[derive(Drop)]
pub struct MemShelf {
    alloc: Global,
    files: Vec<Held>,
    fails: Vec<u32>,
    calls: u32,
    faults: u64,
}

impl Model for MemShelf {
    ghost Value = { MemFiles };

    ghost view = { λ s. record { entries = entries_of s.files.items; fails = s.fails.items; calls = s.calls; faults = s.faults } };
}

// What this call finds, which is nothing where its number is on the list.
fn found<'a>(files: &'a [Held], name: &str, fails: &[u32], number: u32) -> Option<&'a [u8]>
    ensures { MatchOption result (Contains fails.now number ⊎ IsNone (holding (entries_of files.now) name.now))
        (λ bytes. (Contains fails.now number → ⊥) × (holding (entries_of files.now) name.now ≡ Some bytes.now)) }
{
    if fails.contains(&number) {
        None
    } else {
        find(files, name)
    }
}

impl MemShelf {
    /// A shelf that holds no name. Its reads with the numbers in `fails` will fail, counted from 1.
    pub fn new(alloc: Global, fails: &[u32]) -> Result<MemShelf, OutOfMemory>
        ensures { IfOk result (λ s. s ≡ record { entries = []; fails = fails.now; calls = 0; faults = 0 }) }
    {
        Ok(MemShelf {
            alloc,
            files: Vec::new(alloc),
            fails: Vec::from_slice(alloc, fails)?,
            calls: 0,
            faults: 0,
        })
    }

    /// Sets what a name holds. A refused call changes nothing.
    pub fn put(&mut self, name: &str, bytes: &[u8]) -> Result<(), OutOfMemory>
        ensures ok { OnOk result (self.new ≡ record self.old { entries = record { name = name.now; bytes = bytes.now } ∷ self.old.entries }) }
        ensures err { OnErr result (self.new ≡ self.old) }
    {
        let held = Held {
            name: String::from_str(self.alloc, name)?,
            bytes: Vec::from_slice(self.alloc, bytes)?,
        };
        self.files.insert(0, held)?;
        Ok(())
    }
}

impl Shelf for MemShelf {
    ghost holds = { λ s name. holding s.entries name };

    ghost faults = { λ s. s.faults };

    fn read_at(&mut self, name: &str, at: u64, buf: &mut [u8]) -> Result<usize, Failed>
        ensures bound { ReadsAtMost result buf.new }
        ensures bytes { Reads (holding self.old.entries name.now) at result buf.new }
        ensures keeps { (n : List ℕ) → holding self.new.entries n ≡ holding self.old.entries n }
        ensures cause { HasCause self.old.faults self.new.faults result }
        // It fails exactly where its number is on the list or there is no such name, and else gives all that fits.
        ensures fails { IsErr result ↔ (Contains self.old.fails (next_call self.old.calls) ⊎ IsNone (holding self.old.entries name.now)) }
        ensures all { IfSome (holding self.old.entries name.now) (λ contents. IfOk result (λ n. n ≡ min (length buf.old) (length contents - at))) }
        ensures ok { IfOk result (λ n. self.new ≡ record self.old { calls = next_call self.old.calls }) }
        ensures err { OnErr result (self.new ≡ record self.old { calls = next_call self.old.calls; faults = next_fault self.old.faults }) }
    {
        self.calls = self.calls.saturating_add(1);
        match found(&self.files, name, &self.fails, self.calls) {
            Some(bytes) => Ok(copy_at(bytes, at, buf)),
            None => {
                self.faults = self.faults.saturating_add(1);
                Err(Failed)
            }
        }
    }
}
