// A shelf in memory that never fails.
ghost use Rattle.std.specs.Prelude.{◌≡◌, ◌-◌, ◌∷◌, [], List, ℕ, length, min, Ok, OnOk, OnErr, Some};
ghost use Rattle.std.specs.Io.{ReadsAtMost};
ghost use Rattle.avf_base.specs.Causes.{HasCause};
ghost use Rattle.avf_base.specs.Moves.{Reads};
ghost use Rattle.avf_base.specs.Entries.{entries_of};
ghost use Rattle.avf_base.specs.States.{Entry, plainly_holding};

use crate::held::{Held, copy_at, find};
use crate::{Failed, OutOfMemory, Shelf};
use std::alloc::Global;
use std::marker::Model;

/// A shelf of named bytes in memory that never fails. A name that was never put holds no bytes.
#[derive(Drop)]
pub struct PlainShelf {
    alloc: Global,
    files: Vec<Held>,
}

impl Model for PlainShelf {
    ghost Value = { List Entry };

    ghost view = { λ s. entries_of s.files.items };
}

impl PlainShelf {
    /// A shelf on which each name holds no bytes.
    pub fn new(alloc: Global) -> PlainShelf
        ensures { result ≡ [] }
    {
        PlainShelf {
            alloc,
            files: Vec::new(alloc),
        }
    }

    /// Sets what a name holds. A refused call changes nothing.
    pub fn put(&mut self, name: &str, bytes: &[u8]) -> Result<(), OutOfMemory>
        ensures ok { OnOk result (self.new ≡ record { name = name.now; bytes = bytes.now } ∷ self.old) }
        ensures err { OnErr result (self.new ≡ self.old) }
    {
        let held = Held {
            name: String::from_str(self.alloc, name)?,
            bytes: Vec::from_slice(self.alloc, bytes)?,
        };
        self.files.insert(0, held)?;
        Ok(())
    }
}

impl Shelf for PlainShelf {
    ghost holds = { λ s name. Some (plainly_holding s name) };

    ghost faults = { λ s. 0 };

    fn read_at(&mut self, name: &str, at: u64, buf: &mut [u8]) -> Result<usize, Failed>
        ensures bound { ReadsAtMost result buf.new }
        ensures bytes { Reads (Some (plainly_holding self.old name.now)) at result buf.new }
        ensures keeps { (n : List ℕ) → Some (plainly_holding self.new n) ≡ Some (plainly_holding self.old n) }
        ensures cause { HasCause 0 0 result }
        // It fills `buf`, or gives all that is left.
        ensures all { result ≡ Ok (min (length buf.old) (length (plainly_holding self.old name.now) - at)) }
        ensures rest { self.new ≡ self.old }
    {
        match find(&self.files, name) {
            Some(bytes) => Ok(copy_at(bytes, at, buf)),
            None => Ok(copy_at(&[], at, buf)),
        }
    }
}
