// A sink in memory that never fails.
ghost use Rattle.std.specs.Prelude.{◌≡◌, ◌<◌, ◌≤◌, [], length, take, Ok, IfOk, OnErr, true, vec_capacity};
ghost use Rattle.std.specs.Io.{WritesAtMost};
ghost use Rattle.avf_base.specs.Causes.{HasCause};
ghost use Rattle.avf_base.specs.Moves.{Grows};
ghost use Rattle.avf_base.specs.States.{PlainTaken, plainly_taken, plainly_written};

use crate::{Failed, OutOfMemory, Sink};
use std::alloc::Global;
use std::marker::Model;

/// A sink in memory that never fails, and keeps the first bytes up to a room that is reserved when it is made.
#[derive(Drop)]
pub struct PlainSink {
    kept: Vec<u8>,
    room: u32,
    whole: bool,
}

impl Model for PlainSink {
    ghost Value = { PlainTaken };

    ghost view = { λ s. record { kept = s.kept.items; room = s.room; whole = s.whole } };

    ghost invariant = { λ s. s.room ≤ vec_capacity s.kept };
}

impl PlainSink {
    /// A sink that keeps the first `room` bytes.
    pub fn new(alloc: Global, room: u32) -> Result<PlainSink, OutOfMemory>
        ensures { IfOk result (λ s. s ≡ record { kept = []; room = room; whole = true }) }
    {
        Ok(PlainSink {
            kept: Vec::with_capacity(alloc, room as usize)?,
            room,
            whole: true,
        })
    }

    /// The first bytes that it took, as many as it has room for.
    pub fn kept(&self) -> &[u8]
        ensures { result.now ≡ self.now.kept }
    {
        &self.kept
    }
}

impl Sink for PlainSink {
    ghost taken = { λ s. plainly_taken s };

    ghost faults = { λ s. 0 };

    fn write(&mut self, piece: &[u8]) -> Result<usize, Failed>
        ensures bound { WritesAtMost result piece.now }
        ensures some { IfOk result (λ n. 0 < length piece.now → 0 < n) }
        ensures taken { IfOk result (λ n. Grows (plainly_taken self.old) (plainly_taken self.new) (take n piece.now)) }
        ensures kept { OnErr result (plainly_taken self.new ≡ plainly_taken self.old) }
        ensures cause { HasCause 0 0 result }
        // It takes every byte.
        ensures all { result ≡ Ok (length piece.now) }
        ensures written { self.new ≡ plainly_written self.old piece.now }
    {
        let left = (self.room as usize).saturating_sub(self.kept.len());
        let n = piece.len().min(left);
        let (front, _) = piece.split_at(n);
        self.kept.extend_from_slice(front).unwrap();
        self.whole = self.whole && piece.len() <= left;
        Ok(piece.len())
    }
}
