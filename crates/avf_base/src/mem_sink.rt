// A sink in memory, whose calls fail by number.
ghost use Rattle.std.specs.Prelude.{◌≡◌, ◌-◌, ◌<◌, ◌≤◌, ◌↔◌, ◌⊎◌, ◌++◌, [], Contains, length, take, min, IfOk, OnErr, IsErr, MatchOption, Some, vec_capacity};
ghost use Rattle.std.specs.Io.{WritesAtMost};
ghost use Rattle.avf_base.specs.Causes.{HasCause};
ghost use Rattle.avf_base.specs.Moves.{Grows};
ghost use Rattle.avf_base.specs.States.{MemTaken, next_call, next_fault};

use crate::{Failed, OutOfMemory, Sink};
use std::alloc::Global;
use std::marker::Model;

/// A sink in memory with a room that is reserved when it is made. Its writes with the given numbers fail, counted from 1.
#[derive(Drop)]
pub struct MemSink {
    kept: Vec<u8>,
    room: u32,
    most: u32,
    fails: Vec<u32>,
    calls: u32,
    faults: u64,
}

impl Model for MemSink {
    ghost Value = { MemTaken };

    ghost view = { λ s. record { kept = s.kept.items; room = s.room; most = s.most; fails = s.fails.items; calls = s.calls; faults = s.faults } };

    ghost invariant = { λ s. (s.room ≤ vec_capacity s.kept) × (0 < s.most) };
}

// How much this call takes, or nothing where its number is on the list.
fn portion(len: usize, left: usize, most: u32, fails: &[u32], number: u32) -> Option<usize>
    ensures { MatchOption result (Contains fails.now number) (λ n. (Contains fails.now number → ⊥) × (n ≡ min (min len left) most)) }
{
    if fails.contains(&number) {
        None
    } else {
        Some(len.min(left).min(most as usize))
    }
}

impl MemSink {
    /// A sink with room for `room` bytes, of which a write takes at most `most`. Its writes with the numbers in `fails` will
    /// fail, counted from 1.
    pub fn new(alloc: Global, room: u32, most: u32, fails: &[u32]) -> Result<MemSink, OutOfMemory>
        requires { 0 < most }
        ensures { IfOk result (λ s. s ≡ record { kept = []; room = room; most = most; fails = fails.now; calls = 0; faults = 0 }) }
    {
        let kept = Vec::with_capacity(alloc, room as usize)?;
        let fails = Vec::from_slice(alloc, fails)?;
        Ok(MemSink {
            kept,
            room,
            most,
            fails,
            calls: 0,
            faults: 0,
        })
    }

    /// All that it took.
    pub fn kept(&self) -> &[u8]
        ensures { result.now ≡ self.now.kept }
    {
        &self.kept
    }
}

impl Sink for MemSink {
    ghost taken = { λ s. Some s.kept };

    ghost faults = { λ s. s.faults };

    fn write(&mut self, piece: &[u8]) -> Result<usize, Failed>
        ensures bound { WritesAtMost result piece.now }
        ensures some { IfOk result (λ n. 0 < length piece.now → 0 < n) }
        ensures taken { IfOk result (λ n. Grows (Some self.old.kept) (Some self.new.kept) (take n piece.now)) }
        ensures kept { OnErr result (Some self.new.kept ≡ Some self.old.kept) }
        ensures cause { HasCause self.old.faults self.new.faults result }
        // Of a piece that isn't empty: it fails exactly where its number is on the list or no room is left.
        ensures fails { 0 < length piece.now → (IsErr result ↔ (Contains self.old.fails (next_call self.old.calls) ⊎ (self.old.room ≤ length self.old.kept))) }
        ensures amount { IfOk result (λ n. n ≡ min (min (length piece.now) (self.old.room - length self.old.kept)) self.old.most) }
        ensures ok { IfOk result (λ n. self.new ≡ record self.old { kept = self.old.kept ++ take n piece.now; calls = next_call self.old.calls }) }
        ensures err { OnErr result (self.new ≡ record self.old { calls = next_call self.old.calls; faults = next_fault self.old.faults }) }
    {
        self.calls = self.calls.saturating_add(1);
        let left = (self.room as usize).saturating_sub(self.kept.len());
        match portion(piece.len(), left, self.most, &self.fails, self.calls) {
            Some(n) if n > 0 || piece.is_empty() => {
                let (front, _) = piece.split_at(n);
                self.kept.extend_from_slice(front).unwrap();
                Ok(n)
            }
            _ => {
                self.faults = self.faults.saturating_add(1);
                Err(Failed)
            }
        }
    }
}
