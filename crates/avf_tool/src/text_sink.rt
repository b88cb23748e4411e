// A text that is put together in memory.
ghost use Rattle.std.specs.Prelude.{◌≡◌, ◌<◌, ◌≤◌, ℕ, List, [], length, take, IfOk, OnErr, Some};
ghost use Rattle.std.specs.Io.{WritesAtMost};
ghost use Rattle.avf_base.specs.Causes.{HasCause};
ghost use Rattle.avf_base.specs.Moves.{Grows};
ghost use Rattle.avf_tool.specs.Kept.{KeptText};

use avf_base::{Failed, Sink};
use std::alloc::Global;
use std::marker::Model;

/// A sink that keeps all that it takes. A write fails where there is no memory for it.
#[derive(Drop)]
pub struct TextSink {
    kept: Vec<u8>,
    faults: u64,
}

impl Model for TextSink {
    ghost Value = { KeptText };

    ghost view = { λ s. record { kept = s.kept.items; faults = s.faults } };
}

impl TextSink {
    /// A sink that took nothing.
    pub fn new(alloc: Global) -> TextSink
        ensures { result ≡ record { kept = []; faults = 0 } }
    {
        TextSink {
            kept: Vec::new(alloc),
            faults: 0,
        }
    }

    /// All that it took.
    pub fn into_bytes(self) -> Vec<u8>
        ensures { result.items ≡ self.kept }
    {
        self.kept
    }
}

impl Sink for TextSink {
    ghost taken = { λ s. Some s.kept };

    ghost faults = { λ s. s.faults };

    fn write(&mut self, piece: &[u8]) -> Result<usize, Failed>
        ensures bound { WritesAtMost result piece.now }
        ensures some { IfOk result (λ n. 0 < length piece.now → 0 < n) }
        ensures taken { IfOk result (λ n. Grows (Some self.old.kept) (Some self.new.kept) (take n piece.now)) }
        ensures kept { OnErr result (Some self.new.kept ≡ Some self.old.kept) }
        ensures cause { HasCause self.old.faults self.new.faults result }
    {
        match self.kept.extend_from_slice(piece) {
            Ok(()) => Ok(piece.len()),
            Err(_) => {
                self.faults = self.faults.saturating_add(1);
                Err(Failed)
            }
        }
    }
}
