// A long text on its way to a sink.
ghost use Rattle.std.specs.Prelude.{◌≡◌, ◌≤◌, ◌++◌, [], List, ℕ, length, OnOk, OnErr};
ghost use Rattle.avf_base.specs.Buffers.{GrowsButFor};
ghost use Rattle.avf_base.specs.Causes.{HasCause};
ghost use Rattle.avf_base.specs.Moves.{Grows, GrowsByFront};

use crate::{Failed, Sink, write_all};
use arrayvec::ArrayVec;
use std::marker::Model;

// The most bytes that are held.
const ROOM: usize = 65_536;

/// The end of a text that no sink took yet, at most 65,536 bytes. It takes no memory.
#[derive(Drop)]
pub struct TextBuffer {
    held: ArrayVec<u8, ROOM>,
}

impl Model for TextBuffer {
    ghost Value = { List ℕ };

    ghost view = { λ b. b.held.items };
}

impl TextBuffer {
    /// A buffer that holds nothing.
    pub fn new() -> TextBuffer
        ensures { result ≡ [] }
    {
        TextBuffer {
            held: ArrayVec::new(),
        }
    }

    /// Gives a sink all that is held. Where a write fails, a front of it was taken.
    pub fn flush<K: Sink>(&mut self, out: &mut K) -> Result<(), Failed>
        ensures ok { OnOk result (Grows (K.taken out.old) (K.taken out.new) self.old) }
        ensures empty { OnOk result (self.new ≡ []) }
        ensures err { OnErr result (GrowsByFront (K.taken out.old) (K.taken out.new) self.old) }
        ensures cause { HasCause (K.faults out.old) (K.faults out.new) result }
    {
        write_all(out, self.held.as_slice())?;
        self.held.clear();
        Ok(())
    }

    // The same as `add`, of a piece that doesn't fit behind what is held.
    #[tactic(auto, using(crate::proofs::Buffering::lemmas))]
    fn add_behind<K: Sink>(&mut self, out: &mut K, piece: &[u8]) -> Result<(), Failed>
        ensures ok { OnOk result (GrowsButFor (K.taken out.old) (K.taken out.new) self.new (self.old ++ piece.now)) }
        ensures room { OnOk result (length self.new ≤ ROOM) }
        ensures err { OnErr result (GrowsByFront (K.taken out.old) (K.taken out.new) (self.old ++ piece.now)) }
        ensures cause { HasCause (K.faults out.old) (K.faults out.new) result }
    {
        self.flush(out)?;
        match self.held.try_extend_from_slice(piece) {
            Ok(()) => Ok(()),
            Err(_) => write_all(out, piece),
        }
    }

    /// Adds a piece of the text. It is held as long as it fits behind what is held; else all that is held is given to the sink first, and a
    /// piece of more than 65,536 bytes too. Where a write fails, a front of what was held and the piece was taken.
    #[tactic(auto, using(crate::proofs::Buffering::held))]
    pub fn add<K: Sink>(&mut self, out: &mut K, piece: &[u8]) -> Result<(), Failed>
        ensures ok { OnOk result (GrowsButFor (K.taken out.old) (K.taken out.new) self.new (self.old ++ piece.now)) }
        ensures room { OnOk result (length self.new ≤ ROOM) }
        ensures err { OnErr result (GrowsByFront (K.taken out.old) (K.taken out.new) (self.old ++ piece.now)) }
        ensures cause { HasCause (K.faults out.old) (K.faults out.new) result }
    {
        match self.held.try_extend_from_slice(piece) {
            Ok(()) => Ok(()),
            Err(_) => self.add_behind(out, piece),
        }
    }
}
