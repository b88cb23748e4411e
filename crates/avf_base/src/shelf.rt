// Where files come from.
ghost use Rattle.std.specs.Prelude.{◌≡◌, List, ℕ, Option};
ghost use Rattle.std.specs.Io.{ReadsAtMost};
ghost use Rattle.avf_base.specs.Causes.{HasCause};
ghost use Rattle.avf_base.specs.Moves.{Reads};

use crate::Failed;

/// A source of files.
pub trait Shelf {
    /// What a name holds, where that is told.
    ghost holds: { Self → List ℕ → Option (List ℕ) };

    /// How many reads failed. It never falls.
    ghost faults: { Self → ℕ };

    /// Reads bytes from the offset `at` on into the front of `buf`, and answers how many, at most the length of `buf`.
    /// It answers 0 for a `buf` with room only at or past the end of what the name holds.
    fn read_at(&mut self, name: &str, at: u64, buf: &mut [u8]) -> Result<usize, Failed>
        ensures bound { ReadsAtMost result buf.new }
        ensures bytes { Reads (holds self.old name.now) at result buf.new }
        ensures keeps { (n : List ℕ) → holds self.new n ≡ holds self.old n }
        ensures cause { HasCause (faults self.old) (faults self.new) result };
}
