// Whether an address is that of the instruction behind the entries on path.
ghost use Rattle.std.specs.Prelude.{◌≡◌, ◌<◌};
ghost use Rattle.ace_rules.specs.PipelineTests as asked;

use crate::note::Note;
use bit_field::flip_at_u32;

/// Whether an instruction comes behind the entries on path, and is at this word address.
#[tactic(auto, unfolding(crate::specs::PipelineTests::is_next))]
pub(crate) fn is_next(note: &Note, pc: u32) -> bool
    ensures { result ≡ asked.is_next note.now pc }
{
    match note.next {
        Some(next) => pc == next,
        None => false,
    }
}

/// Whether the first entry that isn't on path would be at its address, with bit `place` of its own flipped.
#[tactic(auto, unfolding(crate::specs::PipelineTests::becomes_next))]
pub(crate) fn becomes_next(note: &Note, place: u32) -> bool
    requires { place < 32 }
    ensures { result ≡ asked.becomes_next note.now place }
{
    match note.missed {
        Some(pc) => {
            let mut flipped = pc;
            flip_at_u32(&mut flipped, 32, place);
            is_next(note, flipped)
        }
        None => false,
    }
}
