// The strikes of a seed.
ghost use Rattle.std.specs.Prelude.{◌≡◌, ◌<◌};
ghost use Rattle.bit_field.specs.Shapes.{IsPlaceIn};
ghost use Rattle.strike_campaign.specs.Strikes.{IsStrikeOf, after, word};

use crate::places::{all_bits, place_at};
use bit_field::Place;
use rand_core::utils::NextWord;
use rand_pcg::Lcg64Xsh32;
use run_record::Recorded;

/// A flip of the bit at a place before a cycle of a run.
#[derive(Clone, Copy)]
pub struct Strike {
    /// A bit of the machine.
    pub place: Place,
    /// The cycle, from 0 on and below the run's number of cycles, before which the bit is flipped.
    pub cycle: u32,
}

#[tactic(auto, unfolding(crate::specs::Strikes::word))]
fn draw_word(words: &mut Lcg64Xsh32) -> u32
    ensures word { result ≡ word words.old }
    ensures rest { words.new ≡ after words.old }
{
    words.next_word()
}

/// Draws two words, and gives the strike that they name: the first is the index of its bit among all bits of the machine, the second its
/// cycle, each taken modulo their number.
pub fn draw_strike(words: &mut Lcg64Xsh32, recorded: &Recorded<'_>) -> Strike
    ensures strike { IsStrikeOf recorded.now (word words.old) (word (after words.old)) result }
    ensures rest { words.new ≡ after (after words.old) }
    ensures inside { IsPlaceIn recorded.now.shape result.place }
    ensures cycle { result.cycle < recorded.now.cycles }
{
    recorded.is_record();
    let shape = recorded.shape();
    let first = draw_word(words);
    let second = draw_word(words);
    Strike {
        place: place_at(&shape, first % all_bits(&shape)),
        cycle: second % recorded.cycles(),
    }
}
