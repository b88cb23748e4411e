// A campaign of strikes: bits and cycles drawn at random, each with its class and with the verdict on the run in which it is flipped.
//
// - places: all bits of a machine in a row;
// - strikes: the strikes of a seed;
// - outcome: what became of a strike, and how many there were of each kind;
// - striking: the strikes of a seed on a recorded run, judged and counted;
// - text: a campaign in words.
//
// Its worked rows are tests of run_rows.
#![tactic(auto)]

mod outcome;
mod places;
mod strikes;
mod striking;
mod text;

pub use outcome::{Cells, Outcome};
pub use places::{all_bits, place_at};
pub use strikes::{Strike, draw_strike};
pub use striking::{MOST_STRIKES, campaign};
pub use text::campaign_text;
