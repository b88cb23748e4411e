// What a flip of a stored bit can do to a run, and how often: the classes of bits and the counts of them.
//
// - class: the thirteen rules, and the class that the first of them to hold gives;
// - counts: how many pairs of a bit and a cycle have each class.
#![tactic(auto)]

mod class;
mod counts;

pub use class::{CLASSES, Class, RULES, Rule};
pub use counts::{Counts, MILLION, MOST_CYCLES, STRUCTURES, order_law};
