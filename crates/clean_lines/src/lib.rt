// A struck bit of a clean line of the cache, cycle by cycle beside the run without the strike: in step until an event of the cache
// settles it.
//
// Nothing is computed here: the laws stand in specs, and the contract of one empty function carries them. CleanCycle has one cycle,
// CleanRun has many.
#![tactic(auto)]

mod laws;

pub use laws::clean_lines_law;
