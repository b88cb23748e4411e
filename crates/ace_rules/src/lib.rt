// The class of each bit of the machine in each cycle of a recorded run.
//
// - note: what is kept of a cycle;
// - walk: the notes of a run, by a machine that goes as the recorded one went; path: what is on path; words: masks of
//   instruction words; situation: masks of latches, taken over where nothing has changed;
// - analysis: a recorded run with all that is kept of it;
// - first_rule: the class of a bit by the first of the rules that holds;
// - timing, registers, next, latches, fetched: the classes of the pipeline's bits;
// - classes: the class of any bit; until, stays: how long a bit keeps its class; still: how long a note stays;
// - later: what instructions that haven't left the memory stage need and access; progress: how long they do;
// - pending: the classes of the bits of the store buffer;
// - lines, line_data: the classes of the bits of line slots; line_bytes: those of the data byte by byte, and how long they stay;
// - tally: how many bits have each class, by masks of the rules; tally_latches, tally_decoded, tally_fetched, tally_registers,
//   tally_pending, tally_target: the masks of each structure; tally_cycle: all bits of a structure while the note stays;
//   tally_bytes: the data bits of a byte in a stretch of cycles;
// - ace_groups: how many bits of a register, or of a byte of the cache, are ACE.
#![tactic(auto)]

mod ace_groups;
mod analysis;
mod classes;
mod fetched;
mod first_rule;
mod latches;
mod later;
mod line_bytes;
mod line_data;
mod lines;
mod next;
mod note;
mod path;
mod pending;
mod progress;
mod registers;
mod situation;
mod stays;
mod still;
mod tally;
mod tally_bytes;
mod tally_cycle;
mod tally_decoded;
mod tally_fetched;
mod tally_latches;
mod tally_pending;
mod tally_registers;
mod tally_target;
mod timing;
mod until;
mod walk;
mod words;

pub use ace_groups::Aces;
pub use analysis::Analysis;
pub use note::Note;
