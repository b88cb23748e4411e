// Which bits of the pipeline's latches and of an instruction word are logically masked.
//
// - completing: what the latches leave once they are completed, told by what they change;
// - compare: whether two such aftermaths agree where it is needed;
// - cases: what the latches leave as they are, worked out once, and whether flipped ones leave the same;
// - quick: what branches, loads and stores do, without the operation;
// - unread: which fields of ID/EX the instruction doesn't read;
// - written: other values in place of those that the latches write;
// - stores: other stores in place of EX/MEM's;
// - needed: other doings of a completed ID/EX: whether they leave the same, and which of them can't;
// - idle: such stores and writes where what ID/EX changes isn't needed;
// - values, ways: bits of the operands of a computed value, and of a branch;
// - inputs, codes: bits of all other operands, immediates and numbers of registers, and of the code;
// - decoded: the masks of ID/EX;
// - latches: the masks of the latches;
// - words: the mask of an instruction word.
//
// Its worked rows are tests of need_rows.
#![tactic(auto)]

mod cases;
mod codes;
mod compare;
mod completing;
mod decoded;
mod idle;
mod inputs;
mod latches;
mod needed;
mod quick;
mod stores;
mod unread;
mod values;
mod ways;
mod words;
mod written;

pub use latches::{LatchMask, latch_bits};
pub use words::word_bits;
