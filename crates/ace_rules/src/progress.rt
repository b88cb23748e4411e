// How far a run gets: up to which cycle the instructions that haven't left the memory stage need and access the same.
ghost use Rattle.std.specs.Prelude.{◌≡◌, ◌≤◌, ◌<◌, ℕ, true, Some, length, slice_get};
ghost use Rattle.bit_field.specs.Shapes.{IsShape, slots as slot_count};
ghost use Rattle.ace_rules.specs.Asked as asked;
ghost use Rattle.ace_rules.specs.Stays.{AreInOrder, IsBeforePast, StaysAccessed, StaysDead, StaysLookedUp};
ghost use Rattle.ace_rules.specs.declared.note.Note.{Note as CycleNote};

use crate::later::{is_later, is_needed, is_pending_line, is_unneeded, retired};
use crate::note::Note;
use crate::pending::is_pending_from;
use bit_field::Shape;
use need_pass::NeedTable;
use tag_dist::TagTable;

/// No cycle of a run, which has at most 2^31.
pub(crate) const NO_CYCLE: u32 = u32::MAX;

/// The first cycle before which more instructions than this one, and those before it, have left the memory stage: the number of cycles
/// where there is none.
fn first_past(notes: &[Note], instruction: u32) -> u32
    requires { AreInOrder notes.now }
    ensures before { IsBeforePast notes.now (Some instruction) result }
    ensures within { result ≤ length notes.now }
    ensures past { (note : CycleNote) → slice_get notes.now result ≡ Some note → instruction < asked.retired_by note }
{
    notes.partition_point(|note| retired(note) <= instruction) as u32
}

/// Whether in the cycles below `bound` no more instructions than this one, and those before it, have left the memory stage.
fn is_next_below(notes: &[Note], instruction: u32, bound: u32) -> bool
    requires { AreInOrder notes.now }
    ensures { result ≡ true → IsBeforePast notes.now (Some instruction) bound }
{
    match notes.get(bound.saturating_sub(1) as usize) {
        Some(note) => retired(note) <= instruction,
        None => false,
    }
}

/// A cycle before which no more instructions than this one, and those before it, have left the memory stage: `bound` where that is one,
/// without a search, else the last.
fn past_within(notes: &[Note], instruction: u32, bound: u32) -> u32
    requires { AreInOrder notes.now }
    ensures { IsBeforePast notes.now (Some instruction) result }
{
    if is_next_below(notes, instruction, bound) {
        bound
    } else {
        first_past(notes, instruction)
    }
}

/// The same where there may be no such instruction.
fn past(notes: &[Note], last: Option<u32>, bound: u32) -> u32
    requires { AreInOrder notes.now }
    ensures { IsBeforePast notes.now last result }
{
    match last {
        Some(instruction) => past_within(notes, instruction, bound),
        None => NO_CYCLE,
    }
}

/// Up to which cycle a bit of the byte at a byte address, 0 to 7, surely stays dead in a line that is dirty, or stays not dead: not past
/// this cycle, where it is needed and a store to its byte is pending.
pub(crate) fn dead_until(
    notes: &[Note],
    note: &Note,
    needs: &NeedTable,
    byte: u32,
    bit: u32,
    bound: u32,
) -> u32
    requires order { AreInOrder notes.now }
    requires instruction { asked.retired_by note.now ≤ needs.now.count }
    requires bit { bit < 8 }
    ensures { StaysDead needs.now notes.now note.now byte bit result }
{
    if is_pending_from(&note.stores, 0, byte) && is_needed(note, needs, byte, bit) {
        0
    } else {
        past(notes, needs.byte_need_until(byte, retired(note)), bound)
    }
}

/// The same of all bits of the byte: not past this cycle, where one of them is needed and a store to the byte is pending.
pub(crate) fn byte_dead_until(
    notes: &[Note],
    note: &Note,
    needs: &NeedTable,
    byte: u32,
    bound: u32,
) -> u32
    requires order { AreInOrder notes.now }
    requires instruction { asked.retired_by note.now ≤ needs.now.count }
    ensures { (j : ℕ) → j < 8 → StaysDead needs.now notes.now note.now byte j result }
{
    if is_pending_from(&note.stores, 0, byte) && !is_unneeded(note, needs, byte) {
        0
    } else {
        past(notes, needs.byte_need_until(byte, retired(note)), bound)
    }
}

/// Up to which cycle a line surely stays accessed again, or stays not: not past this cycle, where it is only by a pending store.
pub(crate) fn accessed_until(
    notes: &[Note],
    note: &Note,
    tags: &TagTable,
    line: u32,
    bound: u32,
) -> u32
    requires { AreInOrder notes.now }
    ensures { StaysAccessed tags.now notes.now note.now line result }
{
    let last = tags.last_access(line);
    if is_later(last, retired(note)) {
        past(notes, last, bound)
    } else if is_pending_line(&note.stores, line) {
        0
    } else {
        NO_CYCLE
    }
}

/// Up to which cycle it stays so whether the cache looks a line up before a slot is filled, or with that.
pub(crate) fn looked_up_until(
    tags: &TagTable,
    shape: &Shape,
    slot: u32,
    line: u32,
    cycle: u32,
) -> u32
    requires shape { IsShape shape.now }
    requires tags { tags.now.shape ≡ shape.now }
    requires slot { slot < slot_count shape.now }
    ensures { StaysLookedUp tags.now slot line cycle result }
{
    let ways = u32::from(shape.ways);
    match tags.next_asked(slot / ways, slot % ways, line, cycle) {
        Some(asked) => asked.saturating_add(1),
        None => NO_CYCLE,
    }
}
