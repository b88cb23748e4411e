// The classes of the data bits of line slots byte by byte, and up to which cycle they stay.
ghost use Rattle.std.specs.Prelude.{◌≡◌, ◌≤◌, ◌<◌, ◌*◌, ◌/◌, ◌%◌, ◌&&◌, ℕ, [], ◌∷◌, Some, length, nat_le, slice_get, if◌then◌else◌};
ghost use Rattle.bit_field.specs.Shapes.{slots as slot_count};
ghost use Rattle.slot_history.specs.Histories.{held_in, next_change};
ghost use Rattle.ace_class.specs.declared.class.Class.TheVariants.{Ace, UnAce};
ghost use Rattle.ace_class.specs.declared.class.Rule.TheVariants.{CleanData, DeadData, EmptyPlace};
ghost use Rattle.ace_rules.specs.Asked as asked;
ghost use Rattle.ace_rules.specs.LineBytes.{IsByteStay};
ghost use Rattle.ace_rules.specs.LineData as line_data;
ghost use Rattle.ace_rules.specs.LineData.{AreSomeDataTables};
ghost use Rattle.ace_rules.specs.RuleMasks.{first_of, is_set};
ghost use Rattle.ace_rules.specs.Stays as stays;
ghost use Rattle.ace_rules.specs.Stays.{AreInOrder, IsDirtyDataUntil, no_cycle};
ghost use Rattle.ace_rules.specs.declared.note.Note.{Note as CycleNote};

use crate::line_data::next_at;
use crate::note::Note;
use crate::progress::byte_dead_until;
use crate::stays::after;
use crate::tally::{RuleMask, when};
use crate::tally_pending::{BYTE_MASK, dead_bits};
use ace_class::Rule;
use bit_field::Shape;
use event_log::Next;
use line_life::Life;
use need_pass::NeedTable;
use slot_history::{Held, SlotTable};

/// The bits of a byte of a line slot of which a rule holds, while the others are ACE, and up to which cycle that surely stays.
#[derive(Clone, Copy)]
pub(crate) struct ByteStay {
    pub found: RuleMask,
    pub until: u32,
}

/// The dead bits of byte `offset`, 0 to 15, of a slot's line: none where it isn't dirty.
fn dead_bits_of(note: &Note, needs: &NeedTable, held: Held, offset: u32) -> u128
    requires instruction { asked.retired_by note.now ≤ needs.now.count }
    requires line { asked.IsLineHeld held }
    requires offset { offset < 16 }
    ensures { (j : ℕ) → j < 8 → is_set result j ≡ line_data.is_dead_line needs.now note.now held offset j }
{
    match held {
        Held::Vacant => 0,
        Held::Clean(_) => 0,
        Held::Dirty(line) => dead_bits(note, needs, 0, 16 * line + offset),
    }
}

/// Those that are dead in a cycle which is quiet; all where the run has no such cycle.
fn dead_bits_in(
    notes: &[Note],
    quiet: u32,
    needs: &NeedTable,
    slots: &SlotTable,
    slot: u32,
    offset: u32,
    cycle: u32,
) -> u128
    requires instructions { (t : ℕ) → (note : CycleNote) → slice_get notes.now t ≡ Some note → asked.retired_by note ≤ needs.now.count }
    requires slot { slot < slot_count slots.now.shape }
    requires lines { (t : ℕ) → t < length notes.now → asked.IsLineHeld (held_in slots.now slot t) }
    requires offset { offset < 16 }
    ensures { (j : ℕ) → j < 8 → is_set result j ≡ line_data.is_dead_in needs.now quiet slots.now slot offset j cycle (slice_get notes.now cycle) }
{
    match notes.get(cycle as usize) {
        None => BYTE_MASK,
        Some(note) => when(
            quiet <= cycle,
            dead_bits_of(note, needs, slots.held(slot, cycle), offset),
        ),
    }
}

/// The bits of a byte of a clean line that aren't read, by what next concerns the byte.
fn unread_bits(
    notes: &[Note],
    quiet: u32,
    needs: &NeedTable,
    slots: &SlotTable,
    slot: u32,
    offset: u32,
    next: Next,
) -> u128
    requires instructions { (t : ℕ) → (note : CycleNote) → slice_get notes.now t ≡ Some note → asked.retired_by note ≤ needs.now.count }
    requires slot { slot < slot_count slots.now.shape }
    requires lines { (t : ℕ) → t < length notes.now → asked.IsLineHeld (held_in slots.now slot t) }
    requires offset { offset < 16 }
    requires next { line_data.IsNextBelow no_cycle next }
    ensures { (j : ℕ) → j < 8 → is_set result j ≡ line_data.is_unread needs.now notes.now quiet slots.now slot offset j next }
{
    match next {
        Next::Read(_) => 0,
        Next::Overwritten(_) => BYTE_MASK,
        Next::Beside(cycle) => dead_bits_in(notes, quiet, needs, slots, slot, offset, cycle + 1),
        Next::Evicted(_) => BYTE_MASK,
        Next::Ends => BYTE_MASK,
    }
}

/// The classes of the bits of a byte of a slot that holds nothing up to cycle `change`.
fn vacant_stay(change: u32) -> ByteStay
    ensures classes { (j : ℕ) → j < 8 → first_of (result.found ∷ []) j ≡ UnAce EmptyPlace }
    ensures stays { result.until ≤ change }
{
    ByteStay {
        found: RuleMask {
            rule: Rule::EmptyPlace,
            mask: BYTE_MASK,
        },
        until: change,
    }
}

/// The same of a slot that holds a clean line up to then.
fn clean_stay(
    notes: &[Note],
    quiet: u32,
    needs: &NeedTable,
    slots: &SlotTable,
    slot: u32,
    offset: u32,
    next: Next,
    change: u32,
) -> ByteStay
    requires instructions { (t : ℕ) → (note : CycleNote) → slice_get notes.now t ≡ Some note → asked.retired_by note ≤ needs.now.count }
    requires slot { slot < slot_count slots.now.shape }
    requires lines { (t : ℕ) → t < length notes.now → asked.IsLineHeld (held_in slots.now slot t) }
    requires offset { offset < 16 }
    requires next { line_data.IsNextBelow no_cycle next }
    ensures classes { (j : ℕ) → j < 8 → first_of (result.found ∷ []) j ≡ (if line_data.is_unread needs.now notes.now quiet slots.now slot offset j next then UnAce CleanData else Ace) }
    ensures stays { (result.until ≤ change) × (result.until ≤ stays.after next) }
{
    ByteStay {
        found: RuleMask {
            rule: Rule::CleanData,
            mask: unread_bits(notes, quiet, needs, slots, slot, offset, next),
        },
        until: change.min(after(next)),
    }
}

/// Up to which cycle the classes of the bits of the byte at a byte address stay in a line that stays dirty.
fn dirty_until(
    notes: &[Note],
    note: &Note,
    quiet: u32,
    needs: &NeedTable,
    byte: u32,
    cycle: u32,
    bound: u32,
) -> u32
    requires order { AreInOrder notes.now }
    requires instruction { asked.retired_by note.now ≤ needs.now.count }
    ensures { (j : ℕ) → j < 8 → IsDirtyDataUntil needs.now notes.now note.now quiet byte j cycle result }
{
    if quiet <= cycle {
        byte_dead_until(notes, note, needs, byte, bound)
    } else {
        quiet
    }
}

/// The classes of the bits of the byte at a byte address in a slot that holds its line, dirty, up to cycle `change`.
fn dirty_stay(
    notes: &[Note],
    note: &Note,
    quiet: u32,
    needs: &NeedTable,
    byte: u32,
    cycle: u32,
    change: u32,
) -> ByteStay
    requires order { AreInOrder notes.now }
    requires instruction { asked.retired_by note.now ≤ needs.now.count }
    ensures classes { (j : ℕ) → j < 8 → first_of (result.found ∷ []) j ≡ (if nat_le quiet cycle && asked.is_dead needs.now note.now 0 byte j then UnAce DeadData else Ace) }
    ensures change { result.until ≤ change }
    ensures stays { (j : ℕ) → j < 8 → IsDirtyDataUntil needs.now notes.now note.now quiet byte j cycle result.until }
{
    ByteStay {
        found: RuleMask {
            rule: Rule::DeadData,
            mask: when(quiet <= cycle, dead_bits(note, needs, 0, byte)),
        },
        until: change.min(dirty_until(notes, note, quiet, needs, byte, cycle, change)),
    }
}

/// The classes of the bits of byte `byte` % 16 of slot `byte` / 16 in a cycle, and up to which cycle they surely stay, by the notes of all
/// cycles and by what is kept of the run's cache. It takes no memory.
pub(crate) fn byte_stay(
    notes: &[Note],
    note: &Note,
    quiet: u32,
    needs: &NeedTable,
    life: &Life,
    slots: &SlotTable,
    shape: &Shape,
    byte: u32,
    cycle: u32,
) -> ByteStay
    requires order { AreInOrder notes.now }
    requires byte { byte < slot_count shape.now * 16 }
    requires cycle { cycle < length notes.now }
    requires note { slice_get notes.now cycle ≡ Some note.now }
    requires some { AreSomeDataTables needs.now notes.now quiet shape.now life.now slots.now }
    ensures { IsByteStay needs.now notes.now note.now quiet life.now slots.now (byte / 16) (byte % 16) cycle (next_change slots.now (byte / 16) cycle) (held_in slots.now (byte / 16) cycle) result }
{
    let slot = byte / 16;
    let offset = byte % 16;
    let change = slots.next_change(slot, cycle);
    match slots.held(slot, cycle) {
        Held::Vacant => vacant_stay(change),
        Held::Clean(_) => {
            let next = next_at(life, shape, slot, offset, cycle);
            clean_stay(notes, quiet, needs, slots, slot, offset, next, change)
        }
        Held::Dirty(line) => {
            let address = 16 * line + offset;
            dirty_stay(notes, note, quiet, needs, address, cycle, change)
        }
    }
}
