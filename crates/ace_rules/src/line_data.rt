// The classes of the data bits of line slots.
ghost use Rattle.std.specs.Prelude.{◌≡◌, ◌<◌, ◌≤◌, ◌*◌, ◌&&◌, ℕ, Some, length, nat_le, slice_get};
ghost use Rattle.bit_field.specs.Shapes.{IsShape, slots as slot_count};
ghost use Rattle.bit_field.specs.declared.places.Structure.TheVariants.{CData};
ghost use Rattle.slot_history.specs.Histories.{Histories, held_in};
ghost use Rattle.line_life.specs.Lives.{next_in};
ghost use Rattle.ace_rules.specs.Asked as asked;
ghost use Rattle.ace_rules.specs.LineData as line_data;
ghost use Rattle.ace_rules.specs.LineData.{AreSomeDataTables, IsDataClass};
ghost use Rattle.ace_rules.specs.Stays.{no_cycle};
ghost use Rattle.ace_rules.specs.declared.note.Note.{Note as CycleNote};

use crate::note::Note;
use crate::pending::is_dead;
use ace_class::{Class, Rule};
use bit_field::Shape;
use event_log::Next;
use line_life::Life;
use need_pass::NeedTable;
use slot_history::{Held, SlotTable};

/// Whether a slot's line is dirty and a bit of its byte `offset`, 0 to 15, is dead: a pending store writes the byte, or the bit is no
/// longer needed.
#[tactic(auto, unfolding(crate::specs::LineData::is_dead_line))]
fn is_dead_line(note: &Note, needs: &NeedTable, held: Held, offset: u32, bit: u32) -> bool
    requires instruction { asked.retired_by note.now ≤ needs.now.count }
    requires line { asked.IsLineHeld held }
    requires offset { offset < 16 }
    requires bit { bit < 8 }
    ensures { result ≡ line_data.is_dead_line needs.now note.now held offset bit }
{
    match held {
        Held::Vacant => false,
        Held::Clean(_) => false,
        Held::Dirty(line) => is_dead(note, needs, 0, 16 * line + offset, bit),
    }
}

/// Whether a bit of a byte of a slot that holds `held` in a cycle is dead there, and the cycle is quiet; so too where the run has no
/// such cycle.
#[tactic(auto, unfolding(crate::specs::LineData::is_dead_in))]
fn is_dead_at(
    notes: &[Note],
    quiet: u32,
    needs: &NeedTable,
    held: Held,
    offset: u32,
    bit: u32,
    cycle: u32,
) -> bool
    requires instructions { (t : ℕ) → (note : CycleNote) → slice_get notes.now t ≡ Some note → asked.retired_by note ≤ needs.now.count }
    requires line { cycle < length notes.now → asked.IsLineHeld held }
    requires offset { offset < 16 }
    requires bit { bit < 8 }
    ensures { (slots : Histories) (slot : ℕ) → held ≡ held_in slots slot cycle
        → result ≡ line_data.is_dead_in needs.now quiet slots slot offset bit cycle (slice_get notes.now cycle) }
{
    match notes.get(cycle as usize) {
        None => true,
        Some(note) => quiet <= cycle && is_dead_line(note, needs, held, offset, bit),
    }
}

/// Whether a bit of a byte of a slot is dead in a cycle, by what the slot holds in it.
fn is_dead_in(
    notes: &[Note],
    quiet: u32,
    needs: &NeedTable,
    slots: &SlotTable,
    slot: u32,
    offset: u32,
    bit: u32,
    cycle: u32,
) -> bool
    requires instructions { (t : ℕ) → (note : CycleNote) → slice_get notes.now t ≡ Some note → asked.retired_by note ≤ needs.now.count }
    requires slot { slot < slot_count slots.now.shape }
    requires lines { (t : ℕ) → t < length notes.now → asked.IsLineHeld (held_in slots.now slot t) }
    requires offset { offset < 16 }
    requires bit { bit < 8 }
    ensures { result ≡ line_data.is_dead_in needs.now quiet slots.now slot offset bit cycle (slice_get notes.now cycle) }
{
    let held = slots.held(slot, cycle);
    is_dead_at(notes, quiet, needs, held, offset, bit, cycle)
}

/// Whether a bit of a clean line is not read, by what next concerns its byte: after a write beside it, it is dirty in the cycle after,
/// and goes by that cycle.
#[tactic(auto, unfolding(crate::specs::LineData::is_unread))]
fn is_unread(
    notes: &[Note],
    quiet: u32,
    needs: &NeedTable,
    slots: &SlotTable,
    slot: u32,
    offset: u32,
    bit: u32,
    next: Next,
) -> bool
    requires instructions { (t : ℕ) → (note : CycleNote) → slice_get notes.now t ≡ Some note → asked.retired_by note ≤ needs.now.count }
    requires slot { slot < slot_count slots.now.shape }
    requires lines { (t : ℕ) → t < length notes.now → asked.IsLineHeld (held_in slots.now slot t) }
    requires offset { offset < 16 }
    requires bit { bit < 8 }
    requires next { line_data.IsNextBelow no_cycle next }
    ensures { result ≡ line_data.is_unread needs.now notes.now quiet slots.now slot offset bit next }
{
    match next {
        Next::Read(_) => false,
        Next::Overwritten(_) => true,
        Next::Beside(cycle) => is_dead_in(notes, quiet, needs, slots, slot, offset, bit, cycle + 1),
        Next::Evicted(_) => true,
        Next::Ends => true,
    }
}

/// What next concerns a byte of a slot from a cycle on.
pub(crate) fn next_at(life: &Life, shape: &Shape, slot: u32, offset: u32, cycle: u32) -> Next
    requires shape { IsShape shape.now }
    requires life { life.now.shape ≡ shape.now }
    requires slot { slot < slot_count shape.now }
    requires offset { offset < 16 }
    requires cycle { cycle < life.now.cycles }
    ensures { result ≡ next_in life.now slot offset cycle }
{
    let ways = u32::from(shape.ways);
    life.next(slot / ways, slot % ways, offset, cycle)
}

/// The class of a bit of a slot's data, by what the slot holds, and where that is a clean line, by what next concerns the byte.
#[tactic(auto, unfolding(crate::specs::LineData::data_class))]
fn class_of(
    notes: &[Note],
    quiet: u32,
    needs: &NeedTable,
    life: &Life,
    slots: &SlotTable,
    shape: &Shape,
    cycle: u32,
    slot: u32,
    offset: u32,
    bit: u32,
    held: Held,
) -> Class
    requires instructions { (t : ℕ) → (note : CycleNote) → slice_get notes.now t ≡ Some note → asked.retired_by note ≤ needs.now.count }
    requires shape { IsShape shape.now }
    requires life { life.now.shape ≡ shape.now }
    requires slots { slots.now.shape ≡ shape.now }
    requires slot { slot < slot_count shape.now }
    requires lines { (t : ℕ) → t < length notes.now → asked.IsLineHeld (held_in slots.now slot t) }
    requires offset { offset < 16 }
    requires bit { bit < 8 }
    requires cycle { cycle < life.now.cycles }
    requires note { cycle < length notes.now }
    requires held { held ≡ held_in slots.now slot cycle }
    requires next { line_data.IsNextBelow no_cycle (next_in life.now slot offset cycle) }
    ensures { result ≡ line_data.data_class_in needs.now notes.now quiet slots.now cycle slot offset bit held (next_in life.now slot offset cycle) }
{
    match held {
        Held::Vacant => Class::UnAce(Rule::EmptyPlace),
        Held::Clean(_) => {
            let next = next_at(life, shape, slot, offset, cycle);
            if is_unread(notes, quiet, needs, slots, slot, offset, bit, next) {
                Class::UnAce(Rule::CleanData)
            } else {
                Class::Ace
            }
        }
        Held::Dirty(_) => {
            if is_dead_at(notes, quiet, needs, held, offset, bit, cycle) {
                Class::UnAce(Rule::DeadData)
            } else {
                Class::Ace
            }
        }
    }
}

/// The class of a data bit of the cache in a cycle, bit `bit` % 8 of byte `bit` % 128 / 8 of slot `bit` / 128, by the notes of all
/// cycles, the first quiet cycle, the needs, and what is kept of the run's cache. It takes no memory.
pub(crate) fn data_class(
    notes: &[Note],
    quiet: u32,
    needs: &NeedTable,
    life: &Life,
    slots: &SlotTable,
    shape: &Shape,
    cycle: u32,
    bit: u32,
) -> Class
    requires bit { bit < slot_count shape.now * 128 }
    requires cycle { cycle < length notes.now }
    requires some { AreSomeDataTables needs.now notes.now quiet shape.now life.now slots.now }
    ensures { IsDataClass result needs.now notes.now quiet shape.now life.now slots.now cycle (record { structure = CData; bit = bit }) }
{
    let slot = bit / 128;
    let offset = bit % 128 / 8;
    let held = slots.held(slot, cycle);
    class_of(
        notes,
        quiet,
        needs,
        life,
        slots,
        shape,
        cycle,
        slot,
        offset,
        bit % 8,
        held,
    )
}
