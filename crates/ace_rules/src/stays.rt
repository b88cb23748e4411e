// Up to which cycle the class of a bit stays, by what is kept of the run, where that is known at once.
ghost use Rattle.std.specs.Prelude.{◌≡◌, ◌≤◌, ◌<◌, ◌*◌, ◌+◌, ◌/◌, ◌%◌};
ghost use Rattle.bit_field.specs.Shapes.{IsPlaceIn, IsShape, slots as slot_count, tag_bits as tag_width};
ghost use Rattle.slot_history.specs.Histories.{held_in, next_change};
ghost use Rattle.ace_rules.specs.Analyses.{IsSomeAnalysis};
ghost use Rattle.ace_rules.specs.Asked as asked;
ghost use Rattle.ace_rules.specs.Stays as stays;
ghost use Rattle.ace_rules.specs.Stays.{AreInOrder, IsCleanTagUntil, IsDataUntil, IsDirtyDataUntil, IsDirtyUntil, IsStay, IsTagUntil};
ghost use Rattle.ace_rules.specs.Stays.{IsValidUntil, StaysUnaccessed, no_cycle};

use crate::classes::note_at;
use crate::later::is_accessed_again;
use crate::line_data::next_at;
use crate::note::Note;
use crate::progress::{NO_CYCLE, accessed_until, dead_until, looked_up_until};
use bit_field::{Place, Shape, Structure, tag_bits};
use event_log::Next;
use line_life::Life;
use need_pass::NeedTable;
use run_record::Recorded;
use slot_history::{Held, SlotTable};
use tag_dist::{TagTable, distance_one};

/// Up to which cycle it stays so whether a cycle is quiet.
#[tactic(auto, unfolding(crate::specs::Stays::quiet_until))]
fn quiet_until(first_quiet: u32, cycle: u32) -> u32
    ensures { result ≡ stays.quiet_until first_quiet cycle }
{
    if first_quiet <= cycle {
        NO_CYCLE
    } else {
        first_quiet
    }
}

/// The cycle after that in which something next concerns a byte.
#[tactic(auto, unfolding(crate::specs::Stays::after))]
pub(crate) fn after(next: Next) -> u32
    ensures { result ≡ stays.after next }
{
    match next {
        Next::Read(cycle) => cycle.saturating_add(1),
        Next::Overwritten(cycle) => cycle.saturating_add(1),
        Next::Beside(cycle) => cycle.saturating_add(1),
        Next::Evicted(cycle) => cycle.saturating_add(1),
        Next::Ends => NO_CYCLE,
    }
}

/// Up to which cycle the class of a bit of the byte at a byte address stays in a line that stays dirty.
fn dirty_data_until(
    notes: &[Note],
    note: &Note,
    first_quiet: u32,
    needs: &NeedTable,
    byte: u32,
    bit: u32,
    cycle: u32,
    bound: u32,
) -> u32
    requires order { AreInOrder notes.now }
    requires instruction { asked.retired_by note.now ≤ needs.now.count }
    requires bit { bit < 8 }
    ensures { IsDirtyDataUntil needs.now notes.now note.now first_quiet byte bit cycle result }
{
    if first_quiet <= cycle {
        dead_until(notes, note, needs, byte, bit, bound)
    } else {
        first_quiet
    }
}

/// Up to which cycle the class of a bit stays that is un-ACE where its line isn't accessed again and the cycle is quiet.
fn unaccessed_until(
    notes: &[Note],
    note: &Note,
    first_quiet: u32,
    tags: &TagTable,
    line: u32,
    cycle: u32,
    bound: u32,
) -> u32
    requires { AreInOrder notes.now }
    ensures { StaysUnaccessed tags.now notes.now note.now first_quiet line cycle result }
{
    quiet_until(first_quiet, cycle).min(accessed_until(notes, note, tags, line, bound))
}

/// Up to which cycle the class of a data bit stays, by what its slot holds up to cycle `change`.
fn data_until(
    notes: &[Note],
    note: &Note,
    first_quiet: u32,
    needs: &NeedTable,
    life: &Life,
    shape: &Shape,
    bit: u32,
    cycle: u32,
    held: Held,
    change: u32,
) -> u32
    requires order { AreInOrder notes.now }
    requires instruction { asked.retired_by note.now ≤ needs.now.count }
    requires shape { IsShape shape.now }
    requires life { life.now.shape ≡ shape.now }
    requires bit { bit < slot_count shape.now * 128 }
    requires cycle { cycle < life.now.cycles }
    requires line { asked.IsLineHeld held }
    ensures { IsDataUntil needs.now notes.now note.now first_quiet life.now (bit / 128) (bit % 128 / 8) (bit % 8) cycle change held result }
{
    let offset = bit % 128 / 8;
    match held {
        Held::Vacant => change,
        Held::Clean(_) => change.min(after(next_at(life, shape, bit / 128, offset, cycle))),
        Held::Dirty(line) => {
            change.min(dirty_data_until(
                notes,
                note,
                first_quiet,
                needs,
                16 * line + offset,
                bit % 8,
                cycle,
                change,
            ))
        }
    }
}

/// The same of a bit of a clean line's tag; `near` is the line at distance one in this bit.
fn clean_tag_until(
    notes: &[Note],
    note: &Note,
    first_quiet: u32,
    tags: &TagTable,
    shape: &Shape,
    slot: u32,
    line: u32,
    near: u32,
    cycle: u32,
    change: u32,
) -> u32
    requires order { AreInOrder notes.now }
    requires shape { IsShape shape.now }
    requires tags { tags.now.shape ≡ shape.now }
    requires slot { slot < slot_count shape.now }
    ensures { IsCleanTagUntil tags.now notes.now note.now first_quiet slot line near cycle result }
{
    if first_quiet <= cycle && !is_accessed_again(note, tags, near) {
        NO_CYCLE
    } else {
        unaccessed_until(notes, note, first_quiet, tags, near, cycle, change)
            .min(looked_up_until(tags, shape, slot, line, cycle))
            .min(looked_up_until(tags, shape, slot, near, cycle))
    }
}

/// The same of bit `place` of a slot's tag.
fn tag_until(
    notes: &[Note],
    note: &Note,
    first_quiet: u32,
    tags: &TagTable,
    shape: &Shape,
    slot: u32,
    place: u32,
    cycle: u32,
    held: Held,
    change: u32,
) -> u32
    requires order { AreInOrder notes.now }
    requires shape { IsShape shape.now }
    requires tags { tags.now.shape ≡ shape.now }
    requires slot { slot < slot_count shape.now }
    requires place { place < tag_width shape.now }
    requires line { asked.IsLineHeld held }
    ensures { IsTagUntil tags.now notes.now note.now first_quiet shape.now slot place cycle change held result }
{
    match held {
        Held::Vacant => change,
        Held::Clean(line) => {
            let near = distance_one(shape, line, place);
            change.min(clean_tag_until(
                notes,
                note,
                first_quiet,
                tags,
                shape,
                slot,
                line,
                near,
                cycle,
                change,
            ))
        }
        Held::Dirty(line) => {
            let near = distance_one(shape, line, place);
            change
                .min(unaccessed_until(notes, note, first_quiet, tags, line, cycle, change))
                .min(unaccessed_until(notes, note, first_quiet, tags, near, cycle, change))
        }
    }
}

/// The same of a slot's valid bit. Where the slot holds nothing, its tag is 0.
fn valid_until(
    notes: &[Note],
    note: &Note,
    first_quiet: u32,
    tags: &TagTable,
    shape: &Shape,
    slot: u32,
    cycle: u32,
    held: Held,
    change: u32,
) -> u32
    requires order { AreInOrder notes.now }
    requires shape { IsShape shape.now }
    ensures { IsValidUntil tags.now notes.now note.now first_quiet shape.now slot cycle change held result }
{
    match held {
        Held::Vacant => change.min(unaccessed_until(
            notes,
            note,
            first_quiet,
            tags,
            slot / u32::from(shape.ways),
            cycle,
            change,
        )),
        Held::Clean(_) => change.min(quiet_until(first_quiet, cycle)),
        Held::Dirty(line) => change.min(unaccessed_until(
            notes,
            note,
            first_quiet,
            tags,
            line,
            cycle,
            change,
        )),
    }
}

/// The same of a slot's dirty bit.
fn dirty_until(
    notes: &[Note],
    note: &Note,
    first_quiet: u32,
    tags: &TagTable,
    cycle: u32,
    held: Held,
    change: u32,
) -> u32
    requires { AreInOrder notes.now }
    ensures { IsDirtyUntil tags.now notes.now note.now first_quiet cycle change held result }
{
    match held {
        Held::Vacant => change,
        Held::Clean(_) => change.min(quiet_until(first_quiet, cycle)),
        Held::Dirty(line) => change.min(unaccessed_until(
            notes,
            note,
            first_quiet,
            tags,
            line,
            cycle,
            change,
        )),
    }
}

/// Up to which cycle the class of a data bit stays, by the note of the cycle.
fn data_stays(
    notes: &[Note],
    note: &Note,
    first_quiet: u32,
    needs: &NeedTable,
    life: &Life,
    slots: &SlotTable,
    shape: &Shape,
    bit: u32,
    cycle: u32,
) -> u32
    requires order { AreInOrder notes.now }
    requires instruction { asked.retired_by note.now ≤ needs.now.count }
    requires shape { IsShape shape.now }
    requires life { life.now.shape ≡ shape.now }
    requires slots { slots.now.shape ≡ shape.now }
    requires bit { bit < slot_count shape.now * 128 }
    requires cycle { cycle < life.now.cycles }
    requires number { cycle < no_cycle }
    requires line { asked.IsLineHeld (held_in slots.now (bit / 128) cycle) }
    ensures { IsDataUntil needs.now notes.now note.now first_quiet life.now (bit / 128) (bit % 128 / 8) (bit % 8) cycle (next_change slots.now (bit / 128) cycle) (held_in slots.now (bit / 128) cycle) result }
{
    let held = slots.held(bit / 128, cycle);
    let change = slots.next_change(bit / 128, cycle);
    data_until(
        notes,
        note,
        first_quiet,
        needs,
        life,
        shape,
        bit,
        cycle,
        held,
        change,
    )
}

/// The same of a bit of the tags of all line slots, one after another.
fn tag_stays(
    notes: &[Note],
    note: &Note,
    first_quiet: u32,
    tags: &TagTable,
    slots: &SlotTable,
    shape: &Shape,
    bit: u32,
    cycle: u32,
) -> u32
    requires order { AreInOrder notes.now }
    requires shape { IsShape shape.now }
    requires tags { tags.now.shape ≡ shape.now }
    requires slots { slots.now.shape ≡ shape.now }
    requires bit { bit < slot_count shape.now * tag_width shape.now }
    requires number { cycle < no_cycle }
    requires line { asked.IsLineHeld (held_in slots.now (bit / tag_width shape.now) cycle) }
    ensures { IsTagUntil tags.now notes.now note.now first_quiet shape.now (bit / tag_width shape.now) (bit % tag_width shape.now) cycle (next_change slots.now (bit / tag_width shape.now) cycle) (held_in slots.now (bit / tag_width shape.now) cycle) result }
{
    let width = tag_bits(shape);
    let slot = bit / width;
    let held = slots.held(slot, cycle);
    let change = slots.next_change(slot, cycle);
    tag_until(
        notes,
        note,
        first_quiet,
        tags,
        shape,
        slot,
        bit % width,
        cycle,
        held,
        change,
    )
}

/// The same of a line slot's valid bit.
fn valid_stays(
    notes: &[Note],
    note: &Note,
    first_quiet: u32,
    tags: &TagTable,
    slots: &SlotTable,
    shape: &Shape,
    slot: u32,
    cycle: u32,
) -> u32
    requires order { AreInOrder notes.now }
    requires shape { IsShape shape.now }
    requires slot { slot < slot_count slots.now.shape }
    requires number { cycle < no_cycle }
    ensures { IsValidUntil tags.now notes.now note.now first_quiet shape.now slot cycle (next_change slots.now slot cycle) (held_in slots.now slot cycle) result }
{
    let held = slots.held(slot, cycle);
    let change = slots.next_change(slot, cycle);
    valid_until(
        notes,
        note,
        first_quiet,
        tags,
        shape,
        slot,
        cycle,
        held,
        change,
    )
}

/// The same of a line slot's dirty bit.
fn dirty_stays(
    notes: &[Note],
    note: &Note,
    first_quiet: u32,
    tags: &TagTable,
    slots: &SlotTable,
    slot: u32,
    cycle: u32,
) -> u32
    requires order { AreInOrder notes.now }
    requires slot { slot < slot_count slots.now.shape }
    requires number { cycle < no_cycle }
    ensures { IsDirtyUntil tags.now notes.now note.now first_quiet cycle (next_change slots.now slot cycle) (held_in slots.now slot cycle) result }
{
    let held = slots.held(slot, cycle);
    let change = slots.next_change(slot, cycle);
    dirty_until(notes, note, first_quiet, tags, cycle, held, change)
}

/// Up to which cycle the class of the bit at a place surely stays: in no later cycle, where nothing is known at once.
pub(crate) fn stays_until(
    recorded: &Recorded<'_>,
    needs: &NeedTable,
    notes: &[Note],
    first_quiet: u32,
    life: &Life,
    tags: &TagTable,
    slots: &SlotTable,
    place: &Place,
    cycle: u32,
) -> u32
    requires place { IsPlaceIn recorded.now.shape place.now }
    requires cycle { cycle < recorded.now.cycles }
    requires kept { IsSomeAnalysis recorded.now needs.now notes.now first_quiet life.now tags.now slots.now }
    ensures { IsStay recorded.now needs.now notes.now first_quiet life.now tags.now slots.now place.now cycle result }
{
    let note = note_at(notes, cycle);
    let shape = recorded.shape();
    let bit = place.bit;
    match place.structure {
        Structure::Pc => quiet_until(first_quiet, cycle),
        Structure::Npc => NO_CYCLE,
        Structure::Bht => quiet_until(first_quiet, cycle),
        Structure::Btb => quiet_until(first_quiet, cycle),
        Structure::Port => quiet_until(first_quiet, cycle),
        Structure::CData => {
            data_stays(
                notes,
                note,
                first_quiet,
                needs,
                life,
                slots,
                &shape,
                bit,
                cycle,
            )
        }
        Structure::CTag => tag_stays(notes, note, first_quiet, tags, slots, &shape, bit, cycle),
        Structure::CValid => valid_stays(notes, note, first_quiet, tags, slots, &shape, bit, cycle),
        Structure::CDirty => dirty_stays(notes, note, first_quiet, tags, slots, bit, cycle),
        Structure::CLru => quiet_until(first_quiet, cycle),
        _ => 0,
    }
}
