// The classes of the valid, dirty and tag bits of line slots.
ghost use Rattle.std.specs.Prelude.{◌≡◌, ◌<◌, ◌*◌, ◌^◌};
ghost use Rattle.bit_field.specs.Shapes.{IsShape, slots as slot_count, tag_bits as tag_width};
ghost use Rattle.bit_field.specs.declared.places.Structure.TheVariants.{CDirty, CTag, CValid};
ghost use Rattle.ace_rules.specs.Asked as asked;
ghost use Rattle.ace_rules.specs.Lines.{IsLineClass, IsSomeLineMoment};

use crate::later::is_accessed_again;
use crate::note::Note;
use ace_class::{Class, Rule};
use bit_field::{Shape, tag_bits};
use slot_history::{Held, SlotTable};
use tag_dist::{TagTable, distance_one};

/// The class of bits of a slot that only matter where a line is accessed again.
#[tactic(auto, unfolding(crate::specs::Asked::unaccessed))]
fn unaccessed(note: &Note, quiet: bool, tags: &TagTable, line: u32) -> Class
    ensures { result ≡ asked.unaccessed tags.now note.now quiet line }
{
    if quiet && !is_accessed_again(note, tags, line) {
        Class::UnAce(Rule::UnaccessedLine)
    } else {
        Class::Ace
    }
}

/// The class of the valid and the dirty bit of a clean line.
#[tactic(auto, unfolding(crate::specs::Asked::clean_line))]
fn clean_line(quiet: bool) -> Class
    ensures { result ≡ asked.clean_line quiet }
{
    if quiet {
        Class::UnAce(Rule::CleanLine)
    } else {
        Class::Ace
    }
}

/// The class of a slot's valid bit, by what the slot holds. Where it holds nothing, its tag is 0.
#[tactic(auto, unfolding(crate::specs::Asked::valid_class))]
fn valid_class_of(
    note: &Note,
    quiet: bool,
    tags: &TagTable,
    shape: &Shape,
    slot: u32,
    held: Held,
) -> Class
    requires { IsShape shape.now }
    ensures { result ≡ asked.valid_class tags.now note.now quiet shape.now slot held }
{
    match held {
        Held::Vacant => unaccessed(note, quiet, tags, slot / u32::from(shape.ways)),
        Held::Clean(_) => clean_line(quiet),
        Held::Dirty(line) => unaccessed(note, quiet, tags, line),
    }
}

/// The class of a slot's dirty bit, by what the slot holds.
#[tactic(auto, unfolding(crate::specs::Asked::dirty_class))]
fn dirty_class_of(note: &Note, quiet: bool, tags: &TagTable, held: Held) -> Class
    ensures { result ≡ asked.dirty_class tags.now note.now quiet held }
{
    match held {
        Held::Vacant => Class::UnAce(Rule::EmptyPlace),
        Held::Clean(_) => clean_line(quiet),
        Held::Dirty(line) => unaccessed(note, quiet, tags, line),
    }
}

/// Whether the cache looks neither of two lines up in a cycle from this one on, up to and with the next fill into a slot.
fn is_unlooked(tags: &TagTable, shape: &Shape, cycle: u32, slot: u32, line: u32, near: u32) -> bool
    requires shape { IsShape shape.now }
    requires tags { tags.now.shape ≡ shape.now }
    requires slot { slot < slot_count shape.now }
    ensures { result ≡ asked.is_unlooked tags.now cycle slot line near }
{
    let ways = u32::from(shape.ways);
    let set = slot / ways;
    let way = slot % ways;
    !tags.looked_up(set, way, line, cycle) && !tags.looked_up(set, way, near, cycle)
}

/// The class of a bit of a clean line's tag; `near` is the line at distance one in this bit.
#[tactic(auto, unfolding(crate::specs::Asked::clean_tag))]
fn clean_tag(
    note: &Note,
    quiet: bool,
    tags: &TagTable,
    shape: &Shape,
    cycle: u32,
    slot: u32,
    line: u32,
    near: u32,
) -> Class
    requires shape { IsShape shape.now }
    requires tags { tags.now.shape ≡ shape.now }
    requires slot { slot < slot_count shape.now }
    ensures { result ≡ asked.clean_tag tags.now note.now quiet cycle slot line near }
{
    if quiet && !is_accessed_again(note, tags, near) {
        Class::UnAce(Rule::UnaccessedLine)
    } else if is_unlooked(tags, shape, cycle, slot, line, near) {
        Class::UnAce(Rule::CleanTag)
    } else {
        Class::Ace
    }
}

/// The class of a bit of a dirty line's tag; `near` is the line at distance one in this bit.
#[tactic(auto, unfolding(crate::specs::Asked::dirty_tag))]
fn dirty_tag(note: &Note, quiet: bool, tags: &TagTable, line: u32, near: u32) -> Class
    ensures { result ≡ asked.dirty_tag tags.now note.now quiet line near }
{
    if quiet && (!is_accessed_again(note, tags, line) && !is_accessed_again(note, tags, near)) {
        Class::UnAce(Rule::UnaccessedLine)
    } else {
        Class::Ace
    }
}

/// The class of bit `place` of a slot's tag, by what the slot holds.
#[tactic(auto, unfolding(crate::specs::Asked::tag_class))]
fn tag_class_of(
    note: &Note,
    quiet: bool,
    tags: &TagTable,
    shape: &Shape,
    cycle: u32,
    slot: u32,
    place: u32,
    held: Held,
) -> Class
    requires shape { IsShape shape.now }
    requires tags { tags.now.shape ≡ shape.now }
    requires slot { slot < slot_count shape.now }
    requires place { place < tag_width shape.now }
    requires line { asked.IsLineHeld held }
    ensures { result ≡ asked.tag_class tags.now note.now quiet shape.now cycle slot place held }
{
    match held {
        Held::Vacant => Class::UnAce(Rule::EmptyPlace),
        Held::Clean(line) => {
            let near = distance_one(shape, line, place);
            clean_tag(note, quiet, tags, shape, cycle, slot, line, near)
        }
        Held::Dirty(line) => dirty_tag(note, quiet, tags, line, distance_one(shape, line, place)),
    }
}

/// The class of the valid bit of a line slot in a cycle, by what is kept of the cycle and of the run's cache, and by whether the cycle
/// is quiet. It takes no memory.
pub(crate) fn valid_class(
    note: &Note,
    quiet: bool,
    tags: &TagTable,
    slots: &SlotTable,
    shape: &Shape,
    cycle: u32,
    slot: u32,
) -> Class
    requires slot { slot < slot_count shape.now }
    requires some { IsSomeLineMoment note.now quiet shape.now tags.now slots.now cycle }
    ensures { IsLineClass result note.now quiet shape.now tags.now slots.now cycle (record { structure = CValid; bit = slot }) }
{
    valid_class_of(note, quiet, tags, shape, slot, slots.held(slot, cycle))
}

/// The class of the dirty bit of a line slot.
pub(crate) fn dirty_class(
    note: &Note,
    quiet: bool,
    tags: &TagTable,
    slots: &SlotTable,
    shape: &Shape,
    cycle: u32,
    slot: u32,
) -> Class
    requires slot { slot < slot_count shape.now }
    requires some { IsSomeLineMoment note.now quiet shape.now tags.now slots.now cycle }
    ensures { IsLineClass result note.now quiet shape.now tags.now slots.now cycle (record { structure = CDirty; bit = slot }) }
{
    dirty_class_of(note, quiet, tags, slots.held(slot, cycle))
}

/// The class of a bit of the tags of all line slots, one after another.
pub(crate) fn tag_class(
    note: &Note,
    quiet: bool,
    tags: &TagTable,
    slots: &SlotTable,
    shape: &Shape,
    cycle: u32,
    bit: u32,
) -> Class
    requires bit { bit < slot_count shape.now * tag_width shape.now }
    requires some { IsSomeLineMoment note.now quiet shape.now tags.now slots.now cycle }
    ensures { IsLineClass result note.now quiet shape.now tags.now slots.now cycle (record { structure = CTag; bit = bit }) }
{
    let width = tag_bits(shape);
    let slot = bit / width;
    tag_class_of(
        note,
        quiet,
        tags,
        shape,
        cycle,
        slot,
        bit % width,
        slots.held(slot, cycle),
    )
}
