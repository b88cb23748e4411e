// The classes of the bits of the instruction buffer.
ghost use Rattle.std.specs.Prelude.{◌≡◌, ◌<◌, ◌-◌, ◌^◌};
ghost use Rattle.bit_field.specs.declared.places.Structure.TheVariants.{Ib};
ghost use Rattle.bit_field.specs.declared.shapes.TheConstants.{IB_BITS};
ghost use Rattle.inst_buf.specs.declared.buffer.TheConstants.{SLOTS};
ghost use Rattle.ace_rules.specs.Notes.{IsFetchedClass};
ghost use Rattle.ace_rules.specs.FetchedTests as asked;

use crate::first_rule::{RuleTests, first_rule, no_rule};
use crate::next::{becomes_next, is_next};
use crate::note::Note;
use ace_class::Class;
use bit_field::{IB_BITS, bit_at};
use inst_buf::{SLOT_BITS, SLOTS, Slot, SlotField};

/// The number on the path of the entry in a slot, from 0: ID/EX comes first where it is occupied.
#[tactic(auto, unfolding(crate::specs::FetchedTests::number_of_slot))]
pub(crate) fn number_of_slot(note: &Note, slot: u32) -> u32
    requires { slot < 2 ^ 32 - 1 }
    ensures { result ≡ asked.number_of_slot note.now slot }
{
    if note.decoded { slot + 1 } else { slot }
}

/// Whether a slot holds an entry. Slots are filled in order.
#[tactic(auto, unfolding(crate::specs::FetchedTests::is_waiting))]
pub(crate) fn is_waiting(note: &Note, slot: u32) -> bool
    ensures { result ≡ asked.is_waiting note.now slot }
{
    slot < u32::from(note.waiting)
}

/// Whether a slot holds an entry on path.
#[tactic(auto, unfolding(crate::specs::FetchedTests::is_on_path))]
pub(crate) fn is_on_path(note: &Note, slot: u32) -> bool
    requires { slot < SLOTS }
    ensures { result ≡ asked.is_on_path note.now slot }
{
    is_waiting(note, slot) && number_of_slot(note, slot) < u32::from(note.on_path)
}

/// Whether a slot holds an entry on a wrong path.
#[tactic(auto, unfolding(crate::specs::FetchedTests::is_off_path))]
pub(crate) fn is_off_path(note: &Note, slot: u32) -> bool
    requires { slot < SLOTS }
    ensures { result ≡ asked.is_off_path note.now slot }
{
    is_waiting(note, slot) && u32::from(note.on_path) <= number_of_slot(note, slot)
}

/// Whether a bit of a field of an entry on a wrong path is one that doesn't matter: all but a bit of the address that would make the
/// entry the next instruction.
#[tactic(auto, unfolding(crate::specs::FetchedTests::is_wrong))]
fn is_wrong(note: &Note, slot: u32, field: SlotField, place: u32) -> bool
    requires slot { slot < SLOTS }
    requires place { place < 32 }
    ensures { result ≡ asked.is_wrong note.now slot field place }
{
    match field {
        SlotField::Pc => !(number_of_slot(note, slot) == u32::from(note.on_path)
            && becomes_next(note, place)),
        _ => true,
    }
}

/// Whether all entries are on path and the next instruction is at address 0, which is that of a free slot.
#[tactic(auto, unfolding(crate::specs::FetchedTests::is_zero_next))]
pub(crate) fn is_zero_next(note: &Note) -> bool
    ensures { result ≡ asked.is_zero_next note.now }
{
    number_of_slot(note, u32::from(note.waiting)) == u32::from(note.on_path) && is_next(note, 0)
}

/// Whether the slot holds an entry on path and the field says where, or it is free and the field is its valid bit, which wouldn't make
/// it the next instruction.
#[tactic(auto, unfolding(crate::specs::FetchedTests::is_place))]
fn is_place(note: &Note, slot: u32, field: SlotField) -> bool
    requires { slot < SLOTS }
    ensures { result ≡ asked.is_place note.now slot field }
{
    match field {
        SlotField::Valid => is_on_path(note, slot)
            || (!is_waiting(note, slot) && !is_zero_next(note)),
        SlotField::Pc => is_on_path(note, slot),
        _ => false,
    }
}

/// Whether a bit of the word of an instruction is logically masked.
#[tactic(auto, unfolding(crate::specs::FetchedTests::is_masked_in))]
fn is_masked_in(words: &[u32], i: usize, bit: u32) -> bool
    requires { bit < 32 }
    ensures { result ≡ asked.is_masked_in words.now i bit }
{
    match words.get(i) {
        Some(mask) => bit_at(*mask, bit),
        None => false,
    }
}

/// Whether a bit of a field of the entry in a slot is logically masked.
#[tactic(auto, unfolding(crate::specs::FetchedTests::is_masked))]
fn is_masked(note: &Note, words: &[u32], slot: u32, field: SlotField, place: u32) -> bool
    requires slot { slot < SLOTS }
    requires place { place < 32 }
    ensures { result ≡ asked.is_masked note.now words.now slot field place }
{
    match field {
        SlotField::Word => {
            let i = note.executed as usize + number_of_slot(note, slot) as usize;
            is_on_path(note, slot) && is_masked_in(words, i, place)
        }
        _ => false,
    }
}

/// The rules that hold of a bit of a slot, by the place in its field.
#[tactic(auto, unfolding(crate::specs::FetchedTests::fetched_tests))]
fn fetched_tests(
    note: &Note,
    words: &[u32],
    quiet: bool,
    slot: u32,
    field: SlotField,
    place: u32,
) -> RuleTests
    requires slot { slot < SLOTS }
    requires place { place < 32 }
    ensures { result ≡ asked.fetched_tests note.now words.now quiet slot field place }
{
    RuleTests {
        empty_place: !is_waiting(note, slot) && !matches!(field, SlotField::Valid),
        wrong_path: quiet && is_off_path(note, slot) && is_wrong(note, slot, field, place),
        on_path: quiet && is_place(note, slot, field),
        masked: quiet && is_masked(note, words, slot, field, place),
        ..no_rule()
    }
}

/// The class of a bit of the instruction buffer. `words` are the masks of the words of the run's instructions.
pub(crate) fn fetched_class(note: &Note, words: &[u32], quiet: bool, bit: u32) -> Class
    requires { bit < IB_BITS }
    ensures { IsFetchedClass result note.now words.now quiet Ib bit }
{
    let (field, place) = Slot::field_at(bit % SLOT_BITS);
    first_rule(fetched_tests(note, words, quiet, bit / SLOT_BITS, field, place))
}
