// The classes of the bits of the latches MEM/WB, EX/MEM and ID/EX.
ghost use Rattle.std.specs.Prelude.{◌≡◌, ◌<◌, ◌==◌};
ghost use Rattle.std.specs.Int.{bit_at};
ghost use Rattle.bit_field.specs.declared.places.Structure.TheVariants as structure;
ghost use Rattle.bit_field.specs.declared.shapes.TheConstants.{EX_MEM_BITS, ID_EX_BITS, MEM_WB_BITS};
ghost use Rattle.ace_rules.specs.Notes.{IsNotedClass};
ghost use Rattle.ace_rules.specs.PipelineTests as asked;

use crate::first_rule::{RuleTests, first_rule, no_rule};
use crate::next::becomes_next;
use crate::note::Note;
use ace_class::Class;
use bit_field::{EX_MEM_BITS, ID_EX_BITS, MEM_WB_BITS};
use pipe_latch::{ExMem, ExMemField, IdEx, IdExField, MemWb, MemWbField};

/// Whether a bit of a mask is set.
fn is_set(mask: u128, bit: u32) -> bool
    requires { bit < 128 }
    ensures { result ≡ (bit_at mask bit == 1) }
{
    (mask >> bit) & 1 == 1
}

// ---- MEM/WB

/// The rules that hold of a bit of MEM/WB, by its field.
#[tactic(auto, unfolding(crate::specs::PipelineTests::result_tests))]
fn result_tests(note: &Note, quiet: bool, bit: u32, field: MemWbField) -> RuleTests
    requires { bit < MEM_WB_BITS }
    ensures { result ≡ asked.result_tests note.now quiet bit field }
{
    RuleTests {
        empty_place: note.result_rd == 0 && matches!(field, MemWbField::Value),
        masked: quiet && is_set(u128::from(note.masks.memwb), bit),
        ..no_rule()
    }
}

/// The class of a bit of MEM/WB.
pub(crate) fn result_class(note: &Note, quiet: bool, bit: u32) -> Class
    requires { bit < MEM_WB_BITS }
    ensures { IsNotedClass result note.now quiet structure.MemWb bit }
{
    let (field, _) = MemWb::field_at(bit);
    first_rule(result_tests(note, quiet, bit, field))
}

// ---- EX/MEM

/// The rules that hold of a bit of EX/MEM, by its field.
#[tactic(auto, unfolding(crate::specs::PipelineTests::executed_tests))]
fn executed_tests(note: &Note, quiet: bool, bit: u32, field: ExMemField) -> RuleTests
    requires { bit < EX_MEM_BITS }
    ensures { result ≡ asked.executed_tests note.now quiet bit field }
{
    RuleTests {
        empty_place: !note.occupied && !matches!(field, ExMemField::Valid),
        masked: quiet && is_set(note.masks.exmem, bit),
        no_trap_cause: note.occupied && !note.traps && matches!(field, ExMemField::Cause),
        ..no_rule()
    }
}

/// The class of a bit of EX/MEM.
pub(crate) fn executed_class(note: &Note, quiet: bool, bit: u32) -> Class
    requires { bit < EX_MEM_BITS }
    ensures { IsNotedClass result note.now quiet structure.ExMem bit }
{
    let (field, _) = ExMem::field_at(bit);
    first_rule(executed_tests(note, quiet, bit, field))
}

// ---- ID/EX

/// Whether a bit of a field of an empty ID/EX isn't used.
fn is_unused(field: IdExField) -> bool
    ensures { result ≡ asked.is_unused_decoded field }
{
    !matches!(field, IdExField::Valid | IdExField::Count)
}

/// Whether a bit of a field of an ID/EX on a wrong path is one that doesn't matter.
#[tactic(auto, unfolding(crate::specs::PipelineTests::is_wrong_decoded))]
fn is_wrong(note: &Note, field: IdExField, place: u32) -> bool
    requires { place < 32 }
    ensures { result ≡ asked.is_wrong_decoded note.now field place }
{
    match field {
        IdExField::Pc => !becomes_next(note, place),
        IdExField::Count => false,
        _ => true,
    }
}

/// Whether ID/EX is on path and the field says where, or it is empty and the field is its valid bit, which wouldn't make it the next
/// instruction.
#[tactic(auto, unfolding(crate::specs::PipelineTests::is_place_of_decoded))]
fn is_place(note: &Note, field: IdExField) -> bool
    ensures { result ≡ asked.is_place_of_decoded note.now field }
{
    match field {
        IdExField::Valid => note.decoded_on_path || (!note.decoded && !note.decoded_next),
        IdExField::Pc => note.decoded_on_path,
        _ => false,
    }
}

/// Whether a bit of ID/EX is logically masked.
#[tactic(auto, unfolding(crate::specs::PipelineTests::is_masked_decoded))]
fn is_masked(note: &Note, bit: u32) -> bool
    requires { bit < ID_EX_BITS }
    ensures { result ≡ asked.is_masked_decoded note.now bit }
{
    if bit < 128 {
        is_set(note.masks.idex_low, bit)
    } else {
        is_set(u128::from(note.masks.idex_high), bit - 128)
    }
}

/// The rules that hold of a bit of ID/EX, by the place in its field.
#[tactic(auto, unfolding(crate::specs::PipelineTests::decoded_tests))]
fn decoded_tests(note: &Note, quiet: bool, bit: u32, field: IdExField, place: u32) -> RuleTests
    requires bit { bit < ID_EX_BITS }
    requires place { place < 32 }
    ensures { result ≡ asked.decoded_tests note.now quiet bit field place }
{
    RuleTests {
        timing: quiet && matches!(field, IdExField::Count),
        empty_place: !note.decoded && is_unused(field),
        wrong_path: quiet && note.decoded && !note.decoded_on_path && is_wrong(note, field, place),
        on_path: quiet && is_place(note, field),
        masked: quiet && is_masked(note, bit),
        ..no_rule()
    }
}

/// The class of a bit of ID/EX.
pub(crate) fn decoded_class(note: &Note, quiet: bool, bit: u32) -> Class
    requires { bit < ID_EX_BITS }
    ensures { IsNotedClass result note.now quiet structure.IdEx bit }
{
    let (field, place) = IdEx::field_at(bit);
    first_rule(decoded_tests(note, quiet, bit, field, place))
}
