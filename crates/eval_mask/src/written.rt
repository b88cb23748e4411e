// Other values in place of those that the latches write.
ghost use Rattle.std.specs.Prelude.{◌≡◌, ◌↔◌, ◌⊎◌, ◌<◌, ℕ, IfSome, IsTrue, false, true};
ghost use Rattle.std.specs.Int.{bit_at as bit_of_number};
ghost use Rattle.rv_isa.specs.Architecture.{state_of};
ghost use Rattle.need_pass.specs.Tables.{Needs};
ghost use Rattle.eval_mask.specs.Cases.{AgreesWithOwn, IsCase, IsMaskBelow};
ghost use Rattle.eval_mask.specs.Compared.{need_at};
ghost use Rattle.eval_mask.specs.WrittenValues as spec;
ghost use Rattle.eval_mask.specs.WrittenValues.{IsLasting, SameValues};

use crate::cases::Case;
use crate::compare::{Known, same_word};
use crate::completing::{Aftermath, Change, Write, write_held};
use bit_field::bit_at;
use need_pass::NeedTable;
use pipe_latch::{ExMem, IdEx, MemWb};
use rv_isa::Arch;
use rv_table::{Action, Operation, alu, operation_of};

/// The bits of the values that MEM/WB, EX/MEM and ID/EX write which are needed afterwards: none of a value that a later one replaces,
/// and none where the run has ended.
#[derive(Clone, Copy)]
pub struct Lasting {
    pub first: u32,
    pub below: u32,
    pub above: u32,
}

/// The needed bits of register `rd`, none where it is written again.
fn unless_replaced(mask: u32, rd: u8, by: &Write) -> u32
    ensures { result ≡ spec.unless_replaced mask rd by.now }
{
    if by.rd == rd { 0 } else { mask }
}

/// The bits of the values of an aftermath's writes that are needed, by the needs of their registers before instruction `at`.
pub fn lasting_bits(known: &Known, own: &Aftermath) -> Lasting
    ensures { (needs : Needs) (at : ℕ) → known.now.first.mask ≡ need_at needs own.now.first.rd at → known.now.below.mask ≡ need_at needs own.now.below.write.rd at → known.now.above.mask ≡ need_at needs own.now.above.write.rd at → IsLasting needs at own.now result }
{
    if own.end.is_some() {
        return Lasting {
            first: 0,
            below: 0,
            above: 0,
        };
    }
    let first = unless_replaced(known.first.mask, own.first.rd, &own.below.write);
    Lasting {
        first: unless_replaced(first, own.first.rd, &own.above.write),
        below: unless_replaced(known.below.mask, own.below.write.rd, &own.above.write),
        above: known.above.mask,
    }
}

/// Whether other values are the same as those of a case in the bits that are needed.
fn same_values(case: &Case, first: u32, below: u32, above: u32) -> bool
    ensures { IsTrue result ↔ SameValues case.now first below above }
{
    same_word(case.lasting.first, first, case.own.first.value)
        && same_word(case.lasting.below, below, case.own.below.write.value)
        && same_word(case.lasting.above, above, case.own.above.write.value)
}

/// What ID/EX writes with these operands, where it does nothing else.
fn plain_value(d: &IdEx, a: u32, held: u32) -> Option<u32>
    ensures { result ≡ spec.plain_value d.now a held }
{
    match operation_of(d.op) {
        Operation::AluImmediate(kind) => Some(alu(kind, a, d.imm)),
        Operation::Alu(kind) => Some(alu(kind, a, held)),
        _ => None,
    }
}

fn is_same_register(a: u8, b: u8) -> bool
    ensures { IsTrue result ↔ (a ≡ b) }
{
    a == b
}

/// Whether ID/EX is completed and takes the value of register `rd`.
fn is_taken(case: &Case, d: &IdEx, rd: u8) -> bool
    ensures { result ≡ spec.is_taken case.now d.now rd }
{
    case.reached && (rd != 0 && (d.rs1 == rd || d.rs2 == rd))
}

/// An operand once register `rd` has another value.
fn operand_given(rs: u8, rd: u8, value: u32, held: u32) -> u32
    ensures { result ≡ spec.operand_given rs rd value held }
{
    if rs == rd { value } else { held }
}

/// What ID/EX writes once register `rd`, whose value it takes, has another one.
fn value_given(case: &Case, d: &IdEx, rd: u8, value: u32) -> Option<u32>
    ensures { result ≡ spec.plain_value d.now (spec.operand_given d.now.rs1 rd value case.now.a) (spec.operand_given d.now.rs2 rd value case.now.held) }
{
    let a = operand_given(d.rs1, rd, value, case.a);
    let held = operand_given(d.rs2, rd, value, case.held);
    plain_value(d, a, held)
}

/// Whether the outcome agrees where EX/MEM writes another value, if that is known at once.
fn is_below_alike(
    w: &MemWb,
    m: &ExMem,
    d: &IdEx,
    arch: &Arch<'_>,
    needs: &NeedTable,
    case: &Case,
    value: u32,
) -> Option<bool>
    requires case { IsCase needs.now arch.now w.now m.now d.now case.now }
    ensures { IfSome result (λ alike. IsTrue alike ↔ AgreesWithOwn needs.now arch.now case.now (spec.left_below arch.now.image w.now d.now (state_of arch.now).memory case.now value)) }
{
    let rd = case.own.below.write.rd;
    let first = case.own.first.value;
    if !is_taken(case, d, rd) {
        return Some(same_values(case, first, value, case.own.above.write.value));
    }
    match value_given(case, d, rd, value) {
        Some(above) => Some(same_values(case, first, value, above)),
        None => None,
    }
}

/// Whether the outcome agrees where MEM/WB has another value, `other`, in the same register, if that is known at once.
fn is_first_alike(
    w: &MemWb,
    other: &MemWb,
    m: &ExMem,
    d: &IdEx,
    arch: &Arch<'_>,
    needs: &NeedTable,
    case: &Case,
) -> Option<bool>
    requires case { IsCase needs.now arch.now w.now m.now d.now case.now }
    requires register { other.now.rd ≡ w.now.rd }
    ensures { IfSome result (λ alike. IsTrue alike ↔ AgreesWithOwn needs.now arch.now case.now (spec.left_first arch.now.image other.now d.now (state_of arch.now).memory case.now)) }
{
    let rd = write_held(w).rd;
    let first = write_held(other).value;
    let below = case.own.below.write;
    let above = case.own.above.write.value;
    if is_same_register(rd, below.rd) {
        return Some(same_values(case, first, below.value, above));
    }
    if !is_taken(case, d, rd) {
        return Some(same_values(case, first, below.value, above));
    }
    match value_given(case, d, rd, first) {
        Some(above) => Some(same_values(case, first, below.value, above)),
        None => None,
    }
}

/// Whether a change is another one but for the value that it writes.
fn is_other_value(below: &Change, own: &Change) -> bool
    ensures { IsTrue result → below.now ≡ spec.with_value own.now below.now.write.value }
{
    below.write.rd == own.write.rd
        && (below.store.is_none() && own.store.is_none())
        && (below.put == own.put && below.end == own.end)
}

/// Whether the outcome agrees where EX/MEM changes `below`, if that is known at once: where it differs in a value alone, and no read of the
/// cycle counter is completed.
pub fn known_below(
    w: &MemWb,
    m: &ExMem,
    d: &IdEx,
    arch: &Arch<'_>,
    needs: &NeedTable,
    case: &Case,
    below: &Change,
) -> Option<bool>
    requires case { IsCase needs.now arch.now w.now m.now d.now case.now }
    ensures unread { IfSome result (λ alike. case.now.reads_clock ≡ false) }
    ensures value { IfSome result (λ alike. below.now ≡ spec.with_value case.now.own.below below.now.write.value) }
    ensures alike { IfSome result (λ alike. IsTrue alike ↔ AgreesWithOwn needs.now arch.now case.now (spec.left_below arch.now.image w.now d.now (state_of arch.now).memory case.now below.now.write.value)) }
{
    if case.reads_clock || !is_other_value(below, &case.own.below) {
        return None;
    }
    is_below_alike(w, m, d, arch, needs, case, below.write.value)
}

/// Whether the outcome agrees where MEM/WB is `other`, if that is known at once: where it differs in its value alone, and no read of the
/// cycle counter is completed.
pub fn known_first(
    w: &MemWb,
    other: &MemWb,
    m: &ExMem,
    d: &IdEx,
    arch: &Arch<'_>,
    needs: &NeedTable,
    case: &Case,
) -> Option<bool>
    requires case { IsCase needs.now arch.now w.now m.now d.now case.now }
    ensures unread { IfSome result (λ alike. case.now.reads_clock ≡ false) }
    ensures alike { IfSome result (λ alike. IsTrue alike ↔ AgreesWithOwn needs.now arch.now case.now (spec.left_first arch.now.image other.now d.now (state_of arch.now).memory case.now)) }
{
    if case.reads_clock || !is_same_register(write_held(other).rd, write_held(w).rd) {
        return None;
    }
    is_first_alike(w, other, m, d, arch, needs, case)
}

/// Whether ID/EX doesn't take MEM/WB's value: EX/MEM writes its register too, or it is no operand's.
pub fn is_first_free(case: &Case, w: &MemWb, d: &IdEx) -> bool
    ensures { IsTrue result → (w.now.rd ≡ case.now.own.below.write.rd) ⊎ (spec.is_taken case.now d.now w.now.rd ≡ false) }
{
    let rd = write_held(w).rd;
    is_same_register(rd, case.own.below.write.rd) || !is_taken(case, d, rd)
}

/// Whether EX/MEM writes a result, and ID/EX doesn't take it.
pub fn is_result_free(case: &Case, d: &IdEx) -> bool
    ensures writes { IsTrue result → spec.is_write case.now.executed ≡ true }
    ensures free { IsTrue result → spec.is_taken case.now d.now case.now.own.below.write.rd ≡ false }
{
    is_write(&case.executed) && !is_taken(case, d, case.own.below.write.rd)
}

/// Whether EX/MEM writes a result whose bit `k` is needed afterwards, and no read of the cycle counter is completed.
pub fn is_needed_result(case: &Case, k: u32) -> bool
    requires { k < 32 }
    ensures writes { IsTrue result → spec.is_write case.now.executed ≡ true }
    ensures unread { IsTrue result → case.now.reads_clock ≡ false }
    ensures needed { IsTrue result → bit_of_number case.now.lasting.below k ≡ 1 }
{
    is_write(&case.executed) && (!case.reads_clock && bit_at(case.lasting.below, k))
}

/// Whether an action writes a value into a register, and does nothing else.
fn is_write(action: &Action) -> bool
    ensures { result ≡ spec.is_write action.now }
{
    matches!(*action, Action::Writes { .. })
}

/// The bits that aren't needed, and none where a read of the cycle counter is completed.
pub fn unneeded(reads_clock: bool, needed: u32) -> u32
    ensures clock { reads_clock ≡ true → result ≡ 0 }
    ensures bits { reads_clock ≡ false → IsMaskBelow 32 (λ i. bit_of_number needed i ≡ 0) result }
{
    if reads_clock { 0 } else { needed ^ u32::MAX }
}
