// The masks of ID/EX.
ghost use Rattle.std.specs.Prelude.{◌≡◌, ◌↔◌, ◌+◌, ◌-◌, ◌*◌, ◌%◌, ◌^◌, ◌<◌, ◌≤◌, ℕ, IsTrue, None, bit_or, false, true, if◌then◌else◌};
ghost use Rattle.pipe_latch.specs.DecodedBits as bits;
ghost use Rattle.eval_mask.specs.Cases.{IsCase, IsMaskBelow};
ghost use Rattle.eval_mask.specs.LatchMasks.{HasBits, IsDecodedMasked};
ghost use Rattle.eval_mask.specs.OtherDoings.{IsFacts, first_bit};
ghost use Rattle.eval_mask.specs.Unread.{DoesTheSame, is_a_unread, is_b_unread};

use crate::cases::{Case, is_masked};
use crate::codes::code_bit;
use crate::completing::doing_of;
use crate::inputs::{Facts, Input, facts_of, first_bit, input_bit, number_bit};
use crate::needed::is_doing_masked;
use crate::unread::{is_a_unread, is_b_unread, is_immediate_unread, writes_register};
use crate::values::{alu_first, alu_second, immediate_first, immediate_second};
use crate::ways::{branch_first, branch_second};
use bit_field::Struck;
use need_pass::NeedTable;
use pipe_latch::{ExMem, IdEx, MemWb};
use rv_isa::Arch;
use rv_table::{Operation, is_clocked};

/// Whether bit `k` of ID/EX, one of a field whose bits can be masked, is masked, where ID/EX holds the next instruction. MEM/WB and EX/MEM
/// stay as they are, so what ID/EX does decides alone.
#[tactic(auto, using(crate::proofs::OwnChange::own_below))]
fn decoded_bit(
    w: &MemWb,
    m: &ExMem,
    d: &IdEx,
    arch: &Arch<'_>,
    needs: &NeedTable,
    case: &Case,
    facts: Facts,
    k: u32,
) -> bool
    requires within { case.now.first_after ≤ needs.now.count }
    requires case { IsCase needs.now arch.now w.now m.now d.now case.now }
    requires on_path { case.now.on_path ≡ true }
    requires facts { IsFacts needs.now arch.now d.now case.now facts }
    requires from { 31 ≤ k }
    requires to { k < 148 }
    ensures { IsTrue result ↔ IsDecodedMasked needs.now arch.now (record { w = w.now; m = m.now; d = d.now }) case.now.oldest.value case.now.npc case.now.issued k }
{
    let mut flipped = *d;
    flipped.flip(k);
    if !case.reached {
        return is_masked(&case.own.below, w, m, &flipped, arch, needs, case);
    }
    if is_clocked(&flipped.instruction()) {
        return false;
    }
    let doing = doing_of(
        w,
        &flipped,
        &case.own.below.write,
        case.issued,
        arch.image(),
    );
    is_doing_masked(arch, needs, case, facts, &doing)
}

/// Whether ID/EX is completed and reads no cycle counter.
fn is_read(case: &Case) -> bool
    ensures reached { IsTrue result → case.now.reached ≡ true }
    ensures unread { IsTrue result → case.now.reads_clock ≡ false }
{
    case.reached && !case.reads_clock
}

/// Whether no other register can be written in place of the one that ID/EX writes.
fn is_register_needed(case: &Case, facts: Facts) -> bool
    ensures needed { IsTrue result → IsTrue facts.needed }
    ensures alone { IsTrue result → case.now.own.above.store ≡ None }
{
    facts.needed && case.own.above.store.is_none()
}

/// Whether bit `k` of ID/EX, one of the number of the register that it writes, is masked, where it is completed.
fn register_bit(
    w: &MemWb,
    m: &ExMem,
    d: &IdEx,
    arch: &Arch<'_>,
    needs: &NeedTable,
    case: &Case,
    facts: Facts,
    k: u32,
) -> bool
    requires within { case.now.first_after ≤ needs.now.count }
    requires case { IsCase needs.now arch.now w.now m.now d.now case.now }
    requires on_path { case.now.on_path ≡ true }
    requires reached { case.now.reached ≡ true }
    requires unread { case.now.reads_clock ≡ false }
    requires facts { IsFacts needs.now arch.now d.now case.now facts }
    requires from { 37 ≤ k }
    requires to { k < 42 }
    ensures { IsTrue result ↔ IsDecodedMasked needs.now arch.now (record { w = w.now; m = m.now; d = d.now }) case.now.oldest.value case.now.npc case.now.issued k }
{
    if !writes_register(facts.operation) {
        return true;
    }
    if is_register_needed(case, facts) {
        return false;
    }
    decoded_bit(w, m, d, arch, needs, case, facts, k)
}

/// Whether bit `k` of ID/EX, one of its code or its registers, is masked.
fn front_bit(
    w: &MemWb,
    m: &ExMem,
    d: &IdEx,
    arch: &Arch<'_>,
    needs: &NeedTable,
    case: &Case,
    facts: Facts,
    k: u32,
) -> bool
    requires within { case.now.first_after ≤ needs.now.count }
    requires case { IsCase needs.now arch.now w.now m.now d.now case.now }
    requires on_path { case.now.on_path ≡ true }
    requires facts { IsFacts needs.now arch.now d.now case.now facts }
    requires from { 31 ≤ k }
    requires to { k < 52 }
    ensures { IsTrue result ↔ IsDecodedMasked needs.now arch.now (record { w = w.now; m = m.now; d = d.now }) case.now.oldest.value case.now.npc case.now.issued k }
{
    if !is_read(case) {
        return decoded_bit(w, m, d, arch, needs, case, facts, k);
    }
    if k < 37 {
        return code_bit(w, m, d, arch, needs, case, facts, k - 31);
    }
    if k < 42 {
        return register_bit(w, m, d, arch, needs, case, facts, k);
    }
    number_bit(w, m, d, arch, needs, case, facts, k)
}

/// Whether bit `k` of one of ID/EX's inputs is masked.
fn field_bit(
    w: &MemWb,
    m: &ExMem,
    d: &IdEx,
    arch: &Arch<'_>,
    needs: &NeedTable,
    case: &Case,
    facts: Facts,
    input: Input,
    k: u32,
) -> bool
    requires within { case.now.first_after ≤ needs.now.count }
    requires case { IsCase needs.now arch.now w.now m.now d.now case.now }
    requires on_path { case.now.on_path ≡ true }
    requires facts { IsFacts needs.now arch.now d.now case.now facts }
    requires bit { k < 32 }
    ensures { IsTrue result ↔ IsDecodedMasked needs.now arch.now (record { w = w.now; m = m.now; d = d.now }) case.now.oldest.value case.now.npc case.now.issued (first_bit input + k) }
{
    if is_read(case) {
        return input_bit(w, m, d, arch, needs, case, facts, input, k);
    }
    decoded_bit(w, m, d, arch, needs, case, facts, first_bit(input) + k)
}

/// The masked bits of ID/EX below 52, those of its code and its registers.
fn front_bits(
    w: &MemWb,
    m: &ExMem,
    d: &IdEx,
    arch: &Arch<'_>,
    needs: &NeedTable,
    case: &Case,
    facts: Facts,
) -> u128
    requires within { case.now.first_after ≤ needs.now.count }
    requires case { IsCase needs.now arch.now w.now m.now d.now case.now }
    requires on_path { case.now.on_path ≡ true }
    requires facts { IsFacts needs.now arch.now d.now case.now facts }
    ensures { IsMaskBelow 52 (IsDecodedMasked needs.now arch.now (record { w = w.now; m = m.now; d = d.now }) case.now.oldest.value case.now.npc case.now.issued) result }
{
    let mut mask: u128 = 0;
    for k in 31..52u32 {
        if front_bit(w, m, d, arch, needs, case, facts, k) {
            mask |= 1 << k;
        }
    }
    mask
}

/// The mask of a field that changes nothing: all its bits, or none where a read of the cycle counter is completed.
pub fn whole_field(reads_clock: bool) -> u32
    ensures { result ≡ (if reads_clock then 0 else 2 ^ 32 - 1) }
{
    if reads_clock { 0 } else { u32::MAX }
}

/// The masked bits of the first operand of a completed ID/EX, which reads it.
fn read_a(
    w: &MemWb,
    m: &ExMem,
    d: &IdEx,
    arch: &Arch<'_>,
    needs: &NeedTable,
    case: &Case,
    facts: Facts,
) -> u32
    requires within { case.now.first_after ≤ needs.now.count }
    requires case { IsCase needs.now arch.now w.now m.now d.now case.now }
    requires on_path { case.now.on_path ≡ true }
    requires reached { case.now.reached ≡ true }
    requires unread { case.now.reads_clock ≡ false }
    requires facts { IsFacts needs.now arch.now d.now case.now facts }
    requires read { is_a_unread w.now d.now case.now.own.below.write ≡ false }
    ensures { IsMaskBelow 32 (λ i. IsDecodedMasked needs.now arch.now (record { w = w.now; m = m.now; d = d.now }) case.now.oldest.value case.now.npc case.now.issued (52 + i)) result }
{
    match facts.operation {
        Operation::Alu(kind) => alu_first(w, m, d, arch, needs, case, kind),
        Operation::AluImmediate(kind) => immediate_first(w, m, d, arch, needs, case, kind),
        Operation::Branch(kind) => branch_first(w, m, d, arch, needs, case, facts, kind),
        _ => field_bits(w, m, d, arch, needs, case, facts, Input::A, false),
    }
}

/// Those of the second.
fn read_b(
    w: &MemWb,
    m: &ExMem,
    d: &IdEx,
    arch: &Arch<'_>,
    needs: &NeedTable,
    case: &Case,
    facts: Facts,
) -> u32
    requires within { case.now.first_after ≤ needs.now.count }
    requires case { IsCase needs.now arch.now w.now m.now d.now case.now }
    requires on_path { case.now.on_path ≡ true }
    requires reached { case.now.reached ≡ true }
    requires unread { case.now.reads_clock ≡ false }
    requires facts { IsFacts needs.now arch.now d.now case.now facts }
    requires read { is_b_unread w.now d.now case.now.own.below.write ≡ false }
    ensures { IsMaskBelow 32 (λ i. IsDecodedMasked needs.now arch.now (record { w = w.now; m = m.now; d = d.now }) case.now.oldest.value case.now.npc case.now.issued (84 + i)) result }
{
    match facts.operation {
        Operation::Alu(kind) => alu_second(w, m, d, arch, needs, case, kind),
        Operation::Branch(kind) => branch_second(w, m, d, arch, needs, case, facts, kind),
        _ => field_bits(w, m, d, arch, needs, case, facts, Input::B, false),
    }
}

/// Those of the immediate.
fn read_immediate(
    w: &MemWb,
    m: &ExMem,
    d: &IdEx,
    arch: &Arch<'_>,
    needs: &NeedTable,
    case: &Case,
    facts: Facts,
) -> u32
    requires within { case.now.first_after ≤ needs.now.count }
    requires case { IsCase needs.now arch.now w.now m.now d.now case.now }
    requires on_path { case.now.on_path ≡ true }
    requires reached { case.now.reached ≡ true }
    requires unread { case.now.reads_clock ≡ false }
    requires facts { IsFacts needs.now arch.now d.now case.now facts }
    ensures { IsMaskBelow 32 (λ i. IsDecodedMasked needs.now arch.now (record { w = w.now; m = m.now; d = d.now }) case.now.oldest.value case.now.npc case.now.issued (116 + i)) result }
{
    match facts.operation {
        Operation::AluImmediate(kind) => immediate_second(w, m, d, arch, needs, case, kind),
        _ => field_bits(w, m, d, arch, needs, case, facts, Input::Immediate, false),
    }
}

/// The masked bits of one of ID/EX's inputs. One that isn't read is masked whole.
#[tactic(auto, using(crate::proofs::UnreadMasks::unread_field))]
fn field_bits(
    w: &MemWb,
    m: &ExMem,
    d: &IdEx,
    arch: &Arch<'_>,
    needs: &NeedTable,
    case: &Case,
    facts: Facts,
    input: Input,
    is_unread: bool,
) -> u32
    requires within { case.now.first_after ≤ needs.now.count }
    requires case { IsCase needs.now arch.now w.now m.now d.now case.now }
    requires on_path { case.now.on_path ≡ true }
    requires facts { IsFacts needs.now arch.now d.now case.now facts }
    requires unread { IsTrue is_unread → (i : ℕ) → i < 32 → DoesTheSame w.now case.now.own.below.write d.now (bits.flipped d.now (first_bit input + i)) }
    ensures { IsMaskBelow 32 (λ i. IsDecodedMasked needs.now arch.now (record { w = w.now; m = m.now; d = d.now }) case.now.oldest.value case.now.npc case.now.issued (first_bit input + i)) result }
{
    if is_unread {
        return whole_field(case.reads_clock);
    }
    let mut mask: u32 = 0;
    for k in 0..32u32 {
        if field_bit(w, m, d, arch, needs, case, facts, input, k) {
            mask |= 1 << k;
        }
    }
    mask
}

/// The masked bits of the first operand.
fn a_bits(
    w: &MemWb,
    m: &ExMem,
    d: &IdEx,
    arch: &Arch<'_>,
    needs: &NeedTable,
    case: &Case,
    facts: Facts,
) -> u32
    requires within { case.now.first_after ≤ needs.now.count }
    requires case { IsCase needs.now arch.now w.now m.now d.now case.now }
    requires on_path { case.now.on_path ≡ true }
    requires facts { IsFacts needs.now arch.now d.now case.now facts }
    ensures { IsMaskBelow 32 (λ i. IsDecodedMasked needs.now arch.now (record { w = w.now; m = m.now; d = d.now }) case.now.oldest.value case.now.npc case.now.issued (52 + i)) result }
{
    let is_unread = is_a_unread(w, d, &case.own.below.write);
    if !is_unread && is_read(case) {
        return read_a(w, m, d, arch, needs, case, facts);
    }
    field_bits(w, m, d, arch, needs, case, facts, Input::A, is_unread)
}

/// Those of the second.
fn b_bits(
    w: &MemWb,
    m: &ExMem,
    d: &IdEx,
    arch: &Arch<'_>,
    needs: &NeedTable,
    case: &Case,
    facts: Facts,
) -> u32
    requires within { case.now.first_after ≤ needs.now.count }
    requires case { IsCase needs.now arch.now w.now m.now d.now case.now }
    requires on_path { case.now.on_path ≡ true }
    requires facts { IsFacts needs.now arch.now d.now case.now facts }
    ensures { IsMaskBelow 32 (λ i. IsDecodedMasked needs.now arch.now (record { w = w.now; m = m.now; d = d.now }) case.now.oldest.value case.now.npc case.now.issued (84 + i)) result }
{
    let is_unread = is_b_unread(w, d, &case.own.below.write);
    if !is_unread && is_read(case) {
        return read_b(w, m, d, arch, needs, case, facts);
    }
    field_bits(w, m, d, arch, needs, case, facts, Input::B, is_unread)
}

/// Those of the immediate.
fn immediate_bits(
    w: &MemWb,
    m: &ExMem,
    d: &IdEx,
    arch: &Arch<'_>,
    needs: &NeedTable,
    case: &Case,
    facts: Facts,
) -> u32
    requires within { case.now.first_after ≤ needs.now.count }
    requires case { IsCase needs.now arch.now w.now m.now d.now case.now }
    requires on_path { case.now.on_path ≡ true }
    requires facts { IsFacts needs.now arch.now d.now case.now facts }
    ensures { IsMaskBelow 32 (λ i. IsDecodedMasked needs.now arch.now (record { w = w.now; m = m.now; d = d.now }) case.now.oldest.value case.now.npc case.now.issued (116 + i)) result }
{
    let is_unread = is_immediate_unread(d);
    if !is_unread && is_read(case) {
        return read_immediate(w, m, d, arch, needs, case, facts);
    }
    field_bits(
        w,
        m,
        d,
        arch,
        needs,
        case,
        facts,
        Input::Immediate,
        is_unread,
    )
}

/// A row of bits with a field's put in from bit `from` on, as far as they fit.
pub fn with_field(row: u128, field: u32, from: u32) -> u128
    requires { from < 128 }
    ensures { result ≡ bit_or row (field * 2 ^ from % 2 ^ 128) }
{
    row | (u128::from(field) << from)
}

/// The masked bits of ID/EX, below 128 and from 128 on.
pub fn decoded_bits(
    w: &MemWb,
    m: &ExMem,
    d: &IdEx,
    arch: &Arch<'_>,
    needs: &NeedTable,
    case: &Case,
) -> (u128, u32)
    requires within { case.now.first_after ≤ needs.now.count }
    requires case { IsCase needs.now arch.now w.now m.now d.now case.now }
    ensures low { HasBits 128 (IsDecodedMasked needs.now arch.now (record { w = w.now; m = m.now; d = d.now }) case.now.oldest.value case.now.npc case.now.issued) result.0 }
    ensures high { HasBits 32 (λ i. IsDecodedMasked needs.now arch.now (record { w = w.now; m = m.now; d = d.now }) case.now.oldest.value case.now.npc case.now.issued (128 + i)) result.1 }
{
    if !case.on_path {
        return (0, 0);
    }
    let facts = facts_of(arch, needs, case, d);
    let front = front_bits(w, m, d, arch, needs, case, facts);
    let a = a_bits(w, m, d, arch, needs, case, facts);
    let b = b_bits(w, m, d, arch, needs, case, facts);
    let immediate = immediate_bits(w, m, d, arch, needs, case, facts);
    let row = with_field(with_field(front, a, 52), b, 84);
    (with_field(row, immediate, 116), immediate >> 12)
}
