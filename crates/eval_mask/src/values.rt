// Bits of a completed ID/EX that computes a value: a flip changes that value alone.
ghost use Rattle.std.specs.Prelude.{◌≡◌, ◌+◌, ◌^◌, ◌<◌, false, true};
ghost use Rattle.bit_field.specs.Layouts.{flip};
ghost use Rattle.rv_table.specs.Arithmetic.{alu};
ghost use Rattle.rv_table.specs.Operations.{operation_of};
ghost use Rattle.rv_table.specs.declared.operation.Operation.TheVariants.{Alu, AluImmediate};
ghost use Rattle.eval_mask.specs.Cases.{IsCase, IsMaskBelow};
ghost use Rattle.eval_mask.specs.Compared.{SameWhere};
ghost use Rattle.eval_mask.specs.LatchMasks.{IsDecodedMasked};
ghost use Rattle.eval_mask.specs.Unread as unread;

use crate::cases::Case;
use crate::compare::same_word;
use crate::inputs::immediate_of;
use need_pass::NeedTable;
use pipe_latch::{ExMem, IdEx, MemWb};
use rv_isa::Arch;
use rv_table::{AluKind, alu};

/// The bits of the first operand that leave the result, where `mask` has a bit, as `own`.
fn first_bits(mask: u32, kind: AluKind, a: u32, b: u32, own: u32) -> u32
    ensures bits { IsMaskBelow 32 (λ i. SameWhere 32 mask (alu kind (flip a i) b) own) result }
    ensures fits { mask < 2 ^ 32 }
{
    let mut bits: u32 = 0;
    for k in 0..32u32 {
        if same_word(mask, alu(kind, a ^ (1 << k), b), own) {
            bits |= 1 << k;
        }
    }
    bits
}

/// Those of the second.
fn second_bits(mask: u32, kind: AluKind, a: u32, b: u32, own: u32) -> u32
    ensures bits { IsMaskBelow 32 (λ i. SameWhere 32 mask (alu kind a (flip b i)) own) result }
    ensures fits { mask < 2 ^ 32 }
{
    let mut bits: u32 = 0;
    for k in 0..32u32 {
        if same_word(mask, alu(kind, a, b ^ (1 << k)), own) {
            bits |= 1 << k;
        }
    }
    bits
}

/// The masked bits of the first operand of an operation of two registers.
pub fn alu_first(
    w: &MemWb,
    m: &ExMem,
    d: &IdEx,
    arch: &Arch<'_>,
    needs: &NeedTable,
    case: &Case,
    kind: AluKind,
) -> u32
    requires case { IsCase needs.now arch.now w.now m.now d.now case.now }
    requires on_path { case.now.on_path ≡ true }
    requires reached { case.now.reached ≡ true }
    requires unread { case.now.reads_clock ≡ false }
    requires operation { operation_of d.now.op ≡ Alu kind }
    requires held { unread.is_forwarded case.now.own.below.write w.now d.now.rs1 ≡ false }
    ensures { IsMaskBelow 32 (λ i. IsDecodedMasked needs.now arch.now (record { w = w.now; m = m.now; d = d.now }) case.now.oldest.value case.now.npc case.now.issued (52 + i)) result }
{
    first_bits(
        case.known.above.mask,
        kind,
        case.a,
        case.held,
        case.own.above.write.value,
    )
}

/// Those of the second.
pub fn alu_second(
    w: &MemWb,
    m: &ExMem,
    d: &IdEx,
    arch: &Arch<'_>,
    needs: &NeedTable,
    case: &Case,
    kind: AluKind,
) -> u32
    requires case { IsCase needs.now arch.now w.now m.now d.now case.now }
    requires on_path { case.now.on_path ≡ true }
    requires reached { case.now.reached ≡ true }
    requires unread { case.now.reads_clock ≡ false }
    requires operation { operation_of d.now.op ≡ Alu kind }
    requires held { unread.is_forwarded case.now.own.below.write w.now d.now.rs2 ≡ false }
    ensures { IsMaskBelow 32 (λ i. IsDecodedMasked needs.now arch.now (record { w = w.now; m = m.now; d = d.now }) case.now.oldest.value case.now.npc case.now.issued (84 + i)) result }
{
    second_bits(
        case.known.above.mask,
        kind,
        case.a,
        case.held,
        case.own.above.write.value,
    )
}

/// The masked bits of the first operand of an operation of a register and the immediate.
pub fn immediate_first(
    w: &MemWb,
    m: &ExMem,
    d: &IdEx,
    arch: &Arch<'_>,
    needs: &NeedTable,
    case: &Case,
    kind: AluKind,
) -> u32
    requires case { IsCase needs.now arch.now w.now m.now d.now case.now }
    requires on_path { case.now.on_path ≡ true }
    requires reached { case.now.reached ≡ true }
    requires unread { case.now.reads_clock ≡ false }
    requires operation { operation_of d.now.op ≡ AluImmediate kind }
    requires held { unread.is_forwarded case.now.own.below.write w.now d.now.rs1 ≡ false }
    ensures { IsMaskBelow 32 (λ i. IsDecodedMasked needs.now arch.now (record { w = w.now; m = m.now; d = d.now }) case.now.oldest.value case.now.npc case.now.issued (52 + i)) result }
{
    let imm = immediate_of(d);
    let own = case.own.above.write.value;
    first_bits(case.known.above.mask, kind, case.a, imm, own)
}

/// The masked bits of the immediate of such an operation.
pub fn immediate_second(
    w: &MemWb,
    m: &ExMem,
    d: &IdEx,
    arch: &Arch<'_>,
    needs: &NeedTable,
    case: &Case,
    kind: AluKind,
) -> u32
    requires case { IsCase needs.now arch.now w.now m.now d.now case.now }
    requires on_path { case.now.on_path ≡ true }
    requires reached { case.now.reached ≡ true }
    requires unread { case.now.reads_clock ≡ false }
    requires operation { operation_of d.now.op ≡ AluImmediate kind }
    ensures { IsMaskBelow 32 (λ i. IsDecodedMasked needs.now arch.now (record { w = w.now; m = m.now; d = d.now }) case.now.oldest.value case.now.npc case.now.issued (116 + i)) result }
{
    let imm = immediate_of(d);
    let own = case.own.above.write.value;
    second_bits(case.known.above.mask, kind, case.a, imm, own)
}
