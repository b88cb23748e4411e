// Bits of the operands of a completed branch: a flip leaves the way that it goes, or turns it.
ghost use Rattle.std.specs.Prelude.{◌≡◌, ◌↔◌, ◌+◌, ◌≤◌, IsTrue, false, not, true};
ghost use Rattle.bit_field.specs.Layouts.{flip};
ghost use Rattle.rv_table.specs.Actions.{holds};
ghost use Rattle.rv_table.specs.Operations.{operation_of};
ghost use Rattle.rv_table.specs.declared.operation.Operation.TheVariants.{Branch};
ghost use Rattle.eval_mask.specs.Cases.{IsCase, IsMaskBelow};
ghost use Rattle.eval_mask.specs.LatchMasks.{IsDecodedMasked};
ghost use Rattle.eval_mask.specs.OtherDoings.{DoesAlike, IsFacts};
ghost use Rattle.eval_mask.specs.QuickDoings as spec;
ghost use Rattle.eval_mask.specs.QuickDoings.{StaysOr};
ghost use Rattle.eval_mask.specs.Unread as unread;

use crate::cases::Case;
use crate::inputs::Facts;
use crate::needed::is_doing_masked;
use crate::quick::way_doing;
use need_pass::NeedTable;
use pipe_latch::{ExMem, IdEx, MemWb};
use rv_isa::Arch;
use rv_table::{BranchKind, holds};

/// Whether a branch goes as `own`, or turning it leaves the same.
fn stays_or(way: bool, own: bool, turned: bool) -> bool
    ensures { IsTrue result ↔ StaysOr way own turned }
{
    way == own || turned
}

/// The bits of the first operand that leave the way of a branch, or all where turning it leaves the same.
fn first_ways(kind: BranchKind, a: u32, b: u32, turned: bool) -> u32
    ensures { IsMaskBelow 32 (λ i. StaysOr (holds kind (flip a i) b) (holds kind a b) turned) result }
{
    let own = holds(kind, a, b);
    let mut bits: u32 = 0;
    for k in 0..32u32 {
        if stays_or(holds(kind, a ^ (1 << k), b), own, turned) {
            bits |= 1 << k;
        }
    }
    bits
}

/// Those of the second.
fn second_ways(kind: BranchKind, a: u32, b: u32, turned: bool) -> u32
    ensures { IsMaskBelow 32 (λ i. StaysOr (holds kind a (flip b i)) (holds kind a b) turned) result }
{
    let own = holds(kind, a, b);
    let mut bits: u32 = 0;
    for k in 0..32u32 {
        if stays_or(holds(kind, a, b ^ (1 << k)), own, turned) {
            bits |= 1 << k;
        }
    }
    bits
}

/// Whether the same is left, where it is needed, if a branch in ID/EX goes the other way.
#[tactic(auto, using(crate::proofs::Doings::own_left))]
fn is_turned_alike(
    w: &MemWb,
    m: &ExMem,
    d: &IdEx,
    arch: &Arch<'_>,
    needs: &NeedTable,
    case: &Case,
    facts: Facts,
    kind: BranchKind,
) -> bool
    requires within { case.now.first_after ≤ needs.now.count }
    requires case { IsCase needs.now arch.now w.now m.now d.now case.now }
    requires reached { case.now.reached ≡ true }
    requires facts { IsFacts needs.now arch.now d.now case.now facts }
    ensures { IsTrue result ↔ DoesAlike needs.now arch.now case.now (spec.way_doing d.now (not (holds kind case.now.a case.now.held))) }
{
    let doing = way_doing(d, !holds(kind, case.a, case.held));
    is_doing_masked(arch, needs, case, facts, &doing)
}

/// The masked bits of the first operand of a branch.
pub fn branch_first(
    w: &MemWb,
    m: &ExMem,
    d: &IdEx,
    arch: &Arch<'_>,
    needs: &NeedTable,
    case: &Case,
    facts: Facts,
    kind: BranchKind,
) -> u32
    requires within { case.now.first_after ≤ needs.now.count }
    requires case { IsCase needs.now arch.now w.now m.now d.now case.now }
    requires on_path { case.now.on_path ≡ true }
    requires reached { case.now.reached ≡ true }
    requires unread { case.now.reads_clock ≡ false }
    requires facts { IsFacts needs.now arch.now d.now case.now facts }
    requires operation { operation_of d.now.op ≡ Branch kind }
    requires held { unread.is_forwarded case.now.own.below.write w.now d.now.rs1 ≡ false }
    ensures { IsMaskBelow 32 (λ i. IsDecodedMasked needs.now arch.now (record { w = w.now; m = m.now; d = d.now }) case.now.oldest.value case.now.npc case.now.issued (52 + i)) result }
{
    let turned = is_turned_alike(w, m, d, arch, needs, case, facts, kind);
    first_ways(kind, case.a, case.held, turned)
}

/// Those of the second.
pub fn branch_second(
    w: &MemWb,
    m: &ExMem,
    d: &IdEx,
    arch: &Arch<'_>,
    needs: &NeedTable,
    case: &Case,
    facts: Facts,
    kind: BranchKind,
) -> u32
    requires within { case.now.first_after ≤ needs.now.count }
    requires case { IsCase needs.now arch.now w.now m.now d.now case.now }
    requires on_path { case.now.on_path ≡ true }
    requires reached { case.now.reached ≡ true }
    requires unread { case.now.reads_clock ≡ false }
    requires facts { IsFacts needs.now arch.now d.now case.now facts }
    requires operation { operation_of d.now.op ≡ Branch kind }
    requires held { unread.is_forwarded case.now.own.below.write w.now d.now.rs2 ≡ false }
    ensures { IsMaskBelow 32 (λ i. IsDecodedMasked needs.now arch.now (record { w = w.now; m = m.now; d = d.now }) case.now.oldest.value case.now.npc case.now.issued (84 + i)) result }
{
    let turned = is_turned_alike(w, m, d, arch, needs, case, facts, kind);
    second_ways(kind, case.a, case.held, turned)
}
