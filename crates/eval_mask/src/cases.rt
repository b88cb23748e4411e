// What the latches leave as they are, worked out once, and whether flipped ones leave the same.
ghost use Rattle.std.specs.Prelude.{◌≡◌, ◌↔◌, ◌+◌, ◌<◌, ◌≤◌, ◌&&◌, ℕ, IfSome, IsTrue, None, true, if◌then◌else◌};
ghost use Rattle.rv_isa.specs.Architecture.{ArchState, state_of};
ghost use Rattle.pipe_latch.specs.LatchedActions.{action_of};
ghost use Rattle.pipe_latch.specs.Latches.{ResultLatch};
ghost use Rattle.eval_mask.specs.Aftermaths as leaving;
ghost use Rattle.eval_mask.specs.Aftermaths.{aftermath_of, change_of};
ghost use Rattle.eval_mask.specs.Cases as spec;
ghost use Rattle.eval_mask.specs.Cases.{IsCase};
ghost use Rattle.eval_mask.specs.Compared.{IsKnown, need_at};
ghost use Rattle.eval_mask.specs.LatchMasks as masks;
ghost use Rattle.eval_mask.specs.LatchMasks.{IsMasked, Latches, base_of};

use crate::compare::{Known, agree, known_needs, same_store, same_word};
use crate::completing::{
    Aftermath, Change, Doing, Write, completed, doing_of, executed_change, is_completed, left_by,
    operand_after,
};
use crate::written::{Lasting, lasting_bits};
use need_pass::NeedTable;
use pipe_latch::{ExMem, IdEx, MemWb};
use rv_isa::Arch;
use rv_table::{Action, is_clocked};

/// What is worked out once of the latches, for all their bits.
#[derive(Clone, Copy)]
pub struct Case {
    /// The old value of the register that MEM/WB writes.
    pub oldest: Write,
    pub npc: u32,
    /// The number of instructions before the one at `npc`.
    pub issued: u32,
    /// Whether ID/EX holds the next instruction of the run.
    pub on_path: bool,
    /// The instruction from which on bits are needed.
    pub first_after: u32,
    /// Whether completing the latches as they are completes a read of the cycle counter.
    pub reads_clock: bool,
    /// What EX/MEM does.
    pub executed: Action,
    /// Whether ID/EX is completed.
    pub reached: bool,
    /// What the instruction in ID/EX does.
    pub doing: Doing,
    /// What the latches leave as they are.
    pub own: Aftermath,
    /// The operands of ID/EX, the second before a counter takes its place.
    pub a: u32,
    pub held: u32,
    /// The needs of the registers that are written.
    pub known: Known,
    /// The bits of the written values that are needed afterwards.
    pub lasting: Lasting,
}

fn is_on_path(d: &IdEx, npc: u32, needs: &NeedTable, issued: u32) -> bool
    ensures { result ≡ masks.is_on_path needs.now d.now npc issued }
{
    d.valid && d.pc == npc && issued < needs.len()
}

/// The instruction from which on bits are needed.
fn first_after(on_path: bool, issued: u32, count: u32) -> u32
    requires count { issued ≤ count }
    requires more { IsTrue on_path → issued < count }
    ensures first { result ≡ (if on_path then issued + 1 else issued) }
    ensures within { result ≤ count }
{
    if on_path { issued + 1 } else { issued }
}

/// What is worked out of the latches for all their bits.
#[tactic(auto, unfolding(crate::specs::Aftermaths::change_of))]
pub fn case_of(
    w: &MemWb,
    old: u32,
    m: &ExMem,
    d: &IdEx,
    npc: u32,
    arch: &Arch<'_>,
    needs: &NeedTable,
    issued: u32,
) -> Case
    requires { issued ≤ needs.now.count }
    ensures case { IsCase needs.now arch.now w.now m.now d.now result }
    ensures within { result.first_after ≤ needs.now.count }
    ensures old { result.oldest.value ≡ old }
    ensures npc { result.npc ≡ npc }
    ensures issued { result.issued ≡ issued }
{
    let on_path = is_on_path(d, npc, needs, issued);
    let count = needs.len();
    let first_after = first_after(on_path, issued, count);
    let below = executed_change(arch, m);
    let own = completed(&below, w, m, d, arch, npc, issued);
    let known = known_needs(needs, first_after, &own);
    Case {
        oldest: Write {
            rd: w.rd,
            value: old,
        },
        npc,
        issued,
        on_path,
        first_after,
        reads_clock: reads_clock(m, d, npc),
        executed: m.action(),
        reached: is_completed(m, d, npc),
        doing: doing_of(w, d, &below.write, issued, arch.image()),
        own,
        a: operand_after(&own.below.write, w, d.rs1, d.a),
        held: operand_after(&own.below.write, w, d.rs2, d.b),
        known,
        lasting: lasting_bits(&known, &own),
    }
}

/// Whether completing the latches completes a read of the cycle counter.
#[tactic(auto, unfolding(crate::specs::LatchMasks::reads_clock))]
fn reads_clock(m: &ExMem, d: &IdEx, npc: u32) -> bool
    ensures { (arch : ArchState) (w : ResultLatch) (rd old x : ℕ) → result ≡ masks.reads_clock arch.image (record { w = w; m = m.now; d = d.now }) (base_of arch rd old npc x) }
{
    is_completed(m, d, npc) && is_clocked(&d.instruction())
}

/// Whether the same is left, where it is needed, as of the latches of a case.
pub fn same_left(arch: &Arch<'_>, needs: &NeedTable, case: &Case, left: &Aftermath) -> bool
    requires within { case.now.first_after ≤ needs.now.count }
    requires known { IsKnown needs.now case.now.first_after case.now.known }
    ensures { IsTrue result ↔ spec.AgreesWithOwn needs.now arch.now case.now left.now }
{
    agree(
        arch,
        &case.oldest,
        needs,
        case.first_after,
        &case.known,
        left,
        &case.own,
    )
}

/// Whether the outcome of flipped latches agrees with that of the latches of a case. `below` is what EX/MEM changes.
pub fn is_masked(
    below: &Change,
    w: &MemWb,
    m: &ExMem,
    d: &IdEx,
    arch: &Arch<'_>,
    needs: &NeedTable,
    case: &Case,
) -> bool
    requires within { case.now.first_after ≤ needs.now.count }
    requires known { IsKnown needs.now case.now.first_after case.now.known }
    requires below { below.now ≡ change_of arch.now.image (action_of m.now) (state_of arch.now).memory }
    ensures { (l : Latches) → case.now.own ≡ aftermath_of arch.now.image l.w l.m l.d (state_of arch.now).memory case.now.npc case.now.issued → IsTrue result ↔ IsMasked needs.now case.now.first_after arch.now.image (base_of arch.now case.now.oldest.rd case.now.oldest.value case.now.npc case.now.issued) l (record { w = w.now; m = m.now; d = d.now }) }
{
    if reads_clock(m, d, case.npc) {
        return false;
    }
    let flipped = completed(below, w, m, d, arch, case.npc, case.issued);
    same_left(arch, needs, case, &flipped)
}

pub fn same_action(a: &Action, b: &Action) -> bool
    ensures { IsTrue result ↔ (a.now ≡ b.now) }
{
    *a == *b
}

/// The values that two actions write into the same register, where they do nothing else.
fn both_write(a: &Action, b: &Action) -> Option<(u32, u32)>
    ensures { IfSome result (λ values. (rd : ℕ) × spec.WriteBoth rd a.now b.now values.0 values.1) }
{
    match (*a, *b) {
        (
            Action::Writes { rd, value },
            Action::Writes {
                rd: other,
                value: more,
            },
        ) if rd == other => Some((value, more)),
        _ => None,
    }
}

/// Whether the same is left, where it is needed, with other doings of ID/EX, where it is completed. The writes of one register are compared
/// by its need, which is looked up once.
pub fn is_doing_alike(arch: &Arch<'_>, needs: &NeedTable, case: &Case, doing: &Doing) -> bool
    requires within { case.now.first_after ≤ needs.now.count }
    requires need { case.now.known.above.mask ≡ need_at needs.now case.now.own.above.write.rd case.now.first_after }
    requires known { IsKnown needs.now case.now.first_after case.now.known }
    requires own { case.now.own ≡ leaving.left_by arch.now.image case.now.own.first case.now.own.below case.now.doing (state_of arch.now).memory }
    ensures { IsTrue result ↔ spec.AgreesWithOwn needs.now arch.now case.now (leaving.left_by arch.now.image case.now.own.first case.now.own.below doing.now (state_of arch.now).memory) }
{
    if doing.next == case.doing.next {
        if same_action(&doing.action, &case.doing.action) {
            return true;
        }
        if let Some((value, own)) = both_write(&doing.action, &case.doing.action) {
            return same_word(case.known.above.mask, value, own);
        }
    }
    let left = left_by(arch, &case.own.first, &case.own.below, doing);
    same_left(arch, needs, case, &left)
}

/// Whether ID/EX has the same operands as in the case, where EX/MEM writes `below`.
fn same_operands(case: &Case, w: &MemWb, d: &IdEx, below: &Write) -> bool
    ensures { IsTrue result → spec.SameOperands w.now d.now below.now case.now }
{
    operand_after(below, w, d.rs1, d.a) == case.a
        && operand_after(below, w, d.rs2, d.b) == case.held
}

/// Whether ID/EX isn't completed, or has the same operands with other contents of MEM/WB.
pub fn is_unmoved(case: &Case, w: &MemWb, d: &IdEx) -> bool
    ensures { IsTrue result → case.now.reached ≡ true → spec.SameOperands w.now d.now case.now.own.below.write case.now }
{
    !case.reached || same_operands(case, w, d, &case.own.below.write)
}

/// Whether ID/EX is completed with the same operands with other contents of EX/MEM, which change `below`.
pub fn is_kept(case: &Case, w: &MemWb, d: &IdEx, below: &Change) -> bool
    ensures reached { IsTrue result → case.now.reached ≡ true }
    ensures goes_on { IsTrue result → below.now.end ≡ None }
    ensures operands { IsTrue result → spec.SameOperands w.now d.now below.now.write case.now }
{
    case.reached && below.end.is_none() && same_operands(case, w, d, &below.write)
}

/// What is left where EX/MEM changes `below` and ID/EX does the same. What ID/EX changes depends on EX/MEM's store alone.
#[tactic(auto, using(crate::proofs::Moved::same_store_left))]
pub fn left_with(arch: &Arch<'_>, case: &Case, below: &Change) -> Aftermath
    requires own { case.now.own ≡ leaving.left_by arch.now.image case.now.own.first case.now.own.below case.now.doing (state_of arch.now).memory }
    ensures { result ≡ leaving.left_by arch.now.image case.now.own.first below.now case.now.doing (state_of arch.now).memory }
{
    if same_store(&below.store, &case.own.below.store) {
        return Aftermath {
            below: *below,
            ..case.own
        };
    }
    left_by(arch, &case.own.first, below, &case.doing)
}
