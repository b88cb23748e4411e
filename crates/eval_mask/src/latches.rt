// The masks of the latches.
ghost use Rattle.std.specs.Prelude.{◌≡◌, ◌↔◌, ◌+◌, ◌<◌, ◌≤◌, IsTrue, Some};
ghost use Rattle.rv_table.specs.declared.action.Action.TheVariants.{Nothing};
ghost use Rattle.eval_mask.specs.Cases.{IsCase, IsMaskBelow};
ghost use Rattle.eval_mask.specs.Stores.{lone_store};
ghost use Rattle.eval_mask.specs.LatchMasks.{HasBits, IsExecutedMasked, IsLatchMask, IsResultMasked};

use crate::cases::{
    Case, case_of, is_kept, is_masked, is_unmoved, left_with, same_action, same_left,
};
use crate::completing::{Aftermath, Store, action_change, write_held};
use crate::decoded::{decoded_bits, whole_field, with_field};
use crate::needed::is_store;
use crate::stores::{is_data_masked, is_place_masked, lone_store};
use crate::written::{
    is_first_free, is_needed_result, is_result_free, known_below, known_first, unneeded,
};
use bit_field::Struck;
use need_pass::NeedTable;
use pipe_latch::{ExMem, IdEx, MemWb};
use rv_isa::Arch;
use rv_table::Action;

/// The logically masked bits of the latches: a bit is set exactly where flipping it leaves an outcome that agrees, for all that the
/// run needs. Bits that no field holds, and those of fields that say where and when an instruction is, are never set.
#[derive(Clone, Copy, PartialEq, Eq)]
pub struct LatchMask {
    /// Bits 0 to 127 of ID/EX.
    pub idex_low: u128,
    /// Bit k is bit 128 + k of ID/EX.
    pub idex_high: u32,
    /// The bits of EX/MEM.
    pub exmem: u128,
    /// The bits of MEM/WB.
    pub memwb: u64,
}

/// Whether bit `k` of EX/MEM is masked. A bit that its action doesn't show changes nothing.
fn executed_bit(
    w: &MemWb,
    m: &ExMem,
    d: &IdEx,
    arch: &Arch<'_>,
    needs: &NeedTable,
    case: &Case,
    k: u32,
) -> bool
    requires within { case.now.first_after ≤ needs.now.count }
    requires case { IsCase needs.now arch.now w.now m.now d.now case.now }
    requires place { k < 75 }
    ensures { IsTrue result ↔ IsExecutedMasked needs.now arch.now (record { w = w.now; m = m.now; d = d.now }) case.now.oldest.value case.now.npc case.now.issued k }
{
    let mut flipped = *m;
    flipped.flip(k);
    let action = flipped.action();
    if same_action(&action, &case.executed) {
        return !case.reads_clock;
    }
    let below = action_change(arch, &action);
    if let Some(alike) = known_below(w, m, d, arch, needs, case, &below) {
        return alike;
    }
    if !is_kept(case, w, d, &below) {
        return is_masked(&below, w, &flipped, d, arch, needs, case);
    }
    if case.reads_clock {
        return false;
    }
    same_left(arch, needs, case, &left_with(arch, case, &below))
}

/// Whether bit `k` of MEM/WB is masked.
#[tactic(auto, using(crate::proofs::OwnChange::own_below))]
fn written_bit(
    w: &MemWb,
    m: &ExMem,
    d: &IdEx,
    arch: &Arch<'_>,
    needs: &NeedTable,
    case: &Case,
    k: u32,
) -> bool
    requires within { case.now.first_after ≤ needs.now.count }
    requires case { IsCase needs.now arch.now w.now m.now d.now case.now }
    requires place { k < 37 }
    ensures { IsTrue result ↔ IsResultMasked needs.now arch.now (record { w = w.now; m = m.now; d = d.now }) case.now.oldest.value case.now.npc case.now.issued k }
{
    let mut flipped = *w;
    flipped.flip(k);
    if let Some(alike) = known_first(w, &flipped, m, d, arch, needs, case) {
        return alike;
    }
    if !is_unmoved(case, &flipped, d) {
        return is_masked(&case.own.below, &flipped, m, d, arch, needs, case);
    }
    if case.reads_clock {
        return false;
    }
    let first = write_held(&flipped);
    same_left(arch, needs, case, &Aftermath { first, ..case.own })
}

/// The masked bits of EX/MEM below 11, those that say what it does.
fn asked_bits(
    w: &MemWb,
    m: &ExMem,
    d: &IdEx,
    arch: &Arch<'_>,
    needs: &NeedTable,
    case: &Case,
) -> u128
    requires within { case.now.first_after ≤ needs.now.count }
    requires case { IsCase needs.now arch.now w.now m.now d.now case.now }
    ensures { IsMaskBelow 11 (IsExecutedMasked needs.now arch.now (record { w = w.now; m = m.now; d = d.now }) case.now.oldest.value case.now.npc case.now.issued) result }
{
    let mut mask: u128 = 0;
    for k in 0..11u32 {
        if executed_bit(w, m, d, arch, needs, case, k) {
            mask |= 1 << k;
        }
    }
    mask
}

/// Whether bit `k` of EX/MEM's result or address is masked: that of a result isn't where it is needed afterwards.
fn result_bit(
    w: &MemWb,
    m: &ExMem,
    d: &IdEx,
    arch: &Arch<'_>,
    needs: &NeedTable,
    case: &Case,
    k: u32,
) -> bool
    requires within { case.now.first_after ≤ needs.now.count }
    requires case { IsCase needs.now arch.now w.now m.now d.now case.now }
    requires place { k < 32 }
    ensures { IsTrue result ↔ IsExecutedMasked needs.now arch.now (record { w = w.now; m = m.now; d = d.now }) case.now.oldest.value case.now.npc case.now.issued (11 + k) }
{
    if is_needed_result(case, k) {
        return false;
    }
    executed_bit(w, m, d, arch, needs, case, 11 + k)
}

/// The masked bits of the address of EX/MEM's store.
fn place_bits(
    w: &MemWb,
    m: &ExMem,
    d: &IdEx,
    arch: &Arch<'_>,
    needs: &NeedTable,
    case: &Case,
    store: &Store,
) -> u32
    requires within { case.now.first_after ≤ needs.now.count }
    requires case { IsCase needs.now arch.now w.now m.now d.now case.now }
    requires store { lone_store case.now ≡ Some store.now }
    ensures { IsMaskBelow 32 (λ i. IsExecutedMasked needs.now arch.now (record { w = w.now; m = m.now; d = d.now }) case.now.oldest.value case.now.npc case.now.issued (11 + i)) result }
{
    let mut mask: u32 = 0;
    for k in 0..32u32 {
        if is_place_masked(arch, needs, case, store, k) {
            mask |= 1 << k;
        }
    }
    mask
}

/// The masked bits of the value of EX/MEM's store.
fn data_bits(
    w: &MemWb,
    m: &ExMem,
    d: &IdEx,
    arch: &Arch<'_>,
    needs: &NeedTable,
    case: &Case,
    store: &Store,
) -> u32
    requires within { case.now.first_after ≤ needs.now.count }
    requires case { IsCase needs.now arch.now w.now m.now d.now case.now }
    requires store { lone_store case.now ≡ Some store.now }
    ensures { IsMaskBelow 32 (λ i. IsExecutedMasked needs.now arch.now (record { w = w.now; m = m.now; d = d.now }) case.now.oldest.value case.now.npc case.now.issued (43 + i)) result }
{
    let mut mask: u32 = 0;
    for k in 0..32u32 {
        if is_data_masked(arch, needs, case, store, k) {
            mask |= 1 << k;
        }
    }
    mask
}

/// The masked bits of EX/MEM's result or address: of a result that ID/EX doesn't take, those that aren't needed afterwards.
fn result_bits(
    w: &MemWb,
    m: &ExMem,
    d: &IdEx,
    arch: &Arch<'_>,
    needs: &NeedTable,
    case: &Case,
) -> u32
    requires within { case.now.first_after ≤ needs.now.count }
    requires case { IsCase needs.now arch.now w.now m.now d.now case.now }
    ensures { IsMaskBelow 32 (λ i. IsExecutedMasked needs.now arch.now (record { w = w.now; m = m.now; d = d.now }) case.now.oldest.value case.now.npc case.now.issued (11 + i)) result }
{
    if is_nothing(&case.executed) {
        return whole_field(case.reads_clock);
    }
    if is_result_free(case, d) {
        return unneeded(case.reads_clock, case.lasting.below);
    }
    if let Some(store) = lone_store(case) {
        return place_bits(w, m, d, arch, needs, case, &store);
    }
    let mut mask: u32 = 0;
    for k in 0..32u32 {
        if result_bit(w, m, d, arch, needs, case, k) {
            mask |= 1 << k;
        }
    }
    mask
}

/// Whether an action is none.
fn is_nothing(action: &Action) -> bool
    ensures { IsTrue result → action.now ≡ Nothing }
{
    matches!(*action, Action::Nothing)
}

/// The masked bits of EX/MEM's value to store, which are masked whole where it is no store.
fn stored_bits(
    w: &MemWb,
    m: &ExMem,
    d: &IdEx,
    arch: &Arch<'_>,
    needs: &NeedTable,
    case: &Case,
) -> u32
    requires within { case.now.first_after ≤ needs.now.count }
    requires case { IsCase needs.now arch.now w.now m.now d.now case.now }
    ensures { IsMaskBelow 32 (λ i. IsExecutedMasked needs.now arch.now (record { w = w.now; m = m.now; d = d.now }) case.now.oldest.value case.now.npc case.now.issued (43 + i)) result }
{
    if !is_store(&case.executed) {
        return whole_field(case.reads_clock);
    }
    if let Some(store) = lone_store(case) {
        return data_bits(w, m, d, arch, needs, case, &store);
    }
    let mut mask: u32 = 0;
    for k in 0..32u32 {
        if executed_bit(w, m, d, arch, needs, case, 43 + k) {
            mask |= 1 << k;
        }
    }
    mask
}

/// The masked bits of EX/MEM.
fn executed_bits(
    w: &MemWb,
    m: &ExMem,
    d: &IdEx,
    arch: &Arch<'_>,
    needs: &NeedTable,
    case: &Case,
) -> u128
    requires within { case.now.first_after ≤ needs.now.count }
    requires case { IsCase needs.now arch.now w.now m.now d.now case.now }
    ensures { HasBits 128 (IsExecutedMasked needs.now arch.now (record { w = w.now; m = m.now; d = d.now }) case.now.oldest.value case.now.npc case.now.issued) result }
{
    let asked = asked_bits(w, m, d, arch, needs, case);
    let result = result_bits(w, m, d, arch, needs, case);
    let stored = stored_bits(w, m, d, arch, needs, case);
    with_field(with_field(asked, result, 11), stored, 43)
}

/// The masked bits of MEM/WB's register.
fn register_bits(
    w: &MemWb,
    m: &ExMem,
    d: &IdEx,
    arch: &Arch<'_>,
    needs: &NeedTable,
    case: &Case,
) -> u64
    requires within { case.now.first_after ≤ needs.now.count }
    requires case { IsCase needs.now arch.now w.now m.now d.now case.now }
    ensures { IsMaskBelow 5 (IsResultMasked needs.now arch.now (record { w = w.now; m = m.now; d = d.now }) case.now.oldest.value case.now.npc case.now.issued) result }
{
    let mut mask: u64 = 0;
    for k in 0..5u32 {
        if written_bit(w, m, d, arch, needs, case, k) {
            mask |= 1 << k;
        }
    }
    mask
}

/// The masked bits of MEM/WB's value: where ID/EX doesn't take it, those that aren't needed afterwards.
fn value_bits(
    w: &MemWb,
    m: &ExMem,
    d: &IdEx,
    arch: &Arch<'_>,
    needs: &NeedTable,
    case: &Case,
) -> u32
    requires within { case.now.first_after ≤ needs.now.count }
    requires case { IsCase needs.now arch.now w.now m.now d.now case.now }
    ensures { IsMaskBelow 32 (λ i. IsResultMasked needs.now arch.now (record { w = w.now; m = m.now; d = d.now }) case.now.oldest.value case.now.npc case.now.issued (5 + i)) result }
{
    if is_first_free(case, w, d) {
        return unneeded(case.reads_clock, case.lasting.first);
    }
    let mut mask: u32 = 0;
    for k in 0..32u32 {
        if written_bit(w, m, d, arch, needs, case, 5 + k) {
            mask |= 1 << k;
        }
    }
    mask
}

/// The masked bits of MEM/WB.
fn written_bits(
    w: &MemWb,
    m: &ExMem,
    d: &IdEx,
    arch: &Arch<'_>,
    needs: &NeedTable,
    case: &Case,
) -> u64
    requires within { case.now.first_after ≤ needs.now.count }
    requires case { IsCase needs.now arch.now w.now m.now d.now case.now }
    ensures { HasBits 64 (IsResultMasked needs.now arch.now (record { w = w.now; m = m.now; d = d.now }) case.now.oldest.value case.now.npc case.now.issued) result }
{
    let register = register_bits(w, m, d, arch, needs, case);
    let value = value_bits(w, m, d, arch, needs, case);
    register | (u64::from(value) << 5)
}

/// The logically masked bits of the latches. `w`, `m`, `d` and `npc` are those of a state of the machine, `old` is what its register
/// file holds in the register that MEM/WB writes (0 for register 0), `arch` is the instruction set's state once MEM/WB is
/// completed, and `x` is the number of instructions before the one at `npc`, at most that of the run whose needs these are.
/// The answer is exact for all arguments.
pub fn latch_bits(
    w: &MemWb,
    old: u32,
    m: &ExMem,
    d: &IdEx,
    npc: u32,
    arch: &Arch<'_>,
    needs: &NeedTable,
    x: u32,
) -> LatchMask
    requires { x ≤ needs.now.count }
    ensures { IsLatchMask needs.now arch.now (record { w = w.now; m = m.now; d = d.now }) old npc x result }
{
    let case = case_of(w, old, m, d, npc, arch, needs, x);
    let (idex_low, idex_high) = decoded_bits(w, m, d, arch, needs, &case);
    LatchMask {
        idex_low,
        idex_high,
        exmem: executed_bits(w, m, d, arch, needs, &case),
        memwb: written_bits(w, m, d, arch, needs, &case),
    }
}
