// Other doings of a completed ID/EX: whether they leave the same where it is needed, and which of them can't.
ghost use Rattle.std.specs.Prelude.{◌≡◌, ◌↔◌, ◌≤◌, ℕ, IsTrue, None, Some, true};
ghost use Rattle.elf_load.specs.Image.{LoadedImage};
ghost use Rattle.rv_isa.specs.Architecture.{state_of};
ghost use Rattle.rv_isa.specs.Instruction.{given};
ghost use Rattle.rv_table.specs.Effects.{written_register};
ghost use Rattle.eval_mask.specs.Aftermaths.{left_by, store_by, stored_over};
ghost use Rattle.eval_mask.specs.Compared.{IsKnown, SameWhere, covers, need_at};
ghost use Rattle.eval_mask.specs.OtherDoings as spec;
ghost use Rattle.eval_mask.specs.OtherDoings.{DoesAlike, GoesAlike, IsFacts, IsIdle, Misses, NeedsOwn};
ghost use Rattle.eval_mask.specs.Unread as unread;
ghost use Rattle.pipe_latch.specs.Latches.{DecodedLatch};

use crate::cases::{Case, is_doing_alike, same_left};
use crate::compare::{same_end, same_word};
use crate::completing::{Aftermath, Change, Doing, NO_CHANGE, Store, given};
use crate::idle::{is_store_alike, is_write_alike};
use crate::inputs::Facts;
use need_pass::NeedTable;
use rv_isa::{Arch, end_of, written_register};
use rv_table::Action;

/// Whether the latches go on and put nothing in ID/EX.
pub fn is_quiet(case: &Case) -> bool
    ensures goes_on { IsTrue result → case.now.own.end ≡ None }
    ensures quiet { IsTrue result → case.now.own.above.put ≡ None }
{
    case.own.end.is_none() && case.own.above.put.is_none()
}

/// Whether without what ID/EX changes the same is left where it is needed.
pub fn is_idle(arch: &Arch<'_>, needs: &NeedTable, case: &Case) -> bool
    requires within { case.now.first_after ≤ needs.now.count }
    requires known { IsKnown needs.now case.now.first_after case.now.known }
    ensures { IsTrue result ↔ IsIdle needs.now arch.now case.now }
{
    let without = Aftermath {
        above: NO_CHANGE,
        ..case.own
    };
    same_left(arch, needs, case, &without)
}

/// Whether a doing ends as the latches as they are, or goes on where they do.
fn goes_alike(case: &Case, doing: &Doing) -> bool
    ensures { IsTrue result ↔ GoesAlike case.now doing.now }
{
    let end = end_of(&doing.action);
    same_end(end, case.own.end) && (end.is_some() || doing.next == case.own.pc)
}

/// Whether an action stores nothing into the word of a store.
fn misses_store(store: &Option<Store>, action: &Action) -> bool
    ensures { IsTrue result → (image : LoadedImage) (p : ℕ) → covers store.now p ≡ true → covers (store_by image action.now) p ≡ true → ⊥ }
{
    match (*store, *action) {
        (Some(store), Action::Stores { address, .. }) => address / 4 != store.address / 4,
        _ => true,
    }
}

/// Whether an action writes no register and no byte that a change writes.
fn is_missed(own: &Change, action: &Action) -> bool
    ensures { IsTrue result → Misses own.now action.now }
{
    (own.write.rd == 0 || own.write.rd != written_register(action))
        && misses_store(&own.store, action)
}

/// Whether an action is a store.
pub fn is_store(action: &Action) -> bool
    ensures { result ≡ unread.is_store action.now }
{
    matches!(*action, Action::Stores { .. })
}

/// Whether an action writes a register, or none, and does nothing else.
fn is_given(action: &Action) -> bool
    ensures { result ≡ spec.is_given action.now }
{
    matches!(*action, Action::Writes { .. } | Action::Loads { .. })
}

/// Whether a doing writes the register that ID/EX writes, and neither does anything else.
fn writes_both(case: &Case, doing: &Doing) -> bool
    ensures given { IsTrue result → spec.is_given doing.now.action ≡ true }
    ensures own { IsTrue result → spec.is_given case.now.doing.action ≡ true }
    ensures register { IsTrue result → written_register doing.now.action ≡ case.now.own.above.write.rd }
{
    is_given(&doing.action)
        && is_given(&case.doing.action)
        && written_register(&doing.action) == case.own.above.write.rd
}

/// Whether the value that an action gives is, where it is needed, that of ID/EX.
fn gives_same(arch: &Arch<'_>, case: &Case, action: &Action) -> bool
    ensures { IsTrue result ↔ SameWhere 32 case.now.known.above.mask (given arch.now.image action.now (stored_over case.now.own.below.store (state_of arch.now).memory)) case.now.own.above.write.value }
{
    same_word(
        case.known.above.mask,
        given(arch, &case.own.below.store, action),
        case.own.above.write.value,
    )
}

/// Whether the same is left, where it is needed, with another doing of ID/EX, where it is completed.
#[tactic(auto, using(crate::proofs::Missed::missed_never, crate::proofs::Unneeded::given_alike))]
pub fn is_doing_masked(
    arch: &Arch<'_>,
    needs: &NeedTable,
    case: &Case,
    facts: Facts,
    doing: &Doing,
) -> bool
    requires within { case.now.first_after ≤ needs.now.count }
    requires need { case.now.known.above.mask ≡ need_at needs.now case.now.own.above.write.rd case.now.first_after }
    requires known { IsKnown needs.now case.now.first_after case.now.known }
    requires own { case.now.own ≡ left_by arch.now.image case.now.own.first case.now.own.below case.now.doing (state_of arch.now).memory }
    requires needed { IsTrue facts.needed → NeedsOwn needs.now arch.now case.now }
    requires idle { IsTrue facts.idle → IsIdle needs.now arch.now case.now }
    ensures { IsTrue result ↔ DoesAlike needs.now arch.now case.now doing.now }
{
    if !goes_alike(case, doing) {
        return false;
    }
    if writes_both(case, doing) {
        return gives_same(arch, case, &doing.action);
    }
    if facts.needed && is_missed(&case.own.above, &doing.action) {
        return false;
    }
    if facts.idle && is_given(&doing.action) {
        return is_write_alike(arch, needs, case, doing);
    }
    if facts.idle && is_store(&doing.action) {
        return is_store_alike(arch, needs, case, doing);
    }
    is_doing_alike(arch, needs, case, doing)
}
