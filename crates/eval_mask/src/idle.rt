// Stores and writes of ID/EX where what it changes isn't needed: they leave the same where what is under them is the same.
ghost use Rattle.std.specs.Prelude.{◌≡◌, ◌↔◌, ◌+◌, ◌^◌, ◌<◌, ◌≤◌, IsTrue, Some, slice_index, true};
ghost use Rattle.rv_isa.specs.Architecture.{state_of};
ghost use Rattle.eval_mask.specs.Aftermaths.{stored_over, written};
ghost use Rattle.eval_mask.specs.Compared.{IsKnown, SameByte, SameCovered, SameRegister, SameRun};
ghost use Rattle.eval_mask.specs.OtherDoings.{DoesAlike, GoesAlike, IsIdle, is_given};
ghost use Rattle.eval_mask.specs.Unread.{is_store};

use crate::cases::Case;
use crate::compare::{same_byte_values, same_values};
use crate::completing::{Doing, Store, Write, byte_over, given, register_over, store_by};
use need_pass::NeedTable;
use rv_isa::{Arch, written_register};
use rv_table::StoreKind;

/// Whether a store over another one leaves the byte at a byte address the same where it is needed.
fn keeps_byte(
    arch: &Arch<'_>,
    needs: &NeedTable,
    at: u32,
    under: &Option<Store>,
    store: &Option<Store>,
    address: u32,
) -> bool
    requires { at ≤ needs.now.count }
    ensures { IsTrue result ↔ SameByte needs.now at (stored_over store.now (stored_over under.now (state_of arch.now).memory)) (stored_over under.now (state_of arch.now).memory) address }
{
    let before = byte_over(under, address, arch.byte(address));
    let after = byte_over(store, address, before);
    same_byte_values(needs, at, address, after, before)
}

/// The same for two bytes from an address on.
#[tactic(auto, using(crate::proofs::Differences::two))]
fn keeps_two(
    arch: &Arch<'_>,
    needs: &NeedTable,
    at: u32,
    under: &Option<Store>,
    store: &Option<Store>,
    from: u32,
) -> bool
    requires at { at ≤ needs.now.count }
    requires room { from + 2 ≤ 2 ^ 32 }
    ensures { IsTrue result ↔ SameRun needs.now at (stored_over store.now (stored_over under.now (state_of arch.now).memory)) (stored_over under.now (state_of arch.now).memory) from 2 }
{
    keeps_byte(arch, needs, at, under, store, from)
        && keeps_byte(arch, needs, at, under, store, from + 1)
}

/// And for four.
#[tactic(auto, using(crate::proofs::Differences::four))]
fn keeps_four(
    arch: &Arch<'_>,
    needs: &NeedTable,
    at: u32,
    under: &Option<Store>,
    store: &Option<Store>,
    from: u32,
) -> bool
    requires at { at ≤ needs.now.count }
    requires room { from + 4 ≤ 2 ^ 32 }
    ensures { IsTrue result ↔ SameRun needs.now at (stored_over store.now (stored_over under.now (state_of arch.now).memory)) (stored_over under.now (state_of arch.now).memory) from 4 }
{
    keeps_two(arch, needs, at, under, store, from)
        && keeps_two(arch, needs, at, under, store, from + 2)
}

/// Whether a store over another one leaves its own bytes the same where they are needed.
fn keeps_bytes(
    arch: &Arch<'_>,
    needs: &NeedTable,
    at: u32,
    under: &Option<Store>,
    store: &Option<Store>,
) -> bool
    requires { at ≤ needs.now.count }
    ensures { IsTrue result ↔ SameCovered needs.now at (stored_over store.now (stored_over under.now (state_of arch.now).memory)) (stored_over under.now (state_of arch.now).memory) store.now }
{
    match *store {
        None => true,
        Some(own) => match own.kind {
            StoreKind::Sb => keeps_byte(arch, needs, at, under, store, own.address),
            StoreKind::Sh => keeps_two(arch, needs, at, under, store, own.address / 2 * 2),
            StoreKind::Sw => keeps_four(arch, needs, at, under, store, own.address / 4 * 4),
        },
    }
}

/// Whether the same is left where ID/EX stores, goes on as the latches as they are, and what these change in it isn't needed.
#[tactic(auto, using(crate::proofs::Unneeded::idle_store))]
pub fn is_store_alike(arch: &Arch<'_>, needs: &NeedTable, case: &Case, doing: &Doing) -> bool
    requires within { case.now.first_after ≤ needs.now.count }
    requires idle { IsIdle needs.now arch.now case.now }
    requires goes { GoesAlike case.now doing.now }
    requires store { is_store doing.now.action ≡ true }
    ensures { IsTrue result ↔ DoesAlike needs.now arch.now case.now doing.now }
{
    let store = store_by(arch.image(), &doing.action);
    keeps_bytes(arch, needs, case.first_after, &case.own.below.store, &store)
}

/// Whether a write over those of EX/MEM and MEM/WB leaves its register the same where it is needed.
fn keeps_register(arch: &Arch<'_>, needs: &NeedTable, case: &Case, write: &Write) -> bool
    requires within { case.now.first_after ≤ needs.now.count }
    requires known { IsKnown needs.now case.now.first_after case.now.known }
    ensures { IsTrue result ↔ SameRegister needs.now case.now.first_after (written write.now (written case.now.own.below.write (written case.now.own.first (written case.now.oldest (slice_index arch.now.registers))))) (written case.now.own.below.write (written case.now.own.first (written case.now.oldest (slice_index arch.now.registers)))) write.now.rd }
{
    let r = write.rd;
    if r == 0 || r > 31 {
        return true;
    }
    let oldest = register_over(&case.oldest, r, arch.reg(r));
    let first = register_over(&case.own.first, r, oldest);
    let under = register_over(&case.own.below.write, r, first);
    let over = register_over(write, r, under);
    same_values(needs, case.first_after, &case.known, r, over, under)
}

/// Whether the same is left where ID/EX writes a register and does nothing else, goes on as the latches as they are, and what these change
/// in it isn't needed.
#[tactic(auto, using(crate::proofs::Unneeded::idle_write))]
pub fn is_write_alike(arch: &Arch<'_>, needs: &NeedTable, case: &Case, doing: &Doing) -> bool
    requires within { case.now.first_after ≤ needs.now.count }
    requires known { IsKnown needs.now case.now.first_after case.now.known }
    requires idle { IsIdle needs.now arch.now case.now }
    requires goes { GoesAlike case.now doing.now }
    requires given { is_given doing.now.action ≡ true }
    ensures { IsTrue result ↔ DoesAlike needs.now arch.now case.now doing.now }
{
    let write = Write {
        rd: written_register(&doing.action),
        value: given(arch, &case.own.below.store, &doing.action),
    };
    keeps_register(arch, needs, case, &write)
}
