// The mask of an instruction word.
ghost use Rattle.std.specs.Prelude.{◌≡◌, ◌↔◌, ◌⊎◌, ◌+◌, ◌-◌, ◌^◌, ◌<◌, ◌≤◌, IsTrue, Some, None, false, slice_index};
ghost use Rattle.elf_load.specs.Image.{fetch};
ghost use Rattle.rv_table.specs.Actions.{is_clocked};
ghost use Rattle.rv_table.specs.Words as words;
ghost use Rattle.rv_isa.specs.Architecture.{state_of};
ghost use Rattle.rv_isa.specs.Effects.{operated};
ghost use Rattle.eval_mask.specs.Aftermaths.{Tells};
ghost use Rattle.eval_mask.specs.Compared.{IsKnown};
ghost use Rattle.eval_mask.specs.Effects as spec;
ghost use Rattle.eval_mask.specs.WordMasks.{IsAlikeWord, IsWordMask};

use crate::compare::{Known, agree, known_needs};
use crate::completing::{Aftermath, Change, NO_CHANGE, NO_WRITE, Store, Write};
use avf_base::Steps;
use need_pass::NeedTable;
use rv_isa::{Arch, Effect};
use rv_table::{ILLEGAL_CODE, Op, StoreKind, decode, is_clocked};
use std::sync::ledger::Ledger;

fn write_of(write: Option<(u8, u32)>) -> Write
    ensures { result ≡ spec.write_by write }
{
    match write {
        Some((rd, value)) => Write { rd, value },
        None => NO_WRITE,
    }
}

fn store_of(store: Option<(u32, u8, u32)>) -> Option<Store>
    ensures { result ≡ spec.store_told store }
{
    match store {
        Some((address, size, value)) => Some(Store {
            kind: kind_of(size),
            address,
            value,
        }),
        None => None,
    }
}

/// The store of so many bytes, 1, 2 or 4.
fn kind_of(size: u8) -> StoreKind
    ensures { result ≡ spec.kind_of_size size }
{
    match size {
        1 => StoreKind::Sb,
        2 => StoreKind::Sh,
        _ => StoreKind::Sw,
    }
}

/// What an effect leaves.
#[tactic(auto, unfolding(crate::specs::Effects::aftermath_by))]
fn aftermath_of(effect: &Effect) -> Aftermath
    ensures { result ≡ spec.aftermath_by effect.now }
{
    Aftermath {
        first: NO_WRITE,
        below: NO_CHANGE,
        above: Change {
            write: write_of(effect.write),
            store: store_of(effect.store),
            put: effect.put,
            end: effect.end,
        },
        pc: effect.next / 4,
        end: effect.end,
    }
}

/// What an instruction leaves. It counts one in `applies`.
#[tactic(auto, using(crate::proofs::EffectsTold::operated_told))]
fn operate<L: Ledger>(arch: &Arch<'_>, op: &Op, applies: &mut Steps<L>) -> Aftermath
    requires rd { op.now.rd < 32 }
    requires rs1 { op.now.rs1 < 32 }
    requires rs2 { op.now.rs2 < 32 }
    ensures told { Tells result (slice_index arch.now.registers) (state_of arch.now).memory (operated arch.now.image op.now (state_of arch.now)) }
    ensures ticks { applies.new ≡ applies.old + 1 }
{
    aftermath_of(&arch.effect(op, applies))
}

/// Whether another word does the same, where it is needed, as a word that doesn't read the cycle counter and leaves `own`. It counts
/// at most one in `applies`.
fn is_alike<L: Ledger>(
    arch: &Arch<'_>,
    word: u32,
    own: &Aftermath,
    other: u32,
    i: u32,
    needs: &NeedTable,
    known: &Known,
    applies: &mut Steps<L>,
) -> bool
    requires instruction { i < needs.now.count }
    requires unread { is_clocked (words.decode word) ≡ false }
    requires own { Tells own.now (slice_index arch.now.registers) (state_of arch.now).memory (operated arch.now.image (words.decode word) (state_of arch.now)) }
    requires known { IsKnown needs.now (i + 1) known.now }
    ensures alike { IsTrue result ↔ IsAlikeWord needs.now i arch.now word other }
    ensures ticks { applies.new ≤ applies.old + 1 }
{
    let op = decode(other);
    if is_clocked(&op) {
        return false;
    }
    if op.code == ILLEGAL_CODE && own.end.is_none() {
        return false;
    }
    let flipped = operate(arch, &op, applies);
    // the run's length is a u32, so i + 1 is one
    let _ = needs.len();
    agree(arch, &NO_WRITE, needs, i + 1, known, &flipped, own)
}

/// The mask of a word that doesn't read the cycle counter and leaves `own`.
fn bits_alike<L: Ledger>(
    arch: &Arch<'_>,
    word: u32,
    own: &Aftermath,
    i: u32,
    needs: &NeedTable,
    applies: &mut Steps<L>,
) -> u32
    requires instruction { i < needs.now.count }
    requires unread { is_clocked (words.decode word) ≡ false }
    requires own { Tells own.now (slice_index arch.now.registers) (state_of arch.now).memory (operated arch.now.image (words.decode word) (state_of arch.now)) }
    ensures mask { IsWordMask needs.now i arch.now word result }
    ensures ticks { applies.new ≤ applies.old + 32 }
{
    // the run's length is a u32, so i + 1 is one
    let _ = needs.len();
    let known = known_needs(needs, i + 1, own);
    let mut mask = 0;
    for k in 0..32u32 {
        if is_alike(arch, word, own, word ^ (1 << k), i, needs, &known, applies) {
            mask |= 1 << k;
        }
    }
    mask
}

/// The mask of a word that is executed.
#[tactic(auto, using(crate::proofs::WordBits::none_alike))]
fn fetched_bits<L: Ledger>(
    arch: &Arch<'_>,
    word: u32,
    i: u32,
    needs: &NeedTable,
    applies: &mut Steps<L>,
) -> u32
    requires { i < needs.now.count }
    ensures mask { IsWordMask needs.now i arch.now word result }
    ensures ticks { applies.new ≤ applies.old + 33 }
{
    let op = decode(word);
    if is_clocked(&op) {
        return 0;
    }
    let own = operate(arch, &op, applies);
    bits_alike(arch, word, &own, i, needs, applies)
}

/// The logically masked bits of the word of instruction `i`, which is executed in the state `arch`: a bit is set exactly where the
/// word with it flipped is decoded to an instruction that leaves the same, where it is needed. `word` is the word at the state's
/// address, or 0 where that isn't executable: there the word never matters, and all bits are set. It counts at most 33 in `applies`.
pub fn word_bits<L: Ledger>(
    arch: &Arch<'_>,
    word: u32,
    i: u32,
    needs: &NeedTable,
    applies: &mut Steps<L>,
) -> u32
    requires instruction { i < needs.now.count }
    requires fetched { (fetch arch.now.image arch.now.pc ≡ Some word) ⊎ ((fetch arch.now.image arch.now.pc ≡ None) × (word ≡ 0)) }
    ensures mask { fetch arch.now.image arch.now.pc ≡ Some word → IsWordMask needs.now i arch.now word result }
    ensures all { fetch arch.now.image arch.now.pc ≡ None → result ≡ 2 ^ 32 - 1 }
    ensures ticks { applies.new ≤ applies.old + 33 }
{
    match arch.image().fetch(arch.pc() / 4) {
        Some(_) => fetched_bits(arch, word, i, needs, applies),
        None => u32::MAX,
    }
}
