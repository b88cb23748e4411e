// The masks of a run's instruction words.
ghost use Rattle.std.specs.Prelude.{◌≡◌, ◌⊎◌, ◌+◌, ◌<◌, ◌≤◌, true, false, OnOk, Some, None, length, if◌then◌else◌};
ghost use Rattle.elf_load.specs.Image.{fetch};
ghost use Rattle.ace_rules.specs.Walks.{CanLeave, IsMaskAt, Leaves};

use avf_base::{OutOfMemory, Steps};
use eval_mask::word_bits;
use need_pass::NeedTable;
use rv_isa::{Arch, Trace};
use std::sync::ledger::Ledger;

/// The word at a state's address, 0 where none is fetched.
fn word_at(arch: &Arch<'_>) -> u32
    ensures { (fetch arch.now.image arch.now.pc ≡ Some result) ⊎ ((fetch arch.now.image arch.now.pc ≡ None) × (result ≡ 0)) }
{
    match arch.image().fetch(arch.pc() / 4) {
        Some(word) => word,
        None => 0,
    }
}

/// The mask of the word at a state's address, as instruction `i`. It counts at most 33 in `applies`.
fn mask_at<M: Ledger>(arch: &Arch<'_>, i: u32, needs: &NeedTable, applies: &mut Steps<M>) -> u32
    requires { i < needs.now.count }
    ensures mask { IsMaskAt needs.now i arch.now result }
    ensures ticks { applies.new ≤ applies.old + 33 }
{
    word_bits(arch, word_at(arch), i, needs, applies)
}

/// The next instruction leaves the memory stage: its word is judged in the state before it, and then its effect is committed.
fn leave<M: Ledger>(
    arch: &mut Arch<'_>,
    trace: &Trace,
    needs: &NeedTable,
    words: &mut Vec<u32>,
    applies: &mut Steps<M>,
) -> Result<(), OutOfMemory>
    requires some { length words.old.items < length trace.now.entries }
    requires count { needs.now.count ≡ length trace.now.entries }
    requires commits { CanLeave trace.now.entries words.old.items arch.old }
    ensures leaves { OnOk result (Leaves needs.now trace.now.entries arch.old arch.new words.old.items words.new.items) }
    ensures ticks { applies.new ≤ applies.old + 33 }
{
    let count = trace.len();
    let i = words.len() as u32;
    let mask = mask_at(arch, i, needs, applies);
    arch.commit(&trace.entry(i).effect);
    words.push(mask)?;
    Ok(())
}

/// The same where an instruction leaves in this cycle, else nothing.
pub fn leave_if<M: Ledger>(
    leaves: bool,
    arch: &mut Arch<'_>,
    trace: &Trace,
    needs: &NeedTable,
    words: &mut Vec<u32>,
    applies: &mut Steps<M>,
) -> Result<(), OutOfMemory>
    requires some { leaves ≡ true → length words.old.items < length trace.now.entries }
    requires count { needs.now.count ≡ length trace.now.entries }
    requires commits { CanLeave trace.now.entries words.old.items arch.old }
    ensures leaves { leaves ≡ true → OnOk result (Leaves needs.now trace.now.entries arch.old arch.new words.old.items words.new.items) }
    ensures arch { leaves ≡ false → arch.new ≡ arch.old }
    ensures words { leaves ≡ false → words.new.items ≡ words.old.items }
    ensures ticks { applies.new ≤ applies.old + (if leaves then 33 else 0) }
{
    if leaves {
        leave(arch, trace, needs, words, applies)?;
    }
    Ok(())
}
