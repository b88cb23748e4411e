// The walk of a machine beside a record: of each cycle a note, of each instruction the mask of its word, and the first quiet cycle.
ghost use Rattle.std.specs.Prelude.{◌≡◌, ◌↔◌, ◌+◌, ◌*◌, ◌-◌, ◌/◌, ◌<◌, ◌≤◌, ◌^◌, true, IfOk, is_some};
ghost use Rattle.std.specs.Prelude.{OnOk, [], length, nat_lt, slice_get, option_map, if◌then◌else◌};
ghost use Rattle.bit_field.specs.Shapes.{IsShape};
ghost use Rattle.rv_table.specs.Effects.{written_register};
ghost use Rattle.pipe_latch.specs.LatchedActions.{action_of, kind_of};
ghost use Rattle.pipe_latch.specs.declared.kinds.ExMemKind.TheVariants.{Trap};
ghost use Rattle.rv_table.specs.Actions as rv;
ghost use Rattle.ace_law.specs.Moments.{IsTold};
ghost use Rattle.need_pass.specs.Tables.{Needs};
ghost use Rattle.ace_rules.specs.Notes.{AreNotes};
ghost use Rattle.ace_rules.specs.Walking.{GoesOn, IsSomeWalk, IsWalk};
ghost use Rattle.ace_rules.specs.Walks.{IsInOrder, IsLastClock, IsNoteWith, story_of};

use crate::note::Note;
use crate::path::{count_on_path, path_address};
use crate::situation::{MaskedLatches, kept, masked};
use crate::words::leave_if;
use avf_base::{OutOfMemory, Steps};
use cyc_machine::{CycleReport, Machine};
use eval_mask::LatchMask;
use need_pass::NeedTable;
use pipe_latch::{ExMem, ExMemKind};
use run_record::Recorded;
use rv_isa::{Arch, Trace};
use rv_table::{Action, Op, is_clocked};
use std::alloc::Global;
use std::sync::ledger::Ledger;

/// What is kept of a run: a note of each cycle, of each instruction the mask of its word, and the first quiet cycle.
#[derive(Drop)]
pub struct Notes {
    pub cycles: Vec<Note>,
    pub words: Vec<u32>,
    pub quiet: u32,
}

/// Whether EX/MEM holds a trap, if it is occupied.
fn is_trap(m: &ExMem) -> bool
    ensures { (result ≡ true) ↔ (kind_of m.now.kind ≡ Trap) }
{
    matches!(ExMemKind::of_number(m.kind), ExMemKind::Trap)
}

/// The register that EX/MEM writes, 0 for none.
fn executed_register(m: &ExMem) -> u8
    ensures { result ≡ written_register (action_of m.now) }
{
    match m.action() {
        Action::Writes { rd, .. } => rd,
        Action::Loads { rd, .. } => rd,
        _ => 0,
    }
}

/// The word address of instruction `i`, none after the last.
fn address_of(trace: &Trace, i: u32) -> Option<u32>
    ensures { result ≡ option_map (λ entry. entry.pc / 4) (slice_get trace.now.entries i) }
{
    if i < trace.len() {
        Some(trace.entry(i).pc / 4)
    } else {
        None
    }
}

/// The note of a machine, of which `x` instructions have left EX, and of the masks of its latches.
fn note_of(machine: &Machine<'_>, trace: &Trace, x: u32, masks: LatchMask) -> Note
    requires order { IsInOrder machine.now.buffer }
    requires room { x + 8 < 2 ^ 32 }
    ensures { IsNoteWith machine.now trace.now.entries x masks result }
{
    let d = machine.id_ex();
    let buffer = machine.inst_buf();
    let on_path = count_on_path(d, buffer, trace, x);
    Note {
        executed: x,
        occupied: machine.ex_mem().valid,
        traps: is_trap(machine.ex_mem()),
        executed_rd: executed_register(machine.ex_mem()),
        result_rd: machine.mem_wb().rd,
        decoded_rd: d.rd,
        decoded: d.valid,
        decoded_on_path: d.valid && 0 < on_path,
        decoded_next: d.pc == machine.npc(),
        waiting: buffer.len() as u8,
        on_path: on_path as u8,
        next: address_of(trace, x + on_path),
        missed: path_address(d, buffer, on_path),
        stores: *machine.store_buf(),
        masks,
    }
}

/// The number after the last read of the cycle counter, where an instruction comes after `last`.
fn clock_after(last: u32, i: u32, op: &Op) -> u32
    requires { i < 2 ^ 32 - 1 }
    ensures { result ≡ (if rv.is_clocked op.now then i + 1 else last) }
{
    if is_clocked(op) { i + 1 } else { last }
}

/// The number after the last read of the cycle counter in a run, 0 where it has none.
fn last_clock(trace: &Trace) -> u32
    ensures { IsLastClock trace.now.entries (length trace.now.entries) result }
{
    let mut last = 0;
    for i in 0..trace.len() {
        last = clock_after(last, i, &trace.entry(i).op);
    }
    last
}

/// The first quiet cycle so far: in cycle `t`, before which `x` instructions have left EX, a read of the cycle counter is yet to
/// come where `x` is below the number after the last.
fn quiet_after(quiet: u32, t: u32, x: u32, last: u32) -> u32
    requires { t < 2 ^ 32 - 1 }
    ensures { result ≡ (if nat_lt x last then t + 1 else quiet) }
{
    if x < last { t + 1 } else { quiet }
}

/// How many instructions have left EX after a cycle that reports this.
fn count_after(x: u32, report: &CycleReport) -> u32
    requires { x < 2 ^ 32 - 1 }
    ensures { result ≡ (if is_some report.now.issued then x + 1 else x) }
{
    if report.issued.is_some() { x + 1 } else { x }
}

/// A machine and an instruction set's state that go side by side, and what is kept of the run so far.
#[derive(Drop)]
struct Walker<'i> {
    machine: Machine<'i>,
    /// The instruction set's state once MEM/WB is completed.
    arch: Arch<'i>,
    /// How many instructions have left EX.
    executed: u32,
    /// The number after the last read of the cycle counter in the run.
    last: u32,
    /// The masks that are kept of the cycle before.
    kept: Option<MaskedLatches>,
    notes: Notes,
}

/// Nothing noted yet.
fn no_notes(alloc: Global) -> Notes
    ensures cycles { result.cycles.items ≡ [] }
    ensures words { result.words.items ≡ [] }
    ensures quiet { result.quiet ≡ 0 }
{
    Notes {
        cycles: Vec::new(alloc),
        words: Vec::new(alloc),
        quiet: 0,
    }
}

/// A machine and an instruction set's state at reset.
fn start<'i>(
    alloc: Global,
    recorded: &Recorded<'i>,
    trace: &Trace,
) -> Result<Walker<'i>, OutOfMemory>
    requires { IsShape recorded.now.shape }
    ensures { IfOk result (λ walker. (table : Needs) → IsTold recorded.now trace.now table → IsWalk (story_of recorded.now trace.now) table 0 walker) }
{
    let last = last_clock(trace);
    match Machine::shaped(alloc, recorded.image(), &recorded.shape()) {
        Err(error) => Err(error),
        Ok(machine) => match Arch::new(alloc, recorded.image()) {
            Err(error) => Err(error),
            Ok(arch) => Ok(Walker {
                machine,
                arch,
                executed: 0,
                last,
                kept: None,
                notes: no_notes(alloc),
            }),
        },
    }
}

/// Cycle `t`: its note, the machine's step, and what the instruction that leaves the memory stage does. It takes a step, and at most 33
/// applications for an instruction that leaves.
fn note_cycle<L: Ledger, M: Ledger>(
    walker: &mut Walker<'_>,
    trace: &Trace,
    needs: &NeedTable,
    t: u32,
    steps: &mut Steps<L>,
    applies: &mut Steps<M>,
) -> Result<(), OutOfMemory>
    requires { IsSomeWalk trace.now needs.now t walker.old }
    ensures goes { OnOk result (GoesOn trace.now needs.now t walker.old walker.new) }
    ensures steps { steps.new ≤ steps.old + 1 }
    ensures applies { applies.new + 33 * length walker.old.notes.words.items ≤ applies.old + 33 * length trace.now.entries }
    ensures counted { OnOk result (applies.new + 33 * length walker.old.notes.words.items ≤ applies.old + 33 * length walker.new.notes.words.items) }
{
    let now = masked(
        &walker.machine,
        walker.executed,
        &walker.kept,
        &walker.arch,
        needs,
    );
    let note = note_of(&walker.machine, trace, walker.executed, now.masks);
    walker.notes.cycles.push(note)?;
    walker.notes.quiet = quiet_after(walker.notes.quiet, t, walker.executed, walker.last);
    let report = walker.machine.step(steps);
    walker.executed = count_after(walker.executed, &report);
    leave_if(
        report.retired,
        &mut walker.arch,
        trace,
        needs,
        &mut walker.notes.words,
        applies,
    )?;
    walker.kept = kept(report.retired, &now);
    Ok(())
}

/// The notes of a recorded run: a machine goes from reset as the recorded one went, and beside it an instruction set's state goes on by
/// the effects of the trace. It takes as many steps as the run has cycles, and at most 33 applications an instruction.
pub fn note_run<L: Ledger, M: Ledger>(
    alloc: Global,
    recorded: &Recorded<'_>,
    trace: &Trace,
    needs: &NeedTable,
    steps: &mut Steps<L>,
    applies: &mut Steps<M>,
) -> Result<Notes, OutOfMemory>
    requires { IsTold recorded.now trace.now needs.now }
    ensures notes { IfOk result (λ notes. AreNotes (story_of recorded.now trace.now) needs.now notes.cycles.items notes.words.items notes.quiet) }
    ensures steps { steps.new ≤ steps.old + recorded.now.cycles }
    ensures applies { applies.new ≤ applies.old + 33 * length trace.now.entries }
{
    let mut walker = start(alloc, recorded, trace)?;
    for t in 0..recorded.cycles() {
        note_cycle(&mut walker, trace, needs, t, steps, applies)?;
    }
    Ok(walker.notes)
}
