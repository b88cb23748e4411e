// One cycle, with the laws that hold of it; the laws of a cycle, of the flush and of strikes for every state; and the law of the
// run of an image.
ghost use Rattle.std.specs.Prelude.{◌≡◌, ◌+◌, ◌<◌, ◌^◌, All, List, false, ℕ};
ghost use Rattle.bit_field.specs.Shapes.{IsShape};
ghost use Rattle.cyc_machine.specs.Cycle.{cycle};
ghost use Rattle.cyc_machine.specs.Facts.{IsMachine};
ghost use Rattle.cyc_machine.specs.Reports.{IsCycle};
ghost use Rattle.cyc_machine.specs.Sizes.{IsSteady};
ghost use Rattle.cyc_machine.specs.State.{State};
ghost use Rattle.cyc_machine.specs.declared.machine.TheConstants.{CYCLES_PER_INSTRUCTION};
ghost use Rattle.flush_view.specs.Flush.{flush};
ghost use Rattle.flush_view.specs.FlushLaw.{FlushLaw};
ghost use Rattle.flush_view.specs.FlushInputs.{InRange, TakesClocks, after_log, completed_behind, no_log};
ghost use Rattle.flush_view.specs.Ignored.{DiffersInIgnored, GoesInLockstep, LockstepLaw};
ghost use Rattle.flush_view.specs.MemoryLaw.{MemoryLaw};
ghost use Rattle.flush_view.specs.Progress.{LeavesWithin};
ghost use Rattle.flush_view.specs.RunLaw.{RunLaw};
ghost use Rattle.flush_view.specs.Struck.{StruckLaws};
ghost use Rattle.rv_isa.specs.Instruction.{Log};

use avf_base::Steps;
use bit_field::Shape;
use cyc_machine::{CycleReport, Machine};
use elf_load::Image;
use std::sync::ledger::Ledger;

/// One clock cycle, as `Machine::step`; its contract has the laws of a cycle besides, which hold whatever the machine's
/// structures hold: what the cycle does to memory, to the flush (after Burch and Dill, CAV 1994) and to a state that differs in
/// ignored fields alone, and that from the state at entry an instruction leaves EX/MEM within `CYCLES_PER_INSTRUCTION` cycles.
pub fn step_flush<L: Ledger>(m: &mut Machine<'_>, steps: &mut Steps<L>) -> CycleReport
    requires running { m.old.ended ≡ false }
    requires cycles { m.old.cycle < 2 ^ 31 }
    ensures cycle { IsCycle m.old m.new result }
    ensures steps { steps.new ≡ steps.old + 1 }
    ensures memory { MemoryLaw m.old m.new }
    ensures flush { FlushLaw m.old m.new }
    ensures progress { LeavesWithin CYCLES_PER_INSTRUCTION m.old }
    ensures lockstep { LockstepLaw m.old m.new }
{
    m.is_machine();
    m.step(steps)
}

/// Does nothing; its contract is the laws of a cycle for every state whose sizes last, whatever strikes have left in it: what a
/// cycle does to memory and to the flush, that an instruction soon leaves EX/MEM, and that two states which differ in ignored
/// fields alone do the same in the next cycle and for ever.
pub fn cycle_laws()
    ensures memory { (s : State) → IsSteady s → MemoryLaw s (cycle s) }
    ensures flush { (s : State) → IsSteady s → FlushLaw s (cycle s) }
    ensures progress { (s : State) → IsSteady s → LeavesWithin CYCLES_PER_INSTRUCTION s }
    ensures lockstep { (s : State) → IsSteady s → LockstepLaw s (cycle s) }
    ensures for_ever { (s u : State) → IsSteady s → IsSteady u → DiffersInIgnored s u → GoesInLockstep s u }
{}

/// Does nothing; its contract is what strikes do to the view, to coherence and to the flush, for every state: fields that none of
/// them reads, a line slot replaced by another, other bytes in a slot, and a slot of the store buffer replaced by another.
pub fn struck_laws()
    ensures { StruckLaws }
{}

/// Does nothing; its contract is what the flush of every state makes of its latches and the entries behind them, of the log
/// before it and of the clock values, and that its numbers are in their ranges where those of the machine are.
pub fn flush_laws()
    ensures outcome { (s : State) (clocks : List ℕ) (log : Log) → flush s clocks log ≡ completed_behind s clocks log }
    ensures logs { (s : State) (clocks : List ℕ) (log : Log) → flush s clocks log ≡ after_log log (flush s clocks no_log) }
    ensures clocks { (s : State) (clocks : List ℕ) (log : Log) → TakesClocks s clocks log }
    ensures ranges { (s : State) (clocks : List ℕ) (log : Log) → IsMachine s → All (λ clock. clock < 2 ^ 32) clocks → InRange (flush s clocks log) }
{}

/// Changes nothing; its contract is the law of the run of an image from reset, on a machine of a shape: each of its states
/// follows the instruction set's run, and it ends as that run does.
pub fn run_law(image: &Image, shape: &Shape)
    requires { IsShape shape.now }
    ensures { RunLaw image.now shape.now }
{
    image.is_image();
}
