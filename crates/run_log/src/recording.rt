// Recording a run.
ghost use Rattle.std.specs.Prelude.{◌≡◌, ◌+◌, ◌-◌, ◌*◌, ◌<◌, ◌≤◌, ◌^◌, Some, false, length, IfOk, OnErr, OnOk};
ghost use Rattle.bit_field.specs.Shapes.{IsShape};
ghost use Rattle.bit_field.specs.Shapes as shapes;
ghost use Rattle.pipe_latch.specs.Latches as latches;
ghost use Rattle.rv_table.specs.Actions as rv;
ghost use Rattle.cyc_machine.specs.Cycle as cycles;
ghost use Rattle.run_record.specs.Journals.{Adds, entry_of};
ghost use Rattle.run_record.specs.Run.{RecordedRun};
ghost use Rattle.run_record.specs.Within.{record_within};
ghost use Rattle.run_log.specs.Answers.{IsRecorded};
ghost use Rattle.run_log.specs.declared.recording.RecordError.TheVariants.{OutOfMemory as no_memory};

use avf_base::{End, OutOfMemory, Steps};
use bit_field::{Shape, plain_shape};
use cyc_machine::Machine;
use elf_load::Image;
use flush_view::run_law;
use pipe_latch::IdEx;
use run_record::{Journal, LONGEST_RUN, Recorded};
use rv_table::is_clocked;
use std::alloc::{AllocError, Global};
use std::sync::ledger::Ledger;

/// Why a run wasn't recorded.
#[derive(Clone, Copy, Debug, thiserror::Error)]
pub enum RecordError {
    /// The run hadn't ended when its budget of cycles was used up.
    #[error("no end came within the budget")]
    NoEnd,
    #[error("out of memory")]
    OutOfMemory,
}

impl From<AllocError> for RecordError {
    ghost from_gives = { λ _ e. e ≡ no_memory };

    fn from(_: AllocError) -> Self {
        RecordError::OutOfMemory
    }
}

impl From<OutOfMemory> for RecordError {
    ghost from_gives = { λ _ e. e ≡ no_memory };

    fn from(_: OutOfMemory) -> Self {
        RecordError::OutOfMemory
    }
}

/// The run of an image on a machine of the plain shape; `budget` is 1 to `LONGEST_RUN` cycles.
pub fn record<'i, L: Ledger>(
    alloc: Global,
    image: &'i Image,
    budget: u32,
    steps: &mut Steps<L>,
) -> Result<Recorded<'i>, RecordError>
    requires least { 1 ≤ budget }
    requires most { budget ≤ LONGEST_RUN }
    requires ram { length image.now.ram ≡ 2 ^ 20 }
    ensures answer { IsRecorded image.now shapes.plain budget result }
    ensures steps { steps.new ≤ steps.old + budget }
    ensures ticks { IfOk result (λ r. steps.new ≡ steps.old + r.cycles) }
{
    record_shaped(alloc, image, &plain_shape(), budget, steps)
}

/// The run of an image on a machine of a shape, whose RAM the image has; `budget` is 1 to `LONGEST_RUN` cycles. What is recorded
/// is the instruction set's run, with the clock values that the machine gave. Where the run ends within the budget no more cycles are
/// made than it has, whether or not there was memory to record it.
pub fn record_shaped<'i, L: Ledger>(
    alloc: Global,
    image: &'i Image,
    shape: &Shape,
    budget: u32,
    steps: &mut Steps<L>,
) -> Result<Recorded<'i>, RecordError>
    requires shape { IsShape shape.now }
    requires ram { length image.now.ram ≡ shape.now.mib * 2 ^ 20 }
    requires least { 1 ≤ budget }
    requires most { budget ≤ LONGEST_RUN }
    ensures answer { IsRecorded image.now shape.now budget result }
    ensures steps { steps.new ≤ steps.old + budget }
    ensures ticks { IfOk result (λ r. steps.new ≡ steps.old + r.cycles) }
    ensures within { (r : RecordedRun) → record_within image.now shape.now budget ≡ Some r → steps.new ≤ steps.old + r.cycles }
{
    run_law(image, shape);
    let mut machine = Machine::shaped(alloc, image, shape)?;
    let mut journal = Journal::new(alloc);
    for cycle in 0..budget {
        if let Some(end) = run_cycle(&mut machine, &mut journal, steps)? {
            return Ok(journal.close(image, shape, cycle + 1, end));
        }
    }
    Err(RecordError::NoEnd)
}

// One cycle of the machine, which is written down. Answers the end that it brings.
fn run_cycle<L: Ledger>(
    machine: &mut Machine<'_>,
    journal: &mut Journal,
    steps: &mut Steps<L>,
) -> Result<Option<End>, AllocError>
    requires running { machine.old.ended ≡ false }
    requires cycles { machine.old.cycle < 2 ^ 31 }
    requires retired { journal.old.retired < 2 ^ 31 }
    ensures state { machine.new ≡ cycles.cycle machine.old }
    ensures end { IfOk result (λ end. end ≡ cycles.end_in machine.old) }
    ensures written { OnOk result (Adds (entry_of machine.old) journal.old journal.new) }
    ensures steps { steps.new ≡ steps.old + 1 }
{
    let cycle = machine.cycle();
    let reads_clock = reads_clock(machine.id_ex());
    let report = machine.step(steps);
    journal.note(&report, cycle, reads_clock)?;
    Ok(report.end)
}

// Whether ID/EX holds a read of the cycle counter.
fn reads_clock(decoded: &IdEx) -> bool
    ensures { result ≡ rv.is_clocked (latches.op_of_latch decoded.now) }
{
    is_clocked(&decoded.instruction())
}
