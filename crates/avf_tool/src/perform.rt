// What each command answers.
ghost use Rattle.std.specs.Prelude.{◌≡◌, ◌≤◌, ◌+◌, ◌-◌, ◌*◌, List, ℕ, Some, true, length};
ghost use Rattle.avf_tool.specs.Answers.{answer, image_answer, source_due, task_answer};
ghost use Rattle.avf_tool.specs.Jobs.{bench_job_of, image_job_of, job_of};
ghost use Rattle.img_gen.specs.Program.{generated};
ghost use Rattle.run_log.specs.Answers.{IsProgram};
ghost use Rattle.avf_tool.specs.Stages.{Answers, IsDeadText, IsText};
ghost use Rattle.avf_tool.specs.Told.{told_to};
ghost use Rattle.avf_tool.specs.Work.{IsFew, WorkOf, tells_of_one_run};
ghost use Rattle.avf_tool.specs.Words.{Bench, IsDoable, IsMakeable, IsTask, IsRunnable, OnImage, bench_run};

use crate::bits::{flip_answer, query_answer};
use crate::campaigns::campaign_answer;
use crate::checks::check_file;
use crate::command::{BenchCommand, Command, ImageCommand, Task};
use crate::maps::map_answer;
use crate::parity::parity_answer;
use crate::reports::{csv_answer, plan_answer, report_answer};
use crate::stages::{
    IMAGE_LIMIT, assemble_source, generate_image, load_image, read_image, read_source, run_image,
    trace_run,
};
use crate::texts::{dead_counts, dead_text, run_text};
use avf_base::{Refusal, Shelf, Steps};
use dead_class::classify;
use need_pass::needs;
use run_log::{LONGEST_RUN, Recorded};
use rv_isa::Trace;
use std::alloc::Global;
use std::sync::ledger::Ledger;

// What the program put, how it ended, and how many instructions it had.
fn run_answer(alloc: Global, run: &Recorded<'_>) -> Result<Vec<u8>, Refusal>
    ensures { IsText (task_answer Task.Run run.now) result }
{
    let text = run_text(alloc, run)?;
    Ok(text.into_bytes())
}

// The classes of a trace's instructions, as a text.
fn dead_of(alloc: Global, trace: &Trace) -> Result<Vec<u8>, Refusal>
    ensures { IsDeadText trace.now result }
{
    let needs = needs(alloc, trace)?;
    let table = classify(alloc, trace, &needs)?;
    let text = dead_text(alloc, &dead_counts(trace.len(), &table))?;
    Ok(text.into_bytes())
}

// How many instructions are of each class.
fn dead_answer<M: Ledger>(
    alloc: Global,
    run: &Recorded<'_>,
    applies: &mut Steps<M>,
) -> Result<Vec<u8>, Refusal>
    requires { IsProgram run.now }
    ensures text { IsText (task_answer Task.Dead run.now) result }
    ensures applies { applies.new ≤ applies.old + run.now.instructions }
{
    let trace = trace_run(alloc, run, applies)?;
    dead_of(alloc, &trace)
}

// What is told of a run, one line a task.
fn task_answer<L: Ledger, M: Ledger>(
    alloc: Global,
    task: Task,
    run: Recorded<'_>,
    steps: &mut Steps<L>,
    applies: &mut Steps<M>,
) -> Result<Vec<u8>, Refusal>
    requires program { IsProgram run }
    requires task { IsTask task }
    ensures text { IsText (task_answer task run.entry) result }
    ensures steps { tells_of_one_run task ≡ true → steps.new ≤ steps.old + 2 * run.entry.cycles }
    ensures applies { applies.new ≤ applies.old + 34 * run.entry.instructions }
{
    match task {
        Task::Run => run_answer(alloc, &run),
        Task::Dead => dead_answer(alloc, &run, applies),
        Task::Report => report_answer(alloc, run, steps, applies),
        Task::Csv => csv_answer(alloc, run, steps, applies),
        Task::Plan(bits) => plan_answer(alloc, bits, run, steps, applies),
        Task::Campaign(asked) => campaign_answer(alloc, &asked, run, steps, applies),
        Task::Due(protected) => parity_answer(alloc, protected, run, steps, applies),
        Task::Map => map_answer(alloc, run, steps, applies),
        Task::Query(asked) => query_answer(alloc, &asked, run, steps, applies),
        Task::Flip(asked) => flip_answer(alloc, &asked, &run, steps),
    }
}

// What is told of the run of the image that a file's contents mean, of at most `IMAGE_LIMIT` bytes.
fn answer<L: Ledger, M: Ledger>(
    alloc: Global,
    command: &ImageCommand<'_>,
    contents: &[u8],
    steps: &mut Steps<L>,
    applies: &mut Steps<M>,
) -> Result<Vec<u8>, Refusal>
    requires size { length contents.now ≤ IMAGE_LIMIT }
    requires does { IsRunnable (image_job_of command.now) }
    ensures text { IsText (image_answer (image_job_of command.now) contents.now) result }
    ensures work { IsFew (image_job_of command.now) contents.now (steps.new - steps.old) (applies.new - applies.old) }
{
    let image = load_image(alloc, contents, &command.shape)?;
    let recorded = run_image(alloc, &image, &command.shape, command.budget, steps)?;
    task_answer(alloc, command.task, recorded, steps, applies)
}

// Reads an image, and tells of its run.
fn tell_image<H: Shelf, L: Ledger, M: Ledger>(
    alloc: Global,
    command: &ImageCommand<'_>,
    shelf: &mut H,
    steps: &mut Steps<L>,
    applies: &mut Steps<M>,
) -> Result<Vec<u8>, Refusal>
    requires { IsRunnable (image_job_of command.now) }
    ensures answer { Answers (image_answer (image_job_of command.now)) (H.holds shelf.old command.now.image.now) (H.faults shelf.old) (H.faults shelf.new) result }
    ensures keeps { (n : List ℕ) → H.holds shelf.new n ≡ H.holds shelf.old n }
    ensures later { H.faults shelf.old ≤ H.faults shelf.new }
    ensures work { WorkOf (OnImage (image_job_of command.now)) (H.holds shelf.old command.now.image.now) (steps.new - steps.old) (applies.new - applies.old) }
{
    let contents = read_image(alloc, shelf, command.image)?;
    answer(alloc, command, &contents, steps, applies)
}

// The report of a generated program, which may run as long as any.
fn report_command(bench: &BenchCommand) -> ImageCommand<'static>
    requires { IsMakeable (bench_job_of bench.now) }
    ensures is { image_job_of result ≡ bench_run (bench_job_of bench.now) }
    ensures does { IsRunnable (image_job_of result) }
{
    ImageCommand {
        shape: bench.shape,
        image: "",
        budget: LONGEST_RUN,
        task: Task::Report,
    }
}

// Generates a program, and tells of its run.
fn tell_generated<L: Ledger, M: Ledger>(
    alloc: Global,
    bench: &BenchCommand,
    steps: &mut Steps<L>,
    applies: &mut Steps<M>,
) -> Result<Vec<u8>, Refusal>
    requires { IsMakeable (bench_job_of bench.now) }
    ensures text { IsText (image_answer (bench_run (bench_job_of bench.now)) (generated bench.now.number bench.now.size)) result }
    ensures work { WorkOf (Bench (bench_job_of bench.now)) (Some (generated bench.now.number bench.now.size)) (steps.new - steps.old) (applies.new - applies.old) }
{
    let contents = generate_image(alloc, bench.number, bench.size)?;
    answer(alloc, &report_command(bench), &contents, steps, applies)
}

// Reads a source, and assembles it.
#[tactic(auto, using(crate::proofs::Sources::too_long))]
fn assemble_file<H: Shelf>(alloc: Global, name: &str, shelf: &mut H) -> Result<Vec<u8>, Refusal>
    ensures answer { Answers source_due (H.holds shelf.old name.now) (H.faults shelf.old) (H.faults shelf.new) result }
    ensures keeps { (n : List ℕ) → H.holds shelf.new n ≡ H.holds shelf.old n }
    ensures later { H.faults shelf.old ≤ H.faults shelf.new }
{
    let source = read_source(alloc, shelf, name)?;
    assemble_source(alloc, &source)
}

/// Performs a command: its text, or why there is none.
pub fn perform<H: Shelf, L: Ledger, M: Ledger>(
    alloc: Global,
    command: &Command<'_>,
    shelf: &mut H,
    steps: &mut Steps<L>,
    applies: &mut Steps<M>,
) -> Result<Vec<u8>, Refusal>
    requires { IsDoable (job_of command.now) }
    ensures answer { Answers (answer (job_of command.now) (H.holds shelf.old)) (told_to (job_of command.now) (H.holds shelf.old)) (H.faults shelf.old) (H.faults shelf.new) result }
    ensures keeps { (n : List ℕ) → H.holds shelf.new n ≡ H.holds shelf.old n }
    ensures later { H.faults shelf.old ≤ H.faults shelf.new }
    ensures work { WorkOf (job_of command.now) (told_to (job_of command.now) (H.holds shelf.old)) (steps.new - steps.old) (applies.new - applies.old) }
{
    match command {
        Command::Image(command) => tell_image(alloc, command, shelf, steps, applies),
        Command::Generated(command) => tell_generated(alloc, command, steps, applies),
        Command::Check(command) => check_file(alloc, command, shelf, steps, applies),
        Command::Assembly(source) => assemble_file(alloc, source, shelf),
    }
}
