// What is told of a map that is checked against a run.
ghost use Rattle.std.specs.Prelude.{◌≡◌, ◌≤◌, ◌+◌, ◌-◌, ◌*◌, List, ℕ, length};
ghost use Rattle.rv_isa.specs.Runs.{IsTrace};
ghost use Rattle.run_log.specs.Answers.{IsProgram};
ghost use Rattle.avf_tool.specs.Answers.{check_answer};
ghost use Rattle.avf_tool.specs.CheckAnswers.{map_checked, refusal_of};
ghost use Rattle.avf_tool.specs.Due.{Text, only};
ghost use Rattle.avf_tool.specs.Jobs.{check_job_of};
ghost use Rattle.avf_tool.specs.Stages.{Answers, IsText};
ghost use Rattle.avf_tool.specs.Texts as texts;
ghost use Rattle.avf_tool.specs.Told.{run_in, told_beside, told_check};
ghost use Rattle.avf_tool.specs.Words.{CheckMap, IsRunnable, own_map};
ghost use Rattle.avf_tool.specs.Work.{IsFew, WorkOf};

use crate::command::CheckCommand;
use crate::stages::{IMAGE_LIMIT, load_image, read_image, run_image};
use crate::texts::accepted_text;
use ace_rules::Analysis;
use avf_base::{Refusal, Shelf, Steps};
use class_map::{MapError, check_map};
use run_log::Recorded;
use std::alloc::Global;
use std::sync::ledger::Ledger;

// An accepted map in words.
fn accepted_bytes(alloc: Global, pairs: u64) -> Result<Vec<u8>, Refusal>
    ensures { IsText (only (Text (texts.accepted_text pairs))) result }
{
    let text = accepted_text(alloc, pairs)?;
    Ok(text.into_bytes())
}

// Why a map isn't accepted, as the tool tells it.
fn refusal_of(error: MapError) -> Refusal
    ensures { result ≡ refusal_of error }
{
    match error {
        MapError::Bad { line, cause } => Refusal::BadMap { line, cause },
        MapError::ReadFault => Refusal::ReadFault,
    }
}

// A map from a file, checked against an analysed run.
fn check_of<H: Shelf>(
    alloc: Global,
    analysis: &Analysis<'_>,
    map: &str,
    shelf: &mut H,
) -> Result<Vec<u8>, Refusal>
    requires program { IsProgram analysis.now.r }
    requires traced { IsTrace analysis.now.r.image analysis.now.r.clocks analysis.now.run }
    ensures answer { Answers (map_checked analysis.now.r) (H.holds shelf.old map.now) (H.faults shelf.old) (H.faults shelf.new) result }
    ensures keeps { (n : List ℕ) → H.holds shelf.new n ≡ H.holds shelf.old n }
    ensures later { H.faults shelf.old ≤ H.faults shelf.new }
{
    match check_map(analysis, shelf, map) {
        Ok(pairs) => accepted_bytes(alloc, pairs),
        Err(error) => Err(refusal_of(error)),
    }
}

// The same against a recorded run.
fn check_run<H: Shelf, L: Ledger, M: Ledger>(
    alloc: Global,
    run: Recorded<'_>,
    map: &str,
    shelf: &mut H,
    steps: &mut Steps<L>,
    applies: &mut Steps<M>,
) -> Result<Vec<u8>, Refusal>
    requires { IsProgram run }
    ensures answer { Answers (map_checked run.entry) (H.holds shelf.old map.now) (H.faults shelf.old) (H.faults shelf.new) result }
    ensures keeps { (n : List ℕ) → H.holds shelf.new n ≡ H.holds shelf.old n }
    ensures later { H.faults shelf.old ≤ H.faults shelf.new }
    ensures steps { steps.new ≤ steps.old + run.entry.cycles }
    ensures applies { applies.new ≤ applies.old + 34 * run.entry.instructions }
{
    let analysis = Analysis::new(alloc, run, steps, applies)?;
    check_of(alloc, &analysis, map, shelf)
}

// The same against the run of the image that a file's contents mean, of at most `IMAGE_LIMIT` bytes.
fn check_contents<H: Shelf, L: Ledger, M: Ledger>(
    alloc: Global,
    command: &CheckCommand<'_>,
    contents: &[u8],
    shelf: &mut H,
    steps: &mut Steps<L>,
    applies: &mut Steps<M>,
) -> Result<Vec<u8>, Refusal>
    requires size { length contents.now ≤ IMAGE_LIMIT }
    requires does { IsRunnable (own_map (check_job_of command.now)) }
    ensures answer { Answers (check_answer (check_job_of command.now) (H.holds shelf.old command.now.map.now))
        (told_beside (H.holds shelf.old command.now.map.now) (run_in command.now.shape command.now.budget contents.now) contents.now)
        (H.faults shelf.old) (H.faults shelf.new) result }
    ensures keeps { (n : List ℕ) → H.holds shelf.new n ≡ H.holds shelf.old n }
    ensures later { H.faults shelf.old ≤ H.faults shelf.new }
    ensures work { IsFew (own_map (check_job_of command.now)) contents.now (steps.new - steps.old) (applies.new - applies.old) }
{
    let image = load_image(alloc, contents, &command.shape)?;
    let recorded = run_image(alloc, &image, &command.shape, command.budget, steps)?;
    check_run(alloc, recorded, command.map, shelf, steps, applies)
}

/// Checks a map against the run of an image: reads the image, and the map once there is the run. The text says how many pairs of a bit
/// and a cycle the map has; a map with a fault is refused as `BadMap`.
pub fn check_file<H: Shelf, L: Ledger, M: Ledger>(
    alloc: Global,
    command: &CheckCommand<'_>,
    shelf: &mut H,
    steps: &mut Steps<L>,
    applies: &mut Steps<M>,
) -> Result<Vec<u8>, Refusal>
    requires { IsRunnable (own_map (check_job_of command.now)) }
    ensures answer { Answers (check_answer (check_job_of command.now) (H.holds shelf.old command.now.map.now))
        (told_check (check_job_of command.now) (H.holds shelf.old command.now.image.now) (H.holds shelf.old command.now.map.now))
        (H.faults shelf.old) (H.faults shelf.new) result }
    ensures keeps { (n : List ℕ) → H.holds shelf.new n ≡ H.holds shelf.old n }
    ensures later { H.faults shelf.old ≤ H.faults shelf.new }
    ensures work { WorkOf (CheckMap (check_job_of command.now))
        (told_check (check_job_of command.now) (H.holds shelf.old command.now.image.now) (H.holds shelf.old command.now.map.now))
        (steps.new - steps.old) (applies.new - applies.old) }
{
    let contents = read_image(alloc, shelf, command.image)?;
    check_contents(alloc, command, &contents, shelf, steps, applies)
}
