// What is told of the un-ACE bits of a run: its map.
ghost use Rattle.std.specs.Prelude.{◌≤◌, ◌+◌, ◌*◌};
ghost use Rattle.rv_isa.specs.Runs.{IsTrace};
ghost use Rattle.run_log.specs.Answers.{IsProgram};
ghost use Rattle.avf_tool.specs.MapAnswers.{map_due};
ghost use Rattle.avf_tool.specs.Stages.{IsText};

use crate::bits::is_harmless;
use crate::text_sink::TextSink;
use ace_rules::Analysis;
use avf_base::{Failed, Refusal, Steps};
use class_map::write_map;
use run_log::Recorded;
use std::alloc::Global;
use std::sync::ledger::Ledger;

// The map of an analysed run.
fn map_of(alloc: Global, analysis: &Analysis<'_>) -> Result<Vec<u8>, Refusal>
    requires program { IsProgram analysis.now.r }
    requires traced { IsTrace analysis.now.r.image analysis.now.r.clocks analysis.now.run }
    ensures { IsText (map_due analysis.now.r) result }
{
    is_harmless(analysis.recorded());
    let mut text = TextSink::new(alloc);
    match write_map(analysis, &mut text) {
        Ok(()) => Ok(text.into_bytes()),
        Err(Failed) => Err(Refusal::OutOfMemory),
    }
}

/// The map of a recorded run.
pub fn map_answer<L: Ledger, M: Ledger>(
    alloc: Global,
    run: Recorded<'_>,
    steps: &mut Steps<L>,
    applies: &mut Steps<M>,
) -> Result<Vec<u8>, Refusal>
    requires { IsProgram run }
    ensures text { IsText (map_due run.entry) result }
    ensures steps { steps.new ≤ steps.old + run.entry.cycles }
    ensures applies { applies.new ≤ applies.old + 34 * run.entry.instructions }
{
    let analysis = Analysis::new(alloc, run, steps, applies)?;
    map_of(alloc, &analysis)
}
