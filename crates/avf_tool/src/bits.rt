// What is told of a bit in a cycle: its class, and what becomes of the run with it flipped.
ghost use Rattle.std.specs.Prelude.{◌≡◌, ◌≤◌, ◌<◌, ◌+◌, ◌*◌, IfSome};
ghost use Rattle.bit_field.specs.Shapes.{IsPlaceIn};
ghost use Rattle.rv_isa.specs.Runs.{IsTrace};
ghost use Rattle.run_log.specs.Answers.{IsProgram};
ghost use Rattle.avf_tool.specs.BitAnswers.{IsHarmless, class_due, flip_due, place_in, query_due, verdict_due};
ghost use Rattle.avf_tool.specs.Due.{Text, only};
ghost use Rattle.avf_tool.specs.Stages.{IsText};
ghost use Rattle.avf_tool.specs.Texts as texts;

use crate::command::BitInCycle;
use crate::texts::{class_text, verdict_text};
use ace_class::Class;
use ace_law::un_ace_law;
use ace_rules::Analysis;
use avf_base::{Refusal, Steps};
use bit_field::{Place, bits_in};
use cyc_machine::Machine;
use flip_replay::{Verdict, replay};
use run_log::Recorded;
use std::alloc::Global;
use std::sync::ledger::Ledger;

/// Changes nothing; says that each bit that is un-ACE in a cycle of the run is harmless.
pub fn is_harmless(run: &Recorded<'_>)
    requires { IsProgram run.now }
    ensures { IsHarmless run.now }
{
    run.is_record();
    run.image().is_image();
    un_ace_law();
}

// The place that is asked for, where there are such a bit and such a cycle.
fn place_in(run: &Recorded<'_>, asked: &BitInCycle) -> Option<Place>
    ensures is { result ≡ place_in run.now asked.now }
    ensures inside { IfSome result (λ place. IsPlaceIn run.now.shape place × (asked.now.cycle < run.now.cycles)) }
{
    run.is_record();
    let structure = asked.structure?;
    if asked.bit < bits_in(structure, &run.shape()) && asked.cycle < run.cycles() {
        Some(Place {
            structure,
            bit: asked.bit,
        })
    } else {
        None
    }
}

// The text of a class.
fn class_bytes(alloc: Global, class: Class) -> Result<Vec<u8>, Refusal>
    ensures { IsText (only (Text (texts.class_text class))) result }
{
    let text = class_text(alloc, class)?;
    Ok(text.into_bytes())
}

// The class of the bit at a place in a cycle.
fn class_answer(
    alloc: Global,
    analysis: &Analysis<'_>,
    place: &Place,
    cycle: u32,
) -> Result<Vec<u8>, Refusal>
    requires program { IsProgram analysis.now.r }
    requires place { IsPlaceIn analysis.now.r.shape place.now }
    requires cycle { cycle < analysis.now.r.cycles }
    requires traced { IsTrace analysis.now.r.image analysis.now.r.clocks analysis.now.run }
    ensures { IsText (class_due analysis.now.r cycle place.now) result }
{
    let class = analysis.class_of(place, cycle);
    class_bytes(alloc, class)
}

/// The class of a bit in a cycle of a recorded run, where there are such ones.
pub fn query_answer<L: Ledger, M: Ledger>(
    alloc: Global,
    asked: &BitInCycle,
    run: Recorded<'_>,
    steps: &mut Steps<L>,
    applies: &mut Steps<M>,
) -> Result<Vec<u8>, Refusal>
    requires { IsProgram run }
    ensures text { IsText (query_due run.entry asked.now) result }
    ensures steps { steps.new ≤ steps.old + run.entry.cycles }
    ensures applies { applies.new ≤ applies.old + 34 * run.entry.instructions }
{
    match place_in(&run, asked) {
        Some(place) => {
            let analysis = Analysis::new(alloc, run, steps, applies)?;
            class_answer(alloc, &analysis, &place, asked.cycle)
        }
        None => Err(Refusal::NoSuchBit),
    }
}

// The text of a verdict.
fn verdict_bytes(alloc: Global, verdict: Verdict) -> Result<Vec<u8>, Refusal>
    ensures { IsText (only (Text (texts.verdict_text verdict))) result }
{
    let text = verdict_text(alloc, verdict)?;
    Ok(text.into_bytes())
}

// What becomes of a recorded run with the bit at a place flipped before a cycle.
fn verdict_answer<L: Ledger>(
    alloc: Global,
    run: &Recorded<'_>,
    place: &Place,
    cycle: u32,
    steps: &mut Steps<L>,
) -> Result<Vec<u8>, Refusal>
    requires program { IsProgram run.now }
    requires place { IsPlaceIn run.now.shape place.now }
    requires cycle { cycle < run.now.cycles }
    ensures { IsText (verdict_due run.now cycle place.now) result }
{
    run.is_record();
    is_harmless(run);
    let machine = Machine::shaped(alloc, run.image(), &run.shape())?;
    let verdict = replay(machine, run, place, cycle, steps);
    verdict_bytes(alloc, verdict)
}

/// What becomes of a recorded run with a bit flipped before a cycle, where there are such ones.
pub fn flip_answer<L: Ledger>(
    alloc: Global,
    asked: &BitInCycle,
    run: &Recorded<'_>,
    steps: &mut Steps<L>,
) -> Result<Vec<u8>, Refusal>
    requires { IsProgram run.now }
    ensures { IsText (flip_due run.now asked.now) result }
{
    match place_in(run, asked) {
        Some(place) => verdict_answer(alloc, run, &place, asked.cycle, steps),
        None => Err(Refusal::NoSuchBit),
    }
}
