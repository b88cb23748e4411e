// A campaign: the strikes of a seed on a recorded run, by their classes and verdicts.
ghost use Rattle.std.specs.Prelude.{◌≡◌, ◌+◌, ◌*◌, ◌<◌, ◌≤◌, IfOk, true};
ghost use Rattle.bit_field.specs.Shapes.{IsPlaceIn};
ghost use Rattle.run_record.specs.Verdict.{bound};
ghost use Rattle.strike_campaign.specs.Campaigns.{IsCampaign, IsHarmless, IsJudged};

use crate::outcome::{Cells, Outcome};
use crate::strikes::{Strike, draw_strike};
use ace_rules::Analysis;
use avf_base::{OutOfMemory, Steps};
use cyc_machine::Machine;
use flip_replay::replay;
use rand_core::SeedableRng;
use rand_pcg::Lcg64Xsh32;
use run_record::verdict_law;
use std::alloc::Global;
use std::sync::ledger::Ledger;

/// The most strikes of a campaign.
pub const MOST_STRIKES: u32 = 10_000;

// What becomes of a strike. It makes a machine, and fails where there is no memory for it.
fn judge<L: Ledger>(
    alloc: Global,
    a: &Analysis<'_>,
    strike: Strike,
    steps: &mut Steps<L>,
) -> Result<Outcome, OutOfMemory>
    requires place { IsPlaceIn a.now.r.shape strike.place }
    requires cycle { strike.cycle < a.now.r.cycles }
    ensures strike { IfOk result (λ outcome. outcome.strike ≡ strike) }
    ensures judged { IfOk result (λ outcome. IsJudged a.now outcome) }
    ensures harmless { IfOk result (λ outcome. IsHarmless outcome) }
    ensures steps { steps.new ≤ steps.old + bound a.now.r a.now.r.cycles }
{
    verdict_law();
    let recorded = a.recorded();
    recorded.is_record();
    let machine = Machine::shaped(alloc, recorded.image(), &recorded.shape())?;
    let verdict = replay(machine, recorded, &strike.place, strike.cycle, steps);
    let class = a.class_of(&strike.place, strike.cycle);
    Ok(Outcome {
        strike,
        class,
        verdict,
    })
}

/// Strikes a recorded run as often as asked, at most `MOST_STRIKES` times, each time anew, at the places and in the cycles that the seed
/// gives. Each cell of the answer is the number of strikes with that class and that verdict; no strike on a bit that is un-ACE changes
/// the output or the end. It makes a machine a strike, and fails where there is no memory for one.
pub fn campaign<L: Ledger>(
    alloc: Global,
    a: &Analysis<'_>,
    seed: u64,
    strikes: u32,
    steps: &mut Steps<L>,
) -> Result<Cells, OutOfMemory>
    requires { strikes ≤ MOST_STRIKES }
    ensures cells { IfOk result (λ cells. IsCampaign a.now seed strikes cells) }
    ensures steps { steps.new ≤ steps.old + strikes * bound a.now.r a.now.r.cycles }
{
    let mut words = Lcg64Xsh32::seed_from_u64(seed);
    let mut cells = Cells::none();
    for _k in 0..strikes {
        let strike = draw_strike(&mut words, a.recorded());
        let outcome = judge(alloc, a, strike, steps)?;
        cells.add(&outcome);
    }
    Ok(cells)
}
