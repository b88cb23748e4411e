// What is told of a campaign of strikes on a run.
ghost use Rattle.std.specs.Prelude.{◌≤◌, ◌+◌, ◌*◌};
ghost use Rattle.rv_isa.specs.Runs.{IsTrace};
ghost use Rattle.run_log.specs.Answers.{IsProgram};
ghost use Rattle.strike_campaign.specs.CampaignTexts.{campaign_text_of};
ghost use Rattle.avf_tool.specs.CampaignAnswers.{campaign_due};
ghost use Rattle.avf_tool.specs.Due.{Text, only};
ghost use Rattle.avf_tool.specs.Stages.{IsText};

use crate::command::StrikesOfSeed;
use ace_rules::Analysis;
use avf_base::{Refusal, Steps};
use run_log::Recorded;
use std::alloc::Global;
use std::sync::ledger::Ledger;
use strike_campaign::{Cells, MOST_STRIKES, campaign, campaign_text};

// A campaign in words.
fn campaign_bytes(alloc: Global, strikes: u32, cells: &Cells) -> Result<Vec<u8>, Refusal>
    ensures { IsText (only (Text (campaign_text_of strikes cells.now))) result }
{
    let text = campaign_text(alloc, strikes, cells)?;
    Ok(text.into_bytes())
}

// A campaign on an analysed run.
fn campaign_of<L: Ledger>(
    alloc: Global,
    asked: &StrikesOfSeed,
    analysis: &Analysis<'_>,
    steps: &mut Steps<L>,
) -> Result<Vec<u8>, Refusal>
    requires program { IsProgram analysis.now.r }
    requires traced { IsTrace analysis.now.r.image analysis.now.r.clocks analysis.now.run }
    requires strikes { asked.now.strikes ≤ MOST_STRIKES }
    ensures { IsText (campaign_due analysis.now.r asked.now) result }
{
    let cells = campaign(alloc, analysis, asked.seed, asked.strikes, steps)?;
    campaign_bytes(alloc, asked.strikes, &cells)
}

/// What becomes of the strikes of a seed on a recorded run, by class and verdict.
pub fn campaign_answer<L: Ledger, M: Ledger>(
    alloc: Global,
    asked: &StrikesOfSeed,
    run: Recorded<'_>,
    steps: &mut Steps<L>,
    applies: &mut Steps<M>,
) -> Result<Vec<u8>, Refusal>
    requires program { IsProgram run }
    requires strikes { asked.now.strikes ≤ MOST_STRIKES }
    ensures text { IsText (campaign_due run.entry asked.now) result }
    ensures applies { applies.new ≤ applies.old + 34 * run.entry.instructions }
{
    let analysis = Analysis::new(alloc, run, steps, applies)?;
    campaign_of(alloc, asked, &analysis, steps)
}
