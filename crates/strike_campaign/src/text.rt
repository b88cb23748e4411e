// A campaign in words.
ghost use Rattle.std.specs.Prelude.{◌≡◌, ◌++◌, ◌∷◌, [], IfOk, OnOk, decimal, string_bytes};
ghost use Rattle.avf_report.specs.Texts.{line_of};
ghost use Rattle.strike_campaign.specs.CampaignTexts.{campaign_text_of};

use crate::outcome::Cells;
use avf_base::OutOfMemory;
use std::alloc::{AllocError, Global};

fn number_line(alloc: Global, name: &str, number: u32) -> Result<String, AllocError>
    ensures { IfOk result (λ line. string_bytes line ≡ line_of (name.now ∷ decimal number ∷ [])) }
{
    format!(in alloc; "{name} {number}\n")
}

fn push_line(alloc: Global, text: &mut String, name: &str, number: u32) -> Result<(), AllocError>
    ensures { OnOk result (string_bytes text.new ≡ string_bytes text.old ++ line_of (name.now ∷ decimal number ∷ [])) }
{
    text.push_str(&number_line(alloc, name, number)?)
}

/// A campaign as text: the number of its strikes, and each cell by its name, a line each.
#[tactic(auto, using(crate::proofs::Worded::campaign_parts))]
pub fn campaign_text(alloc: Global, strikes: u32, cells: &Cells) -> Result<String, OutOfMemory>
    ensures { IfOk result (λ text. string_bytes text ≡ campaign_text_of strikes cells.now) }
{
    let mut text = number_line(alloc, "strikes", strikes)?;
    push_line(alloc, &mut text, "unace-same", cells.unace_same)?;
    push_line(alloc, &mut text, "unace-differs", cells.unace_differs)?;
    push_line(alloc, &mut text, "unace-noend", cells.unace_noend)?;
    push_line(alloc, &mut text, "ace-same", cells.ace_same)?;
    push_line(alloc, &mut text, "ace-differs", cells.ace_differs)?;
    push_line(alloc, &mut text, "ace-noend", cells.ace_noend)?;
    Ok(text)
}
