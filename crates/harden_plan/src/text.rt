// A plan in words.
ghost use Rattle.std.specs.Prelude.{◌≡◌, ◌++◌, ◌∷◌, [], IfOk, OnOk, decimal, string_bytes};
ghost use Rattle.std.specs.List.{flat_map};
ghost use Rattle.bit_field.specs.Names.{name_of};
ghost use Rattle.avf_report.specs.Texts.{line_of};
ghost use Rattle.harden_plan.specs.PlanTexts.{member_text, plan_text_of};

use crate::plan::{Plan, is_member};
use ace_class::{Counts, STRUCTURES};
use avf_base::OutOfMemory;
use bit_field::{Structure, structure_name};
use std::alloc::{AllocError, Global};

fn number_line(alloc: Global, name: &str, number: u64) -> Result<String, AllocError>
    ensures { IfOk result (λ line. string_bytes line ≡ line_of (name.now ∷ decimal number ∷ [])) }
{
    format!(in alloc; "{name} {number}\n")
}

fn name_line(alloc: Global, s: Structure) -> Result<String, AllocError>
    ensures { IfOk result (λ line. string_bytes line ≡ line_of (name_of s ∷ [])) }
{
    let name = structure_name(s);
    format!(in alloc; "{name}\n")
}

// A line for the structure, if it is a member of the set.
#[tactic(auto, unfolding(crate::specs::PlanTexts::member_text))]
fn push_member(alloc: Global, text: &mut String, set: u32, s: Structure) -> Result<(), AllocError>
    ensures { OnOk result (string_bytes text.new ≡ string_bytes text.old ++ member_text set s) }
{
    if is_member(set, s) {
        text.push_str(&name_line(alloc, s)?)?;
    }
    Ok(())
}

// A line for each of these structures that is a member of the set.
fn push_members(
    alloc: Global,
    text: &mut String,
    set: u32,
    structures: &[Structure],
) -> Result<(), AllocError>
    ensures { OnOk result (string_bytes text.new ≡ string_bytes text.old ++ flat_map (member_text set) structures.now) }
{
    for s in structures {
        push_member(alloc, text, set, *s)?;
    }
    Ok(())
}

/// A plan as text: the bits of its set, the ACE pairs that it covers, those of all structures, and the names of its members, a line each.
#[tactic(auto, using(crate::proofs::Worded::plan_parts))]
pub fn plan_text(alloc: Global, plan: &Plan, counts: &Counts) -> Result<String, OutOfMemory>
    ensures { IfOk result (λ text. string_bytes text ≡ plan_text_of counts.now plan.now) }
{
    let mut text = number_line(alloc, "bits", u64::from(plan.bits))?;
    text.push_str(&number_line(alloc, "ace", plan.ace)?)?;
    text.push_str(&number_line(alloc, "of", counts.total_ace())?)?;
    push_members(alloc, &mut text, plan.set, &STRUCTURES)?;
    Ok(text)
}
