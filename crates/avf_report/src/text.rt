// The report of a run, as text.
ghost use Rattle.std.specs.Prelude.{◌≡◌, ◌++◌, ◌∷◌, [], IfOk, OnOk, codes, decimal, string_bytes};
ghost use Rattle.std.specs.List.{flat_map};
ghost use Rattle.avf_report.specs.Texts as texts;

use ace_class::{Counts, RULES, Rule, STRUCTURES};
use avf_base::{End, OutOfMemory};
use bit_field::{Structure, structure_name};
use run_record::Recorded;
use std::alloc::{AllocError, Global};

fn end_line(alloc: Global, end: End) -> Result<String, AllocError>
    ensures { IfOk result (λ line. string_bytes line ≡ texts.line_of (codes "end" ∷ texts.end_words end)) }
{
    match end {
        End::Exit(n) => format!(in alloc; "end exit {n}\n"),
        End::Trap(n) => format!(in alloc; "end trap {n}\n"),
    }
}

fn cycles_line(alloc: Global, cycles: u32) -> Result<String, AllocError>
    ensures { IfOk result (λ line. string_bytes line ≡ texts.line_of (codes "cycles" ∷ decimal cycles ∷ [])) }
{
    format!(in alloc; "cycles {cycles}\n")
}

fn instructions_line(alloc: Global, instructions: u32) -> Result<String, AllocError>
    ensures { IfOk result (λ line. string_bytes line ≡ texts.line_of (codes "instructions" ∷ decimal instructions ∷ [])) }
{
    format!(in alloc; "instructions {instructions}\n")
}

// How long the run took and how it ended.
#[tactic(auto, using(crate::proofs::Lines::run_text))]
fn run_lines(alloc: Global, recorded: &Recorded<'_>) -> Result<String, AllocError>
    ensures { IfOk result (λ text. string_bytes text ≡ texts.text_of (texts.run_lines recorded.now)) }
{
    let mut text = cycles_line(alloc, recorded.cycles())?;
    text.push_str(&instructions_line(alloc, recorded.instructions())?)?;
    text.push_str(&end_line(alloc, recorded.end())?)?;
    Ok(text)
}

fn structure_line(alloc: Global, counts: &Counts, s: Structure) -> Result<String, AllocError>
    ensures { IfOk result (λ line. string_bytes line ≡ texts.line_of (texts.structure_line counts.now s)) }
{
    let name = structure_name(s);
    let bits = counts.bits(s);
    let ace = counts.ace(s);
    let ppm = counts.ppm(s);
    format!(in alloc; "{name} {bits} {ace} {ppm}\n")
}

fn total_line(alloc: Global, counts: &Counts) -> Result<String, AllocError>
    ensures { IfOk result (λ line. string_bytes line ≡ texts.line_of (texts.total_line counts.now)) }
{
    let bits = counts.total_bits();
    let ace = counts.total_ace();
    let ppm = counts.total_ppm();
    format!(in alloc; "total {bits} {ace} {ppm}\n")
}

#[tactic(auto, unfolding(crate::specs::Texts::rule_line))]
fn rule_line(alloc: Global, counts: &Counts, rule: Rule) -> Result<String, AllocError>
    ensures { IfOk result (λ line. string_bytes line ≡ texts.line_of (texts.rule_line counts.now rule)) }
{
    let number = rule.number();
    let pairs = counts.total_rule(&rule);
    format!(in alloc; "U{number} {pairs}\n")
}

// A line for each of these structures.
fn push_structures(
    alloc: Global,
    text: &mut String,
    counts: &Counts,
    structures: &[Structure],
) -> Result<(), AllocError>
    ensures { OnOk result (string_bytes text.new
        ≡ string_bytes text.old ++ flat_map (λ s. texts.line_of (texts.structure_line counts.now s)) structures.now) }
{
    for s in structures {
        text.push_str(&structure_line(alloc, counts, *s)?)?;
    }
    Ok(())
}

// A line for each of these rules.
fn push_rules(
    alloc: Global,
    text: &mut String,
    counts: &Counts,
    rules: &[Rule],
) -> Result<(), AllocError>
    ensures { OnOk result (string_bytes text.new
        ≡ string_bytes text.old ++ flat_map (λ rule. texts.line_of (texts.rule_line counts.now rule)) rules.now) }
{
    for rule in rules {
        text.push_str(&rule_line(alloc, counts, *rule)?)?;
    }
    Ok(())
}

#[tactic(auto, using(crate::proofs::Lines::structures_text))]
fn push_all_structures(alloc: Global, text: &mut String, counts: &Counts) -> Result<(), AllocError>
    ensures { OnOk result (string_bytes text.new ≡ string_bytes text.old ++ texts.text_of (texts.structure_lines counts.now)) }
{
    push_structures(alloc, text, counts, &STRUCTURES)
}

#[tactic(auto, using(crate::proofs::Lines::rules_text))]
fn push_all_rules(alloc: Global, text: &mut String, counts: &Counts) -> Result<(), AllocError>
    ensures { OnOk result (string_bytes text.new ≡ string_bytes text.old ++ texts.text_of (texts.rule_lines counts.now)) }
{
    push_rules(alloc, text, counts, &RULES)
}

/// The report of a run as text: its cycles, instructions and end; of each structure the bits, the pairs of a bit and a cycle
/// that are ACE, and their parts per million; the same of all together; and how many pairs are un-ACE by each rule.
pub fn report_text(
    alloc: Global,
    recorded: &Recorded<'_>,
    counts: &Counts,
) -> Result<String, OutOfMemory>
    requires cycles { counts.now.cycles ≡ recorded.now.cycles }
    requires shape { counts.now.shape ≡ recorded.now.shape }
    ensures { IfOk result (λ text. string_bytes text ≡ texts.report_text_of recorded.now counts.now) }
{
    let mut text = run_lines(alloc, recorded)?;
    text.push_str("structure bits ace ppm\n")?;
    push_all_structures(alloc, &mut text, counts)?;
    text.push_str(&total_line(alloc, counts)?)?;
    push_all_rules(alloc, &mut text, counts)?;
    Ok(text)
}
