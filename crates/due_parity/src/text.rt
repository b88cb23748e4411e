// The counts in lines.
ghost use Rattle.std.specs.Prelude.{◌≡◌, ◌++◌, ◌∷◌, [], IfOk, OnOk, codes, decimal, string_bytes};
ghost use Rattle.std.specs.List.{flat_map};
ghost use Rattle.avf_report.specs.Texts.{line_of};
ghost use Rattle.due_parity.specs.DueTexts as texts;

use crate::counting::DueCounts;
use avf_base::OutOfMemory;
use bit_field::{Structure, structure_name};
use std::alloc::{AllocError, Global};

/// The counts of a structure with parity.
#[derive(Clone, Copy, Debug, PartialEq, Eq)]
pub struct DueRow {
    pub structure: Structure,
    pub counts: DueCounts,
}

fn cycles_line(alloc: Global, cycles: u32) -> Result<String, AllocError>
    ensures { IfOk result (λ line. string_bytes line ≡ line_of (codes "cycles" ∷ decimal cycles ∷ [])) }
{
    format!(in alloc; "cycles {cycles}\n")
}

fn row_line(alloc: Global, row: &DueRow) -> Result<String, AllocError>
    ensures { IfOk result (λ line. string_bytes line ≡ line_of (texts.row_line row.now)) }
{
    let name = structure_name(row.structure);
    let DueCounts {
        true_due,
        false_due,
        quiet,
    } = row.counts;
    format!(in alloc; "{name} {true_due} {false_due} {quiet}\n")
}

fn push_rows(alloc: Global, text: &mut String, rows: &[DueRow]) -> Result<(), AllocError>
    ensures { OnOk result (string_bytes text.new ≡ string_bytes text.old ++ flat_map (λ row. line_of (texts.row_line row)) rows.now) }
{
    for row in rows {
        text.push_str(&row_line(alloc, row)?)?;
    }
    Ok(())
}

/// The counts of a run as text: its cycles, and a line for each of these structures with its name and how many flips are detected and ACE,
/// how many detected and un-ACE, and how many quiet.
#[tactic(auto, using(crate::proofs::Worded::due_parts))]
pub fn due_text(alloc: Global, cycles: u32, rows: &[DueRow]) -> Result<String, OutOfMemory>
    ensures { IfOk result (λ text. string_bytes text ≡ texts.due_text_of cycles rows.now) }
{
    let mut text = cycles_line(alloc, cycles)?;
    text.push_str("structure true false quiet\n")?;
    push_rows(alloc, &mut text, rows)?;
    Ok(text)
}
