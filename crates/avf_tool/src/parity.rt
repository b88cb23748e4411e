// What is told of parity: how many flips of the protected structures are detected.
ghost use Rattle.std.specs.Prelude.{◌≡◌, ◌≤◌, ◌+◌, ◌*◌, [], ◌∷◌};
ghost use Rattle.bit_field.specs.declared.places.Structure.TheVariants.{CData, Rf};
ghost use Rattle.rv_isa.specs.Runs.{IsTrace};
ghost use Rattle.run_log.specs.Answers.{IsProgram};
ghost use Rattle.due_parity.specs.Due.{IsDue};
ghost use Rattle.due_parity.specs.DueTexts.{due_text_of};
ghost use Rattle.due_parity.specs.Notes.{IsTable};
ghost use Rattle.due_parity.specs.Touches.{IsProtected};
ghost use Rattle.avf_tool.specs.Due.{Text, only};
ghost use Rattle.avf_tool.specs.DueAnswers.{parity_due, rows_due};
ghost use Rattle.avf_tool.specs.Stages.{IsText};

use crate::command::Protected;
use ace_rules::Analysis;
use avf_base::{Refusal, Steps};
use bit_field::Structure;
use due_parity::{DueRow, FateTable, due, due_text, watch};
use run_log::Recorded;
use std::alloc::Global;
use std::sync::ledger::Ledger;

// The counts of rows in words.
fn rows_bytes(alloc: Global, cycles: u32, rows: &[DueRow]) -> Result<Vec<u8>, Refusal>
    ensures { IsText (only (Text (due_text_of cycles rows.now))) result }
{
    let text = due_text(alloc, cycles, rows)?;
    Ok(text.into_bytes())
}

// The row of a protected structure.
fn due_row(analysis: &Analysis<'_>, table: &FateTable, structure: Structure) -> DueRow
    requires table { IsTable analysis.now.r table.now }
    requires protected { IsProtected structure }
    ensures structure { result.structure ≡ structure }
    ensures counts { IsDue analysis.now structure result.counts }
{
    DueRow {
        structure,
        counts: due(analysis, table, structure),
    }
}

// One row, as text.
fn one_row(
    alloc: Global,
    analysis: &Analysis<'_>,
    table: &FateTable,
    structure: Structure,
) -> Result<Vec<u8>, Refusal>
    requires program { IsProgram analysis.now.r }
    requires traced { IsTrace analysis.now.r.image analysis.now.r.clocks analysis.now.run }
    requires table { IsTable analysis.now.r table.now }
    requires protected { IsProtected structure }
    ensures { IsText (rows_due analysis.now.r (structure ∷ [])) result }
{
    let row = due_row(analysis, table, structure);
    rows_bytes(alloc, analysis.recorded().cycles(), &[row])
}

// Both rows, as text.
fn both_rows(alloc: Global, analysis: &Analysis<'_>, table: &FateTable) -> Result<Vec<u8>, Refusal>
    requires program { IsProgram analysis.now.r }
    requires traced { IsTrace analysis.now.r.image analysis.now.r.clocks analysis.now.run }
    requires table { IsTable analysis.now.r table.now }
    ensures { IsText (rows_due analysis.now.r (Rf ∷ CData ∷ [])) result }
{
    let registers = due_row(analysis, table, Structure::Rf);
    let bytes = due_row(analysis, table, Structure::CData);
    rows_bytes(alloc, analysis.recorded().cycles(), &[registers, bytes])
}

// The rows of the protected structures of an analysed run.
fn rows_of(
    alloc: Global,
    protected: Protected,
    analysis: &Analysis<'_>,
    table: &FateTable,
) -> Result<Vec<u8>, Refusal>
    requires program { IsProgram analysis.now.r }
    requires traced { IsTrace analysis.now.r.image analysis.now.r.clocks analysis.now.run }
    requires table { IsTable analysis.now.r table.now }
    ensures { IsText (parity_due analysis.now.r protected) result }
{
    match protected {
        Protected::Registers => one_row(alloc, analysis, table, Structure::Rf),
        Protected::Data => one_row(alloc, analysis, table, Structure::CData),
        Protected::Both => both_rows(alloc, analysis, table),
    }
}

// The same, with the table of a machine that is watched once more.
fn parity_of<L: Ledger>(
    alloc: Global,
    protected: Protected,
    analysis: &Analysis<'_>,
    steps: &mut Steps<L>,
) -> Result<Vec<u8>, Refusal>
    requires program { IsProgram analysis.now.r }
    requires traced { IsTrace analysis.now.r.image analysis.now.r.clocks analysis.now.run }
    ensures text { IsText (parity_due analysis.now.r protected) result }
    ensures steps { steps.new ≤ steps.old + analysis.now.r.cycles }
{
    let table = watch(alloc, analysis, steps)?;
    rows_of(alloc, protected, analysis, &table)
}

/// How many flips of the protected structures parity detects, of a recorded run.
pub fn parity_answer<L: Ledger, M: Ledger>(
    alloc: Global,
    protected: Protected,
    run: Recorded<'_>,
    steps: &mut Steps<L>,
    applies: &mut Steps<M>,
) -> Result<Vec<u8>, Refusal>
    requires { IsProgram run }
    ensures text { IsText (parity_due run.entry protected) result }
    ensures steps { steps.new ≤ steps.old + 2 * run.entry.cycles }
    ensures applies { applies.new ≤ applies.old + 34 * run.entry.instructions }
{
    let analysis = Analysis::new(alloc, run, steps, applies)?;
    parity_of(alloc, protected, &analysis, steps)
}
