// The counts of a run as text for people and as a table for programs.
//
// - text: the report;
// - table: the same counts as comma-separated values.
//
// Its worked rows are tests of run_rows.
#![tactic(auto)]

mod table;
mod text;

pub use table::report_csv;
pub use text::report_text;
