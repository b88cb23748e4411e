// The counts of a run, as comma-separated values.
ghost use Rattle.std.specs.Prelude.{◌≡◌, ◌++◌, ◌∷◌, [], IfOk, OnOk, codes, decimal, map, string_bytes};
ghost use Rattle.std.specs.List.{flat_map};
ghost use Rattle.csv.specs.Records.{fields_of, partial_of};
ghost use Rattle.avf_report.specs.Tables as tables;
ghost use Rattle.avf_report.specs.Texts.{rule_name};
ghost use Rattle.avf_report.specs.Writers.{IsReady, written};
ghost use Rattle.csv.specs.Writing.{default_writer, row_text};

use ace_class::{Counts, RULES, Rule, STRUCTURES};
use avf_base::OutOfMemory;
use bit_field::{Structure, structure_name};
use csv::{ByteRecord, Writer};
use std::alloc::{AllocError, Global};

fn rule_name(alloc: Global, rule: Rule) -> Result<String, AllocError>
    ensures { IfOk result (λ name. string_bytes name ≡ rule_name rule) }
{
    let number = rule.number();
    format!(in alloc; "U{number}")
}

// Adds to the row of names those of these rules.
fn push_names(alloc: Global, row: &mut ByteRecord, rules: &[Rule]) -> Result<(), AllocError>
    requires { partial_of row.old ≡ [] }
    ensures fields { OnOk result (fields_of row.new ≡ fields_of row.old ++ map rule_name rules.now) }
    ensures partial { OnOk result (partial_of row.new ≡ []) }
{
    for rule in rules {
        row.push_field(rule_name(alloc, *rule)?.as_bytes())?;
    }
    Ok(())
}

#[tactic(auto, unfolding(crate::specs::Tables::header))]
fn header_row(alloc: Global) -> Result<ByteRecord, AllocError>
    ensures { IfOk result (λ row. fields_of row ≡ tables.header) }
{
    let names = [
        "structure".as_bytes(),
        "bits".as_bytes(),
        "cycles".as_bytes(),
        "ace".as_bytes(),
        "ppm".as_bytes(),
    ];
    let mut row = ByteRecord::from_fields(alloc, &names)?;
    push_names(alloc, &mut row, &RULES)?;
    Ok(row)
}

fn push_number(alloc: Global, row: &mut ByteRecord, number: u64) -> Result<(), AllocError>
    requires { partial_of row.old ≡ [] }
    ensures fields { OnOk result (fields_of row.new ≡ fields_of row.old ++ decimal number ∷ []) }
    ensures partial { OnOk result (partial_of row.new ≡ []) }
{
    let digits = format!(in alloc; "{number}")?;
    row.push_field(digits.as_bytes())
}

fn push_numbers(alloc: Global, row: &mut ByteRecord, numbers: &[u64]) -> Result<(), AllocError>
    requires { partial_of row.old ≡ [] }
    ensures fields { OnOk result (fields_of row.new ≡ fields_of row.old ++ map decimal numbers.now) }
    ensures partial { OnOk result (partial_of row.new ≡ []) }
{
    for number in numbers {
        push_number(alloc, row, *number)?;
    }
    Ok(())
}

#[tactic(auto, unfolding(crate::specs::Tables::rule_field))]
fn push_rule(
    alloc: Global,
    row: &mut ByteRecord,
    counts: &Counts,
    s: Structure,
    rule: Rule,
) -> Result<(), AllocError>
    requires { partial_of row.old ≡ [] }
    ensures fields { OnOk result (fields_of row.new ≡ fields_of row.old ++ tables.rule_field counts.now s rule ∷ []) }
    ensures partial { OnOk result (partial_of row.new ≡ []) }
{
    push_number(alloc, row, counts.rule(s, &rule))
}

// Adds to a structure's row the pairs that are un-ACE by these rules.
fn push_rules(
    alloc: Global,
    row: &mut ByteRecord,
    counts: &Counts,
    s: Structure,
    rules: &[Rule],
) -> Result<(), AllocError>
    requires { partial_of row.old ≡ [] }
    ensures fields { OnOk result (fields_of row.new ≡ fields_of row.old ++ map (tables.rule_field counts.now s) rules.now) }
    ensures partial { OnOk result (partial_of row.new ≡ []) }
{
    for rule in rules {
        push_rule(alloc, row, counts, s, *rule)?;
    }
    Ok(())
}

#[tactic(auto, unfolding(crate::specs::Tables::structure_row))]
fn structure_row(alloc: Global, counts: &Counts, s: Structure) -> Result<ByteRecord, AllocError>
    ensures { IfOk result (λ row. fields_of row ≡ tables.structure_row counts.now s) }
{
    let bits = u64::from(counts.bits(s));
    let cycles = u64::from(counts.cycles());
    let ppm = u64::from(counts.ppm(s));
    let mut row = ByteRecord::new(alloc);
    row.push_field(structure_name(s).as_bytes())?;
    push_numbers(alloc, &mut row, &[bits, cycles, counts.ace(s), ppm])?;
    push_rules(alloc, &mut row, counts, s, &RULES)?;
    Ok(row)
}

// One row behind the others.
fn write_row(writer: &mut Writer<Vec<u8>>, row: &ByteRecord) -> Result<(), OutOfMemory>
    requires { IsReady writer.old }
    ensures ready { OnOk result (IsReady writer.new) }
    ensures text { OnOk result (written writer.new ≡ written writer.old ++ row_text default_writer (fields_of row.now)) }
{
    match writer.write_byte_record(row) {
        Ok(()) => Ok(()),
        // All rows have as many fields, so only memory was wanting.
        Err(_) => Err(OutOfMemory),
    }
}

#[tactic(auto, using(crate::proofs::Plain::structure_row_text))]
fn write_structure(
    alloc: Global,
    writer: &mut Writer<Vec<u8>>,
    counts: &Counts,
    s: Structure,
) -> Result<(), OutOfMemory>
    requires { IsReady writer.old }
    ensures ready { OnOk result (IsReady writer.new) }
    ensures text { OnOk result (written writer.new ≡ written writer.old ++ tables.row_of (tables.structure_row counts.now s)) }
{
    counts.is_counted();
    write_row(writer, &structure_row(alloc, counts, s)?)
}

// A row for each of these structures.
fn write_structures(
    alloc: Global,
    writer: &mut Writer<Vec<u8>>,
    counts: &Counts,
    structures: &[Structure],
) -> Result<(), OutOfMemory>
    requires { IsReady writer.old }
    ensures ready { OnOk result (IsReady writer.new) }
    ensures text { OnOk result (written writer.new
        ≡ written writer.old ++ flat_map (λ s. tables.row_of (tables.structure_row counts.now s)) structures.now) }
{
    for s in structures {
        write_structure(alloc, writer, counts, *s)?;
    }
    Ok(())
}

#[tactic(auto, using(crate::proofs::Plain::header_text))]
fn write_header(alloc: Global, writer: &mut Writer<Vec<u8>>) -> Result<(), OutOfMemory>
    requires { IsReady writer.old }
    ensures ready { OnOk result (IsReady writer.new) }
    ensures text { OnOk result (written writer.new ≡ written writer.old ++ tables.row_of tables.header) }
{
    write_row(writer, &header_row(alloc)?)
}

fn fresh_writer(alloc: Global) -> Writer<Vec<u8>>
    ensures ready { IsReady result }
    ensures empty { written result ≡ [] }
{
    Writer::from_writer(Vec::new(alloc))
}

// What a writer wrote.
fn taken(writer: Writer<Vec<u8>>) -> Result<Vec<u8>, OutOfMemory>
    ensures { IfOk result (λ table. table.items ≡ written writer) }
{
    match writer.into_inner() {
        Ok(table) => Ok(table),
        Err(_) => Err(OutOfMemory),
    }
}

/// The counts as comma-separated values: a row of names, and a row for each structure with its bits, the cycles of the run,
/// the pairs of a bit and a cycle that are ACE, their parts per million, and the pairs that are un-ACE by each rule.
#[tactic(auto, unfolding(crate::specs::Tables::report_csv_of))]
pub fn report_csv(alloc: Global, counts: &Counts) -> Result<Vec<u8>, OutOfMemory>
    ensures { IfOk result (λ table. table.items ≡ tables.report_csv_of counts.now) }
{
    let mut writer = fresh_writer(alloc);
    write_header(alloc, &mut writer)?;
    write_structures(alloc, &mut writer, counts, &STRUCTURES)?;
    taken(writer)
}
