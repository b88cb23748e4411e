//! Layout: how many bytes each line has, where it stands, and where each label is.
ghost use Rattle.std.specs.Prelude.{◌≡◌, ◌<◌, ◌≤◌, ◌+◌, ◌*◌, ◌^◌, ℕ, List, IfOk, OnOk, Some, None, bytes_eq, if◌then◌else◌, length, unsigned_abs};
ghost use Rattle.std.specs.Option.{option_or};
ghost use Rattle.rv_asm.specs.Labels.{found};
ghost use Rattle.rv_asm.specs.Layout as spec;
ghost use Rattle.rv_asm.specs.Lines.{lines};
ghost use Rattle.rv_asm.specs.Shown.{shown, shown_line, shown_lines};

use crate::fault::Fault;
use crate::line::{Line, line_of, next_line};
use crate::statement::Statement;
use elf_write::{DATA_BASE, DATA_ROOM, TEXT_BASE};
use std::alloc::{AllocError, Global};
use std::collections::HashMap;

/// The most bytes that a source can have.
pub const SOURCE_ROOM: usize = 1_048_576;

/// The most bytes that a line adds to a part.
const LINE_SIZE: u64 = 524_288;

/// Where a line stands: in which part, behind how many bytes of each.
#[derive(Clone, Copy)]
pub struct Cursor {
    pub in_data: bool,
    pub text_size: u64,
    pub data_size: u64,
}

/// Where a label stands: the line that defines it, its part and its byte address.
#[derive(Clone, Copy)]
pub struct Place {
    pub line: u32,
    pub in_data: bool,
    pub address: u64,
}

/// Whether a number is from `low` to `high`.
pub fn is_within(low: i64, high: i64, n: i64) -> bool
    ensures { result ≡ spec.is_within low high n }
{
    !(n < low) && !(high < n)
}

/// Whether ADDI adds the number.
pub fn is_short(n: i64) -> bool
    ensures { result ≡ spec.is_short n }
{
    is_within(-2_048, 2_047, n)
}

/// Whether the data part has room for so many zero bytes.
pub fn is_space(n: i64) -> bool
    ensures { result ≡ spec.is_space n }
{
    is_within(0, DATA_ROOM as i64, n)
}

fn space_size(n: i64) -> u64
    ensures size { result ≡ (if spec.is_space n then unsigned_abs n else 0) }
    ensures within { result ≤ LINE_SIZE }
{
    if is_space(n) { n.unsigned_abs() } else { 0 }
}

/// How many bytes a statement has.
#[tactic(auto, unfolding(crate::specs::Layout::size))]
pub fn size(statement: &Statement) -> u64
    ensures size { result ≡ spec.size (shown statement.now) }
    ensures within { result ≤ LINE_SIZE }
{
    match *statement {
        Statement::Blank | Statement::Part(_) => 0,
        Statement::DataByte(_) => 1,
        Statement::DataSpace(n) => space_size(n),
        Statement::DataWord(_) | Statement::Ready(_) => 4,
        Statement::WithNumber(_, _) | Statement::WithLabel(_, _) => 4,
        Statement::NumberInto(_, n) => { if is_short(n) { 4 } else { 8 } }
        Statement::AddressInto(_, _) => 8,
    }
}

fn part_after(in_data: bool, statement: &Statement) -> bool
    ensures { result ≡ spec.part_after in_data (shown statement.now) }
{
    match *statement {
        Statement::Part(part) => part,
        _ => in_data,
    }
}

/// So many bytes further.
#[tactic(auto, unfolding(crate::specs::Layout::grown))]
fn grown(cursor: Cursor, bytes: u64) -> Cursor
    requires text { cursor.text_size + bytes < 2 ^ 64 }
    requires data_room { cursor.data_size + bytes < 2 ^ 64 }
    ensures cursor { result ≡ spec.grown cursor bytes }
    ensures text { result.text_size ≤ cursor.text_size + bytes }
    ensures data_room { result.data_size ≤ cursor.data_size + bytes }
{
    if cursor.in_data {
        Cursor {
            data_size: cursor.data_size + bytes,
            ..cursor
        }
    } else {
        Cursor {
            text_size: cursor.text_size + bytes,
            ..cursor
        }
    }
}

/// The cursor behind a line.
#[tactic(auto, unfolding(crate::specs::Layout::passed))]
pub fn passed(cursor: Cursor, line: &Result<Line, Fault>) -> Cursor
    requires text { cursor.text_size + LINE_SIZE < 2 ^ 64 }
    requires data_room { cursor.data_size + LINE_SIZE < 2 ^ 64 }
    ensures cursor { result ≡ spec.passed cursor (shown_lines line.now) }
    ensures text { result.text_size ≤ cursor.text_size + LINE_SIZE }
    ensures data_room { result.data_size ≤ cursor.data_size + LINE_SIZE }
{
    match line {
        Ok(line) => Cursor {
            in_data: part_after(cursor.in_data, &line.statement),
            ..grown(cursor, size(&line.statement))
        },
        Err(_) => grown(cursor, 4),
    }
}

/// The byte address at a cursor.
#[tactic(auto, unfolding(crate::specs::Layout::address))]
pub fn address(cursor: Cursor) -> u64
    requires text { cursor.text_size < 2 ^ 40 }
    requires data_room { cursor.data_size < 2 ^ 40 }
    ensures { result ≡ spec.address cursor }
{
    if cursor.in_data {
        u64::from(DATA_BASE) + cursor.data_size
    } else {
        u64::from(TEXT_BASE) + cursor.text_size
    }
}

/// Where a label stands.
pub fn find(labels: &HashMap<&[u8], Place>, name: &[u8]) -> Option<Place>
    ensures { result ≡ found labels.now name.now }
{
    labels.get(name).copied()
}

/// Defines a label, unless it is defined.
fn define<'s>(
    labels: &mut HashMap<&'s [u8], Place>,
    name: &'s [u8],
    place: Place,
) -> Result<(), AllocError>
    ensures { OnOk result ((q : List ℕ) → found labels.new q ≡ option_or (found labels.old q) (if bytes_eq q name.now then Some place else None)) }
{
    match find(labels, name) {
        Some(_) => Ok(()),
        None => {
            labels.insert(name, place)?;
            Ok(())
        }
    }
}

/// Defines the label of a line, if it has one.
#[tactic(auto, using(crate::proofs::LayingOut::adding), unfolding(crate::specs::Layout::first_of))]
fn define_in<'s>(
    labels: &mut HashMap<&'s [u8], Place>,
    cursor: Cursor,
    number: u32,
    line: &Result<Line<'s>, Fault>,
) -> Result<(), AllocError>
    requires text { cursor.text_size < 2 ^ 40 }
    requires data_room { cursor.data_size < 2 ^ 40 }
    ensures { OnOk result ((q : List ℕ) → found labels.new q
        ≡ option_or (found labels.old q) (spec.first_of q (spec.defined cursor number (shown_lines line.now)))) }
{
    let name = match line {
        Ok(line) => line.name,
        Err(_) => None,
    };
    match name {
        Some(name) => {
            let place = Place {
                line: number,
                in_data: cursor.in_data,
                address: address(cursor),
            };
            define(labels, name, place)
        }
        None => Ok(()),
    }
}

/// Where the labels of a source are, and the cursor behind its last line.
#[derive(Drop)]
pub struct Layout<'s> {
    pub labels: HashMap<&'s [u8], Place>,
    pub end: Cursor,
}

/// Lays a source out.
pub fn lay_out<'s>(alloc: Global, source: &'s [u8]) -> Result<Layout<'s>, AllocError>
    requires { length source.now ≤ SOURCE_ROOM }
    ensures labels { IfOk result (λ l. (q : List ℕ) → found l.labels q ≡ spec.place_of source.now q) }
    ensures end { IfOk result (λ l. l.end ≡ spec.end_of spec.start (lines source.now)) }
{
    let mut labels = HashMap::new(alloc);
    let mut cursor = Cursor {
        in_data: false,
        text_size: 0,
        data_size: 0,
    };
    let mut number = 1;
    let mut rest = source;
    while !rest.is_empty() {
        let (bytes, behind) = next_line(rest);
        let line = line_of(cursor.in_data, bytes);
        define_in(&mut labels, cursor, number, &line)?;
        cursor = passed(cursor, &line);
        number += 1;
        rest = behind;
    }
    Ok(Layout {
        labels,
        end: cursor,
    })
}
