//! The first fault of a source.
ghost use Rattle.std.specs.Prelude.{◌≡◌, ◌<◌, ◌≤◌, ◌^◌, option_and_then, option_map, length};
ghost use Rattle.rv_asm.specs.Faults as spec;
ghost use Rattle.rv_asm.specs.Labels.{found};
ghost use Rattle.rv_asm.specs.Layout.{start};
ghost use Rattle.rv_asm.specs.Lines.{lines};
ghost use Rattle.rv_asm.specs.Shown.{shown, shown_fault, shown_line, shown_lines};

use crate::fault::Fault;
use crate::layout::{
    Cursor, Place, SOURCE_ROOM, address, find, is_short, is_space, is_within, passed,
};
use crate::line::{Line, line_of, next_line};
use crate::statement::Statement;
use rv_table::{Form, form_of};
use std::collections::HashMap;

/// How far a branch goes back, and one byte less than that it goes on, in bytes.
pub const BRANCH_REACH: u64 = 4_096;

/// The same of a jump.
pub const JUMP_REACH: u64 = 1_048_576;

/// A fault and its line, from 1 on.
#[derive(Clone, Copy)]
pub struct LineFault {
    pub line: u32,
    pub fault: Fault,
}

fn is_word(n: i64) -> bool
    ensures { result ≡ spec.is_word n }
{
    is_within(-2_147_483_648, 4_294_967_295, n)
}

fn is_byte(n: i64) -> bool
    ensures { result ≡ spec.is_byte n }
{
    is_within(-128, 255, n)
}

/// Whether the immediate of a form can be this number.
fn in_range(form: Form, n: i64) -> bool
    ensures { result ≡ spec.in_range form n }
{
    match form {
        Form::U => is_within(0, 0xF_FFFF, n),
        Form::Shift => is_within(0, 31, n),
        Form::J
        | Form::I
        | Form::B
        | Form::S
        | Form::R
        | Form::Call
        | Form::Counter
        | Form::NoFields => is_short(n),
    }
}

/// Whether a number is out of its range.
#[tactic(auto, unfolding(crate::specs::Faults::is_out_of_range))]
fn is_out_of_range(statement: &Statement) -> bool
    ensures { result ≡ spec.is_out_of_range (shown statement.now) }
{
    match *statement {
        Statement::DataWord(n) | Statement::NumberInto(_, n) => !is_word(n),
        Statement::DataByte(n) => !is_byte(n),
        Statement::DataSpace(n) => !is_space(n),
        Statement::WithNumber(op, n) => !in_range(form_of(op.code), n),
        Statement::Blank | Statement::Part(_) | Statement::Ready(_) => false,
        Statement::WithLabel(_, _) | Statement::AddressInto(_, _) => false,
    }
}

/// Whether an offset is even, from `reach` bytes back to less than `reach` bytes on.
fn reaches(reach: u64, origin: u64, goal: u64) -> bool
    ensures { result ≡ spec.reaches reach origin goal }
{
    if origin % 2 != goal % 2 {
        return false;
    }
    if origin <= goal {
        goal - origin < reach
    } else {
        origin - goal <= reach
    }
}

fn reach_of(form: Form) -> u64
    ensures { result ≡ spec.reach_of form }
{
    match form {
        Form::B => BRANCH_REACH,
        _ => JUMP_REACH,
    }
}

/// Whether a branch or a jump doesn't reach its target.
#[tactic(auto, unfolding(crate::specs::Faults::misses))]
fn misses(origin: u64, target: Option<Place>, statement: &Statement) -> bool
    ensures { result ≡ spec.misses origin target (shown statement.now) }
{
    match (target, *statement) {
        (Some(place), Statement::WithLabel(op, _)) => {
            !reaches(reach_of(form_of(op.code)), origin, place.address)
        }
        _ => false,
    }
}

fn is_again(number: u32, own: Option<Place>) -> bool
    ensures { result ≡ spec.is_again number own }
{
    match own {
        Some(own) => own.line != number,
        None => false,
    }
}

fn is_start(name: Option<&[u8]>) -> bool
    ensures { result ≡ spec.is_start (option_map (λ n. n.now) name.entry) }
{
    match name {
        Some(name) => name == b"_start".as_slice(),
        None => false,
    }
}

fn is_bad_place(number: u32, own: Option<Place>) -> bool
    ensures { result ≡ spec.is_bad_place number own }
{
    match own {
        Some(own) => own.line == number && (own.in_data || own.address % 4 != 0),
        None => false,
    }
}

/// The label that a statement uses.
pub fn target_of<'s>(statement: &Statement<'s>) -> Option<&'s [u8]>
    ensures { option_map (λ t. t.now) result ≡ spec.target_of (shown statement.now) }
{
    match *statement {
        Statement::WithLabel(_, target) | Statement::AddressInto(_, target) => Some(target),
        _ => None,
    }
}

/// Where a label stands, if there is one.
pub fn find_any(labels: &HashMap<&[u8], Place>, name: Option<&[u8]>) -> Option<Place>
    ensures { result ≡ option_and_then (found labels.now) (option_map (λ n. n.now) name.entry) }
{
    match name {
        Some(name) => find(labels, name),
        None => None,
    }
}

fn is_missing(name: Option<&[u8]>, target: Option<Place>) -> bool
    ensures { result ≡ spec.is_missing (option_map (λ n. n.now) name.entry) target }
{
    match (name, target) {
        (Some(_), None) => true,
        _ => false,
    }
}

/// The first fault from `OutOfRange` on of a line, where its label and its target stand as given.
#[tactic(auto, unfolding(crate::specs::Faults::later_fault))]
fn later_fault(
    own: Option<Place>,
    target: Option<Place>,
    cursor: Cursor,
    number: u32,
    line: &Line,
) -> Option<Fault>
    requires text { cursor.text_size < 2 ^ 40 }
    requires data_room { cursor.data_size < 2 ^ 40 }
    ensures { result ≡ spec.later_fault own target cursor number (shown_line line.now) }
{
    if is_out_of_range(&line.statement)
        || misses(address(cursor), target, &line.statement)
        || is_start(line.name) && is_bad_place(number, own)
    {
        Some(Fault::OutOfRange)
    } else if is_again(number, own) {
        Some(Fault::DefinedTwice)
    } else if is_missing(target_of(&line.statement), target) {
        Some(Fault::Undefined)
    } else {
        None
    }
}

/// The first fault of a line.
#[tactic(auto, unfolding(crate::specs::Faults::fault_of))]
fn fault_of(
    labels: &HashMap<&[u8], Place>,
    cursor: Cursor,
    number: u32,
    line: &Result<Line, Fault>,
) -> Option<Fault>
    requires text { cursor.text_size < 2 ^ 40 }
    requires data_room { cursor.data_size < 2 ^ 40 }
    ensures { result ≡ spec.fault_of (found labels.now) cursor number (shown_lines line.now) }
{
    match line {
        Ok(line) => {
            let own = find_any(labels, line.name);
            let target = find_any(labels, target_of(&line.statement));
            later_fault(own, target, cursor, number, line)
        }
        Err(fault) => Some(*fault),
    }
}

/// The least line with a fault, and its first fault.
pub fn first_fault(source: &[u8], labels: &HashMap<&[u8], Place>) -> Option<LineFault>
    requires { length source.now ≤ SOURCE_ROOM }
    ensures { shown_fault result ≡ spec.first_fault (found labels.now) start 1 (lines source.now) }
{
    let mut cursor = Cursor {
        in_data: false,
        text_size: 0,
        data_size: 0,
    };
    let mut number = 1;
    let mut rest = source;
    while !rest.is_empty() {
        let (bytes, behind) = next_line(rest);
        let line = line_of(cursor.in_data, bytes);
        if let Some(fault) = fault_of(labels, cursor, number, &line) {
            return Some(LineFault {
                line: number,
                fault,
            });
        }
        cursor = passed(cursor, &line);
        number += 1;
        rest = behind;
    }
    None
}
