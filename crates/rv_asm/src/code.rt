//! The instructions and the bytes of each statement.
ghost use Rattle.std.specs.Prelude.{◌≡◌, ◌<◌, ◌≤◌, ◌^◌, ◌++◌, ◌∷◌, [], ◌+◌, ◌*◌, ◌%◌, IfOk, IsTrue, None, OnOk, false, true, length, replicate, unsigned_abs};
ghost use Rattle.std.specs.List.{AllByRecursion, flat_map};
ghost use Rattle.std.specs.Int.{to_le_bytes, w32};
ghost use Rattle.elf_write.specs.Code.{IsCoded, op_bytes};
ghost use Rattle.rv_table.specs.WellFormed.{well_formed};
ghost use Rattle.rv_table.specs.Words.{sign_extended};
ghost use Rattle.rv_table.specs.Operations.{form_of};
ghost use Rattle.rv_asm.specs.Faults.{fault_of, first_fault, in_range, is_missing, is_out_of_range, misses, reach_of, reaches, target_of};
ghost use Rattle.rv_asm.specs.Labels.{found};
ghost use Rattle.rv_asm.specs.Layout.{end_of, start};
ghost use Rattle.rv_asm.specs.Lines.{lines};
ghost use Rattle.rv_asm.specs.Program as spec;
ghost use Rattle.rv_asm.specs.Shown.{shown, shown_lines};
ghost use Rattle.rv_asm.specs.Sound.{IsReadyFor, IsSound, takes_number, takes_offset};

use crate::fault::Fault;
use crate::layout::{Cursor, Place, SOURCE_ROOM, address, is_short, passed};
use crate::line::{Line, line_of, next_line};
use crate::search::{find_any, target_of};
use crate::statement::Statement;
use elf_write::put_op;
use rv_table::{Form, Op, codes, form_of};
use std::alloc::{AllocError, Global};
use std::collections::HashMap;

/// A number modulo 2^32 (two's complement).
fn unsigned(n: i64) -> u32
    ensures { result ≡ spec.unsigned n }
{
    (n.cast_unsigned() % 0x1_0000_0000) as u32
}

fn with_immediate(op: Op, imm: u32) -> Op
    ensures { result ≡ spec.with_immediate op imm }
{
    Op { imm, ..op }
}

/// The immediate of a form that a number in the source gives.
fn immediate_of(form: Form, n: i64) -> u32
    ensures { result ≡ spec.immediate_of form n }
{
    match form {
        Form::U => (u64::from(unsigned(n)) * 0x1000 % 0x1_0000_0000) as u32,
        Form::J
        | Form::I
        | Form::B
        | Form::S
        | Form::Shift
        | Form::R
        | Form::Call
        | Form::Counter
        | Form::NoFields => unsigned(n),
    }
}

/// How far the goal is from the origin, as a 32-bit offset.
fn offset(origin: u64, goal: u64) -> u32
    requires on { goal < origin + 2 ^ 32 }
    requires back { origin ≤ goal + 2 ^ 31 }
    ensures { result ≡ spec.offset origin goal }
{
    if origin <= goal {
        (goal - origin) as u32
    } else {
        (0x1_0000_0000 - (origin - goal)) as u32
    }
}

/// LUI of the pair that puts a number into a register.
fn upper_of(rd: u8, n: u64) -> Op
    requires { n < 2 ^ 63 }
    ensures { result ≡ spec.upper_of rd n }
{
    let upper = (n + 0x800) / 0x1000 % 0x10_0000;
    with_immediate(
        Op::of_registers(codes::LUI, rd, 0, 0),
        upper as u32 * 0x1000,
    )
}

fn signed_12(n: u32) -> u32
    requires { n < 2 ^ 12 }
    ensures { result ≡ sign_extended 12 n }
{
    if n < 0x800 { n } else { n + 0xFFFF_F000 }
}

/// ADDI of that pair.
fn lower_of(rd: u8, n: u64) -> Op
    ensures { result ≡ spec.lower_of rd n }
{
    let lower = (n % 0x1000) as u32;
    with_immediate(Op::of_registers(codes::ADDI, rd, rd, 0), signed_12(lower))
}

/// Puts an instruction with a number for its immediate.
#[tactic(auto, using(crate::proofs::Immediates::number_fits))]
fn put_number(text_part: &mut Vec<u8>, op: Op, n: i64) -> Result<(), AllocError>
    requires ready { IsReadyFor takes_number op }
    requires range { in_range (form_of op.code) n ≡ true }
    ensures bytes { OnOk result (text_part.new.items ≡ text_part.old.items ++ op_bytes (spec.with_immediate op (spec.immediate_of (form_of op.code) n))) }
    ensures coded { OnOk result (IsCoded (spec.with_immediate op (spec.immediate_of (form_of op.code) n))) }
{
    put_op(
        text_part,
        &with_immediate(op, immediate_of(form_of(op.code), n)),
    )
}

/// Puts a branch or a jump to a goal that it reaches.
#[tactic(auto, using(crate::proofs::Immediates::reaching))]
fn put_label(text_part: &mut Vec<u8>, op: Op, origin: u64, goal: u64) -> Result<(), AllocError>
    requires ready { IsReadyFor takes_offset op }
    requires reached { reaches (reach_of (form_of op.code)) origin goal ≡ true }
    ensures bytes { OnOk result (text_part.new.items ≡ text_part.old.items ++ op_bytes (spec.with_immediate op (spec.offset origin goal))) }
    ensures coded { OnOk result (IsCoded (spec.with_immediate op (spec.offset origin goal))) }
{
    put_op(text_part, &with_immediate(op, offset(origin, goal)))
}

/// Puts LUI and ADDI that put a number into a register.
#[tactic(auto, using(crate::proofs::Immediates::pair_fits))]
fn put_pair(text_part: &mut Vec<u8>, rd: u8, n: u64) -> Result<(), AllocError>
    requires register { rd < 32 }
    requires number { n < 2 ^ 63 }
    ensures bytes { OnOk result (text_part.new.items ≡ text_part.old.items ++ flat_map op_bytes (spec.pair rd n)) }
    ensures coded { OnOk result (AllByRecursion IsCoded (spec.pair rd n)) }
{
    put_op(text_part, &upper_of(rd, n))?;
    put_op(text_part, &lower_of(rd, n))
}

/// Puts the instructions that put a number into a register.
#[tactic(auto, using(crate::proofs::Immediates::short_fits))]
fn put_number_into(text_part: &mut Vec<u8>, rd: u8, n: i64) -> Result<(), AllocError>
    requires { rd < 32 }
    ensures bytes { OnOk result (text_part.new.items ≡ text_part.old.items ++ flat_map op_bytes (spec.number_into rd n)) }
    ensures coded { OnOk result (AllByRecursion IsCoded (spec.number_into rd n)) }
{
    if is_short(n) {
        put_op(
            text_part,
            &with_immediate(Op::of_registers(codes::ADDI, rd, 0, 0), unsigned(n)),
        )
    } else {
        put_pair(text_part, rd, u64::from(unsigned(n)))
    }
}

pub fn address_or(none: u64, place: Option<Place>) -> u64
    ensures { result ≡ spec.address_or none place }
{
    match place {
        Some(place) => place.address,
        None => none,
    }
}

/// Puts the instructions of a statement at a byte address, whose label stands at the target.
#[tactic(auto, unfolding(crate::specs::Program::ops_of, crate::specs::Faults::is_out_of_range), using(crate::proofs::Emitting::reached))]
fn put_code(
    text_part: &mut Vec<u8>,
    origin: u64,
    target: Option<Place>,
    statement: &Statement,
) -> Result<(), AllocError>
    requires sound { IsSound (shown statement.now) }
    requires range { is_out_of_range (shown statement.now) ≡ false }
    requires near { misses origin target (shown statement.now) ≡ false }
    requires known { is_missing (target_of (shown statement.now)) target ≡ false }
    ensures bytes { OnOk result (text_part.new.items ≡ text_part.old.items
        ++ flat_map op_bytes (spec.ops_of origin (spec.address_or 0 target) (shown statement.now))) }
    ensures coded { OnOk result (AllByRecursion IsCoded (spec.ops_of origin (spec.address_or 0 target) (shown statement.now))) }
{
    let goal = address_or(0, target);
    match *statement {
        Statement::Ready(op) => put_op(text_part, &op),
        Statement::WithNumber(op, n) => put_number(text_part, op, n),
        Statement::WithLabel(op, _) => put_label(text_part, op, origin, goal),
        Statement::NumberInto(rd, n) => put_number_into(text_part, rd, n),
        Statement::AddressInto(rd, _) => put_pair(text_part, rd, goal % 0x1_0000_0000),
        Statement::Blank | Statement::Part(_) => Ok(()),
        Statement::DataWord(_) | Statement::DataByte(_) | Statement::DataSpace(_) => Ok(()),
    }
}

fn put_word(data_part: &mut Vec<u8>, n: i64) -> Result<(), AllocError>
    ensures { OnOk result (data_part.new.items ≡ data_part.old.items ++ to_le_bytes w32 (spec.unsigned n)) }
{
    data_part.extend_from_slice(&unsigned(n).to_le_bytes())
}

fn put_byte(data_part: &mut Vec<u8>, n: i64) -> Result<(), AllocError>
    ensures { OnOk result (data_part.new.items ≡ data_part.old.items ++ spec.unsigned n % 2 ^ 8 ∷ []) }
{
    data_part.push((unsigned(n) % 0x100) as u8)?;
    Ok(())
}

fn put_zeros(data_part: &mut Vec<u8>, count: u64) -> Result<(), AllocError>
    requires small { count < 2 ^ 20 }
    requires room { length data_part.old.items < 2 ^ 40 }
    ensures { OnOk result (data_part.new.items ≡ data_part.old.items ++ replicate count 0) }
{
    let size = data_part.len() + count as usize;
    data_part.resize(size, 0)
}

/// Puts the bytes of a statement in the data part.
#[tactic(auto, unfolding(crate::specs::Program::bytes_of, crate::specs::Faults::is_out_of_range), using(crate::proofs::Emitting::space_small))]
fn put_bytes(data_part: &mut Vec<u8>, statement: &Statement) -> Result<(), AllocError>
    requires range { is_out_of_range (shown statement.now) ≡ false }
    requires room { length data_part.old.items < 2 ^ 40 }
    ensures { OnOk result (data_part.new.items ≡ data_part.old.items ++ spec.bytes_of (shown statement.now)) }
{
    match *statement {
        Statement::DataWord(n) => put_word(data_part, n),
        Statement::DataByte(n) => put_byte(data_part, n),
        Statement::DataSpace(n) => put_zeros(data_part, n.unsigned_abs()),
        Statement::Blank | Statement::Part(_) | Statement::Ready(_) => Ok(()),
        Statement::WithNumber(_, _) | Statement::WithLabel(_, _) => Ok(()),
        Statement::NumberInto(_, _) | Statement::AddressInto(_, _) => Ok(()),
    }
}

/// Puts the instructions or the bytes of a line that has no fault.
#[tactic(auto, unfolding(crate::specs::Faults::fault_of), using(crate::proofs::Emitting::allowed))]
fn put_line(
    text_part: &mut Vec<u8>,
    data_part: &mut Vec<u8>,
    labels: &HashMap<&[u8], Place>,
    cursor: Cursor,
    number: u32,
    line: &Result<Line, Fault>,
) -> Result<(), AllocError>
    requires faultless { fault_of (found labels.now) cursor number (shown_lines line.now) ≡ None }
    requires sound { IfOk line.now (λ l. IsSound (shown l.statement)) }
    requires text { cursor.text_size < 2 ^ 40 }
    requires data_room { cursor.data_size < 2 ^ 40 }
    requires room { length data_part.old.items < 2 ^ 40 }
    ensures code { OnOk result (text_part.new.items ≡ text_part.old.items
        ++ flat_map op_bytes (spec.line_ops (found labels.now) cursor (shown_lines line.now))) }
    ensures coded { OnOk result (AllByRecursion IsCoded (spec.line_ops (found labels.now) cursor (shown_lines line.now))) }
    ensures contents { OnOk result (data_part.new.items ≡ data_part.old.items ++ spec.line_bytes (shown_lines line.now)) }
{
    match line {
        Ok(line) => {
            let target = find_any(labels, target_of(&line.statement));
            put_code(text_part, address(cursor), target, &line.statement)?;
            put_bytes(data_part, &line.statement)
        }
        Err(_) => Ok(()),
    }
}

/// The two parts of a program.
#[derive(Drop)]
pub struct Parts {
    pub text_part: Vec<u8>,
    pub data_part: Vec<u8>,
}

/// The parts of a source that has no fault on a line.
pub fn put_lines(
    alloc: Global,
    source: &[u8],
    labels: &HashMap<&[u8], Place>,
) -> Result<Parts, AllocError>
    requires small { length source.now ≤ SOURCE_ROOM }
    requires faultless { first_fault (found labels.now) start 1 (lines source.now) ≡ None }
    ensures code { IfOk result (λ p. p.text_part.items ≡ flat_map op_bytes (spec.ops_in (found labels.now) start (lines source.now))) }
    ensures coded { OnOk result (AllByRecursion IsCoded (spec.ops_in (found labels.now) start (lines source.now))) }
    ensures contents { IfOk result (λ p. p.data_part.items ≡ spec.bytes_in start (lines source.now)) }
    ensures text_size { IfOk result (λ p. length p.text_part.items ≡ (end_of start (lines source.now)).text_size) }
    ensures data_size { IfOk result (λ p. length p.data_part.items ≡ (end_of start (lines source.now)).data_size) }
{
    let mut text_part = Vec::new(alloc);
    let mut data_part = Vec::new(alloc);
    let mut cursor = Cursor {
        in_data: false,
        text_size: 0,
        data_size: 0,
    };
    let mut number = 1;
    let mut rest = source;
    while !rest.is_empty() {
        let (bytes, behind) = next_line(rest);
        let line = line_of(cursor.in_data, bytes);
        put_line(
            &mut text_part,
            &mut data_part,
            labels,
            cursor,
            number,
            &line,
        )?;
        cursor = passed(cursor, &line);
        number += 1;
        rest = behind;
    }
    Ok(Parts {
        text_part,
        data_part,
    })
}
