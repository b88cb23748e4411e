// The assembler's spelling of an operation.
ghost use Rattle.std.specs.Prelude.{◌≡◌, ◌<◌, ◌∷◌, [], IfOk, codes, decimal, map, string_bytes};
ghost use Rattle.std.specs.Fmt.{signed_decimal};
ghost use Rattle.rv_table.specs.Texts.{HasText, at_address, mnemonic, register_name, register_names, text, three, two};
ghost use Rattle.std.specs.List.{concat};

use crate::{Form, Op, form_of, has_row, operation_of, row_of};
use std::alloc::{AllocError, Global};
use thiserror::Error;

/// There was no memory for a text.
#[derive(Clone, Copy, Debug, Error)]
#[error("out of memory")]
pub struct OutOfMemory;

impl From<AllocError> for OutOfMemory {
    fn from(_: AllocError) -> Self {
        OutOfMemory
    }
}

#[tactic(auto, using(crate::proofs::Spelled::spelling), unfolding(crate::specs::Texts::text, crate::specs::Texts::text_by))]
/// The mnemonic and the operands, as the assembler has them, with the offset in place of a label; `illegal` for code 0
/// and every code with no row, `fault` for code 1. Immediates and offsets are signed decimal numbers; LUI and AUIPC
/// show the upper 20 bits.
pub fn text(alloc: Global, op: &Op) -> Result<String, OutOfMemory>
    requires { HasText op.now }
    ensures { IfOk result (λ t. string_bytes t ≡ text op.now) }
{
    let name = mnemonic(op.code);
    if !has_row(op.code) {
        return alone(alloc, name);
    }
    let rd = register_name(op.rd);
    let rs1 = register_name(op.rs1);
    let rs2 = register_name(op.rs2);
    let imm = op.imm.cast_signed();
    match form_of(op.code) {
        Form::U => upper(alloc, name, rd, op.imm >> 12),
        Form::J => jump(alloc, name, rd, imm),
        Form::I if operation_of(op.code).names_address() => at_address(alloc, name, rd, imm, rs1),
        Form::I => with_number(alloc, name, rd, rs1, imm),
        Form::B => with_number(alloc, name, rs1, rs2, imm),
        Form::S => at_address(alloc, name, rs2, imm, rs1),
        Form::Shift => shift(alloc, name, rd, rs1, op.imm),
        Form::R => registers(alloc, name, rd, rs1, rs2),
        Form::Counter => counter(alloc, name, rd),
        Form::Call | Form::NoFields => alone(alloc, name),
    }
}

fn alone(alloc: Global, name: &str) -> Result<String, OutOfMemory>
    ensures { IfOk result (λ t. string_bytes t ≡ name.now) }
{
    Ok(format!(in alloc; "{name}")?)
}

fn counter(alloc: Global, name: &str, rd: &str) -> Result<String, OutOfMemory>
    ensures { IfOk result (λ t. string_bytes t ≡ concat (name.now ∷ codes " " ∷ rd.now ∷ [])) }
{
    Ok(format!(in alloc; "{name} {rd}")?)
}

fn upper(alloc: Global, name: &str, rd: &str, number: u32) -> Result<String, OutOfMemory>
    ensures { IfOk result (λ t. string_bytes t ≡ two name.now rd.now (decimal number)) }
{
    Ok(format!(in alloc; "{name} {rd}, {number}")?)
}

fn jump(alloc: Global, name: &str, rd: &str, offset: i32) -> Result<String, OutOfMemory>
    ensures { IfOk result (λ t. string_bytes t ≡ two name.now rd.now (signed_decimal offset)) }
{
    Ok(format!(in alloc; "{name} {rd}, {offset}")?)
}

fn at_address(
    alloc: Global,
    name: &str,
    first: &str,
    offset: i32,
    base: &str,
) -> Result<String, OutOfMemory>
    ensures { IfOk result (λ t. string_bytes t ≡ at_address name.now first.now (signed_decimal offset) base.now) }
{
    Ok(format!(in alloc; "{name} {first}, {offset}({base})")?)
}

fn with_number(
    alloc: Global,
    name: &str,
    first: &str,
    second: &str,
    number: i32,
) -> Result<String, OutOfMemory>
    ensures { IfOk result (λ t. string_bytes t ≡ three name.now first.now second.now (signed_decimal number)) }
{
    Ok(format!(in alloc; "{name} {first}, {second}, {number}")?)
}

fn shift(
    alloc: Global,
    name: &str,
    first: &str,
    second: &str,
    amount: u32,
) -> Result<String, OutOfMemory>
    ensures { IfOk result (λ t. string_bytes t ≡ three name.now first.now second.now (decimal amount)) }
{
    Ok(format!(in alloc; "{name} {first}, {second}, {amount}")?)
}

fn registers(
    alloc: Global,
    name: &str,
    first: &str,
    second: &str,
    third: &str,
) -> Result<String, OutOfMemory>
    ensures { IfOk result (λ t. string_bytes t ≡ three name.now first.now second.now third.now) }
{
    Ok(format!(in alloc; "{name} {first}, {second}, {third}")?)
}

/// The names of the registers, in their order.
static REGISTER_NAMES: [&str; 32] = [
    "zero", "ra", "sp", "gp", "tp", "t0", "t1", "t2", "s0", "s1", "a0", "a1", "a2", "a3", "a4",
    "a5", "a6", "a7", "s2", "s3", "s4", "s5", "s6", "s7", "s8", "s9", "s10", "s11", "t3", "t4",
    "t5", "t6",
];

fn register_names() -> &'static [&'static str]
    ensures { map (λ name. name.now) result.now ≡ register_names }
{
    &REGISTER_NAMES
}

#[tactic(auto, using(crate::proofs::Spelled::naming))]
/// The name of a register, 0 to 31, as the assembler has it.
pub fn register_name(register: u8) -> &'static str
    requires { register < 32 }
    ensures { result.now ≡ register_name register }
{
    register_names()[register as usize]
}

#[tactic(auto, unfolding(crate::specs::Texts::mnemonic))]
/// The mnemonic of a code.
fn mnemonic(code: u8) -> &'static str
    ensures { result.now ≡ mnemonic code }
{
    row_of(code).mnemonic
}
