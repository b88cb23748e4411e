//! Statements: what the keyword and the operands of a line mean.
ghost use Rattle.std.specs.Prelude.{◌≡◌, ◌<◌, true, IfSome, IsTrue, option_map};
ghost use Rattle.rv_table.specs.Operations.{form_of, has_row};
ghost use Rattle.rv_table.specs.declared.form.Form.TheVariants as form;
ghost use Rattle.rv_asm.specs.Shown.{shown};
ghost use Rattle.rv_table.specs.WellFormed.{well_formed};
ghost use Rattle.rv_asm.specs.Sound.{IsSound, branches, is_known, takes_two};
ghost use Rattle.rv_asm.specs.Statements.{Ready};
ghost use Rattle.rv_asm.specs.Statements as spec;
ghost use Rattle.rv_asm.specs.Tokens.{tokens};

use crate::keyword::Keyword;
use crate::names::{label, register};
use crate::numbers::number;
use crate::tokens::{address, end, one, three, two};
use rv_table::{Form, Op, codes, form_of, operation_of};

/// The register of a return address.
pub const RA: u8 = 1;

/// The registers that ECALL reads.
pub const A0: u8 = 10;

pub const A7: u8 = 17;

/// What a line says but for its label. Labels are words of the line.
#[derive(Clone, Copy)]
pub enum Statement<'s> {
    /// No statement.
    Blank,
    /// The part that the lines behind stand in: the data part or the text part.
    Part(bool),
    /// A word of the data part.
    DataWord(i64),
    /// A byte of the data part.
    DataByte(i64),
    /// So many zero bytes of the data part.
    DataSpace(i64),
    /// An instruction.
    Ready(Op),
    /// An instruction with a number for its immediate, which is 0 as yet.
    WithNumber(Op, i64),
    /// A branch or a jump to a label, whose offset is 0 as yet.
    WithLabel(Op, &'s [u8]),
    /// A register, and the number that is put into it.
    NumberInto(u8, i64),
    /// A register, and the label whose address is put into it.
    AddressInto(u8, &'s [u8]),
}

/// rd, n
#[tactic(auto, unfolding(crate::specs::Statements::upper), using(crate::proofs::Sound::sound_u))]
fn upper<'s>(code: u8, text: &'s [u8]) -> Option<Statement<'s>>
    requires row { has_row code ≡ true }
    requires form { form_of code ≡ form.U }
    ensures statement { option_map shown result ≡ spec.upper code (tokens text.now) }
    ensures sound { IfSome result (λ s. IsSound (shown s)) }
{
    match two(text) {
        None => None,
        Some((rd, n)) => match register(rd) {
            None => None,
            Some(rd) => match number(n) {
                None => None,
                Some(n) => Some(Statement::WithNumber(Op::of_registers(code, rd, 0, 0), n)),
            },
        },
    }
}

/// rd, label
#[tactic(auto, unfolding(crate::specs::Statements::jump), using(crate::proofs::Sound::sound_j))]
fn jump<'s>(code: u8, text: &'s [u8]) -> Option<Statement<'s>>
    requires row { has_row code ≡ true }
    requires form { form_of code ≡ form.J }
    ensures statement { option_map shown result ≡ spec.jump code (tokens text.now) }
    ensures sound { IfSome result (λ s. IsSound (shown s)) }
{
    let (rd, target) = two(text)?;
    match (register(rd), label(target)) {
        (Some(rd), Some(target)) => Some(Statement::WithLabel(
            Op::of_registers(code, rd, 0, 0),
            target,
        )),
        _ => None,
    }
}

/// rd, rs1, n
#[tactic(auto, unfolding(crate::specs::Statements::immediate), using(crate::proofs::Sound::sound_i))]
fn immediate<'s>(code: u8, text: &'s [u8]) -> Option<Statement<'s>>
    requires row { has_row code ≡ true }
    requires form { takes_two (form_of code) ≡ true }
    ensures statement { option_map shown result ≡ spec.immediate code (tokens text.now) }
    ensures sound { IfSome result (λ s. IsSound (shown s)) }
{
    let (rd, rs1, n) = three(text)?;
    match (register(rd), register(rs1), number(n)) {
        (Some(rd), Some(rs1), Some(n)) => {
            Some(Statement::WithNumber(Op::of_registers(code, rd, rs1, 0), n))
        }
        _ => None,
    }
}

/// rd, n(rs1)
#[tactic(auto, unfolding(crate::specs::Statements::load), using(crate::proofs::Sound::sound_i))]
fn load<'s>(code: u8, text: &'s [u8]) -> Option<Statement<'s>>
    requires row { has_row code ≡ true }
    requires form { takes_two (form_of code) ≡ true }
    ensures statement { option_map shown result ≡ spec.load code (tokens text.now) }
    ensures sound { IfSome result (λ s. IsSound (shown s)) }
{
    let (rd, n, rs1) = address(text)?;
    match (register(rd), number(n), register(rs1)) {
        (Some(rd), Some(n), Some(rs1)) => {
            Some(Statement::WithNumber(Op::of_registers(code, rd, rs1, 0), n))
        }
        _ => None,
    }
}

/// rs2, n(rs1)
#[tactic(auto, unfolding(crate::specs::Statements::store), using(crate::proofs::Sound::sound_s))]
fn store<'s>(code: u8, text: &'s [u8]) -> Option<Statement<'s>>
    requires row { has_row code ≡ true }
    requires form { form_of code ≡ form.S }
    ensures statement { option_map shown result ≡ spec.store code (tokens text.now) }
    ensures sound { IfSome result (λ s. IsSound (shown s)) }
{
    let (rs2, n, rs1) = address(text)?;
    match (register(rs2), number(n), register(rs1)) {
        (Some(rs2), Some(n), Some(rs1)) => {
            Some(Statement::WithNumber(Op::of_registers(code, 0, rs1, rs2), n))
        }
        _ => None,
    }
}

/// rs1, rs2, label
#[tactic(auto, unfolding(crate::specs::Statements::branch), using(crate::proofs::Sound::sound_b))]
fn branch<'s>(code: u8, text: &'s [u8]) -> Option<Statement<'s>>
    requires row { has_row code ≡ true }
    requires form { form_of code ≡ form.B }
    ensures statement { option_map shown result ≡ spec.branch code (tokens text.now) }
    ensures sound { IfSome result (λ s. IsSound (shown s)) }
{
    let Some((rs1, rs2, target)) = three(text) else {
        return None
    };
    let Some(rs1) = register(rs1) else {
        return None
    };
    let Some(rs2) = register(rs2) else {
        return None
    };
    let Some(target) = label(target) else {
        return None
    };
    Some(Statement::WithLabel(Op::of_registers(code, 0, rs1, rs2), target))
}

/// rd, rs1, rs2
#[tactic(auto, unfolding(crate::specs::Statements::registers), using(crate::proofs::Sound::sound_r))]
fn registers<'s>(code: u8, text: &'s [u8]) -> Option<Statement<'s>>
    requires row { has_row code ≡ true }
    requires form { form_of code ≡ form.R }
    ensures statement { option_map shown result ≡ spec.registers code (tokens text.now) }
    ensures sound { IfSome result (λ s. IsSound (shown s)) }
{
    let (rd, rs1, rs2) = three(text)?;
    match (register(rd), register(rs1), register(rs2)) {
        (Some(rd), Some(rs1), Some(rs2)) => Some(Statement::Ready(Op::of_registers(
            code, rd, rs1, rs2,
        ))),
        _ => None,
    }
}

/// No operands.
#[tactic(auto, unfolding(crate::specs::Statements::bare))]
fn bare<'s>(statement: Statement<'s>, text: &'s [u8]) -> Option<Statement<'s>>
    requires { IsSound (shown statement) }
    ensures statement { option_map shown result ≡ spec.bare (shown statement.entry) (tokens text.now) }
    ensures sound { IfSome result (λ s. IsSound (shown s)) }
{
    end(text)?;
    Some(statement)
}

/// An instruction that has no operands.
fn bare_op<'s>(op: Op, text: &'s [u8]) -> Option<Statement<'s>>
    requires { IsTrue (well_formed op) }
    ensures statement { option_map shown result ≡ spec.bare (Ready op) (tokens text.now) }
    ensures sound { IfSome result (λ s. IsSound (shown s)) }
{
    bare(Statement::Ready(op), text)
}

/// An instruction with rd, rs1 and a number, or with an address.
fn with_number<'s>(code: u8, text: &'s [u8]) -> Option<Statement<'s>>
    requires row { has_row code ≡ true }
    requires form { form_of code ≡ form.I }
    ensures statement { option_map shown result ≡ spec.with_number code (tokens text.now) }
    ensures sound { IfSome result (λ s. IsSound (shown s)) }
{
    if operation_of(code).names_address() {
        load(code, text)
    } else {
        immediate(code, text)
    }
}

/// An instruction of the word table.
#[tactic(auto, unfolding(crate::specs::Statements::instruction, crate::specs::Statements::by_form), using(crate::proofs::Sound::bare_forms))]
fn instruction<'s>(code: u8, text: &'s [u8]) -> Option<Statement<'s>>
    requires { has_row code ≡ true }
    ensures statement { option_map shown result ≡ spec.instruction code (tokens text.now) }
    ensures sound { IfSome result (λ s. IsSound (shown s)) }
{
    match form_of(code) {
        Form::U => upper(code, text),
        Form::J => jump(code, text),
        Form::I => with_number(code, text),
        Form::B => branch(code, text),
        Form::S => store(code, text),
        Form::Shift => immediate(code, text),
        Form::R => registers(code, text),
        Form::Call => bare_op(Op::of_registers(code, 0, A7, A0), text),
        Form::NoFields => bare_op(Op::of_registers(code, 0, 0, 0), text),
        Form::Counter => None,
    }
}

/// rd, rs
#[tactic(auto, unfolding(crate::specs::Statements::move_register), using(crate::proofs::Sound::sound_addi))]
fn move_register<'s>(text: &'s [u8]) -> Option<Statement<'s>>
    ensures statement { option_map shown result ≡ spec.move_register (tokens text.now) }
    ensures sound { IfSome result (λ s. IsSound (shown s)) }
{
    let (rd, rs) = two(text)?;
    match (register(rd), register(rs)) {
        (Some(rd), Some(rs)) => Some(Statement::Ready(Op::of_registers(codes::ADDI, rd, rs, 0))),
        _ => None,
    }
}

/// label, with the return address in rd
#[tactic(auto, unfolding(crate::specs::Statements::jump_to), using(crate::proofs::Sound::sound_jal))]
fn jump_to<'s>(rd: u8, text: &'s [u8]) -> Option<Statement<'s>>
    requires { rd < 32 }
    ensures statement { option_map shown result ≡ spec.jump_to rd (tokens text.now) }
    ensures sound { IfSome result (λ s. IsSound (shown s)) }
{
    let target = label(one(text)?)?;
    Some(Statement::WithLabel(Op::of_registers(codes::JAL, rd, 0, 0), target))
}

/// rs
#[tactic(auto, unfolding(crate::specs::Statements::jump_register), using(crate::proofs::Sound::sound_jalr))]
fn jump_register<'s>(text: &'s [u8]) -> Option<Statement<'s>>
    ensures statement { option_map shown result ≡ spec.jump_register (tokens text.now) }
    ensures sound { IfSome result (λ s. IsSound (shown s)) }
{
    let rs = register(one(text)?)?;
    Some(Statement::Ready(Op::of_registers(codes::JALR, 0, rs, 0)))
}

/// rs, label: a comparison with register 0
#[tactic(auto, unfolding(crate::specs::Statements::branch_zero), using(crate::proofs::Sound::sound_branch))]
fn branch_zero<'s>(code: u8, text: &'s [u8]) -> Option<Statement<'s>>
    requires { IsTrue (branches code) }
    ensures statement { option_map shown result ≡ spec.branch_zero code (tokens text.now) }
    ensures sound { IfSome result (λ s. IsSound (shown s)) }
{
    let (rs, target) = two(text)?;
    match (register(rs), label(target)) {
        (Some(rs), Some(target)) => {
            Some(Statement::WithLabel(Op::of_registers(code, 0, rs, 0), target))
        }
        _ => None,
    }
}

/// rd, n
#[tactic(auto, unfolding(crate::specs::Statements::load_immediate))]
fn load_immediate<'s>(text: &'s [u8]) -> Option<Statement<'s>>
    ensures statement { option_map shown result ≡ spec.load_immediate (tokens text.now) }
    ensures sound { IfSome result (λ s. IsSound (shown s)) }
{
    let (rd, n) = two(text)?;
    match (register(rd), number(n)) {
        (Some(rd), Some(n)) => Some(Statement::NumberInto(rd, n)),
        _ => None,
    }
}

/// rd, label
#[tactic(auto, unfolding(crate::specs::Statements::load_address))]
fn load_address<'s>(text: &'s [u8]) -> Option<Statement<'s>>
    ensures statement { option_map shown result ≡ spec.load_address (tokens text.now) }
    ensures sound { IfSome result (λ s. IsSound (shown s)) }
{
    let (rd, target) = two(text)?;
    match (register(rd), label(target)) {
        (Some(rd), Some(target)) => Some(Statement::AddressInto(rd, target)),
        _ => None,
    }
}

/// n
#[tactic(auto, unfolding(crate::specs::Statements::one_number))]
fn one_number(text: &[u8]) -> Option<i64>
    ensures { result ≡ spec.one_number (tokens text.now) }
{
    number(one(text)?)
}

/// n
#[tactic(auto, unfolding(crate::specs::Statements::data_word))]
fn data_word<'s>(text: &'s [u8]) -> Option<Statement<'s>>
    ensures statement { option_map shown result ≡ spec.data_word (tokens text.now) }
    ensures sound { IfSome result (λ s. IsSound (shown s)) }
{
    Some(Statement::DataWord(one_number(text)?))
}

/// n
#[tactic(auto, unfolding(crate::specs::Statements::data_byte))]
fn data_byte<'s>(text: &'s [u8]) -> Option<Statement<'s>>
    ensures statement { option_map shown result ≡ spec.data_byte (tokens text.now) }
    ensures sound { IfSome result (λ s. IsSound (shown s)) }
{
    Some(Statement::DataByte(one_number(text)?))
}

/// n
#[tactic(auto, unfolding(crate::specs::Statements::data_space))]
fn data_space<'s>(text: &'s [u8]) -> Option<Statement<'s>>
    ensures statement { option_map shown result ≡ spec.data_space (tokens text.now) }
    ensures sound { IfSome result (λ s. IsSound (shown s)) }
{
    Some(Statement::DataSpace(one_number(text)?))
}

/// What a keyword and the text behind it mean.
#[tactic(auto, unfolding(crate::specs::Statements::statement_by), using(crate::proofs::Sound::fixed_ops))]
pub fn statement_by<'s>(keyword: Keyword, text: &'s [u8]) -> Option<Statement<'s>>
    requires { IsTrue (is_known keyword) }
    ensures statement { option_map shown result ≡ spec.statement_by keyword (tokens text.now) }
    ensures sound { IfSome result (λ s. IsSound (shown s)) }
{
    match keyword {
        Keyword::Instruction(code) => instruction(code, text),
        Keyword::Nop => bare_op(Op::of_registers(codes::ADDI, 0, 0, 0), text),
        Keyword::Move => move_register(text),
        Keyword::Jump => jump_to(0, text),
        Keyword::Call => jump_to(RA, text),
        Keyword::JumpRegister => jump_register(text),
        Keyword::Return => bare_op(Op::of_registers(codes::JALR, 0, RA, 0), text),
        Keyword::BranchIfZero => branch_zero(codes::BEQ, text),
        Keyword::BranchIfNotZero => branch_zero(codes::BNE, text),
        Keyword::LoadImmediate => load_immediate(text),
        Keyword::LoadAddress => load_address(text),
        Keyword::TextPart => bare(Statement::Part(false), text),
        Keyword::DataPart => bare(Statement::Part(true), text),
        Keyword::Word => data_word(text),
        Keyword::Byte => data_byte(text),
        Keyword::Space => data_space(text),
    }
}
