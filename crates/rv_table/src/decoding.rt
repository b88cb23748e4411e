// From a word to the operation.
ghost use Rattle.std.specs.Prelude.{◌≡◌, ◌<◌, IsTrue};
ghost use Rattle.rv_table.specs.Codes.{code_by, code_of};
ghost use Rattle.rv_table.specs.WellFormed.{well_formed};
ghost use Rattle.rv_table.specs.Words.{decode};

use crate::form::bits;
use crate::op::ILLEGAL_CODE;
use crate::{Op, codes, form_of};

#[tactic(auto, using(crate::proofs::Formed::decoding))]
/// The operation of a word, by the word table. A word outside the table gives ILLEGAL, code 0 with all fields 0.
pub fn decode(word: u32) -> Op
    ensures operation { result ≡ decode word }
    ensures code { result.code < 64 }
    ensures rd { result.rd < 32 }
    ensures rs1 { result.rs1 < 32 }
    ensures rs2 { result.rs2 < 32 }
    ensures formed { IsTrue (well_formed result) }
{
    let code = code_of(word);
    form_of(code).fields(code, word)
}

#[tactic(auto, using(crate::proofs::CodesOfWords::groups))]
/// The code of a word.
fn code_of(word: u32) -> u8
    ensures { result ≡ code_of word }
{
    let funct3 = bits(word, 12, 3);
    let funct7 = word >> 25;
    match word % 128 {
        0x37 => codes::LUI,
        0x17 => codes::AUIPC,
        0x6F => codes::JAL,
        0x67 => jump_code(funct3),
        0x63 => branch_code(funct3),
        0x03 => load_code(funct3),
        0x23 => store_code(funct3),
        0x13 => immediate_code(funct3, funct7),
        0x33 => register_code(funct3, funct7),
        0x0F => fence_code(funct3),
        0x73 => system_code(word),
        _ => ILLEGAL_CODE,
    }
}

#[tactic(auto, unfolding(crate::specs::Codes::code_by))]
fn jump_code(funct3: u32) -> u8
    ensures { result ≡ code_by 0x67 funct3 0 0 }
{
    match funct3 {
        0 => codes::JALR,
        _ => ILLEGAL_CODE,
    }
}

#[tactic(auto, unfolding(crate::specs::Codes::code_by))]
fn branch_code(funct3: u32) -> u8
    ensures { result ≡ code_by 0x63 funct3 0 0 }
{
    match funct3 {
        0 => codes::BEQ,
        1 => codes::BNE,
        4 => codes::BLT,
        5 => codes::BGE,
        6 => codes::BLTU,
        7 => codes::BGEU,
        _ => ILLEGAL_CODE,
    }
}

#[tactic(auto, unfolding(crate::specs::Codes::code_by))]
fn load_code(funct3: u32) -> u8
    ensures { result ≡ code_by 0x03 funct3 0 0 }
{
    match funct3 {
        0 => codes::LB,
        1 => codes::LH,
        2 => codes::LW,
        4 => codes::LBU,
        5 => codes::LHU,
        _ => ILLEGAL_CODE,
    }
}

#[tactic(auto, unfolding(crate::specs::Codes::code_by))]
fn store_code(funct3: u32) -> u8
    ensures { result ≡ code_by 0x23 funct3 0 0 }
{
    match funct3 {
        0 => codes::SB,
        1 => codes::SH,
        2 => codes::SW,
        _ => ILLEGAL_CODE,
    }
}

#[tactic(auto, unfolding(crate::specs::Codes::code_by))]
fn immediate_code(funct3: u32, funct7: u32) -> u8
    ensures { result ≡ code_by 0x13 funct3 funct7 0 }
{
    match (funct3, funct7) {
        (0, _) => codes::ADDI,
        (2, _) => codes::SLTI,
        (3, _) => codes::SLTIU,
        (4, _) => codes::XORI,
        (6, _) => codes::ORI,
        (7, _) => codes::ANDI,
        (1, 0x00) => codes::SLLI,
        (5, 0x00) => codes::SRLI,
        (5, 0x20) => codes::SRAI,
        _ => ILLEGAL_CODE,
    }
}

#[tactic(auto, unfolding(crate::specs::Codes::code_by))]
fn register_code(funct3: u32, funct7: u32) -> u8
    ensures { result ≡ code_by 0x33 funct3 funct7 0 }
{
    match (funct7, funct3) {
        (0x00, 0) => codes::ADD,
        (0x20, 0) => codes::SUB,
        (0x00, 1) => codes::SLL,
        (0x00, 2) => codes::SLT,
        (0x00, 3) => codes::SLTU,
        (0x00, 4) => codes::XOR,
        (0x00, 5) => codes::SRL,
        (0x20, 5) => codes::SRA,
        (0x00, 6) => codes::OR,
        (0x00, 7) => codes::AND,
        (0x01, 0) => codes::MUL,
        (0x01, 1) => codes::MULH,
        (0x01, 2) => codes::MULHSU,
        (0x01, 3) => codes::MULHU,
        (0x01, 4) => codes::DIV,
        (0x01, 5) => codes::DIVU,
        (0x01, 6) => codes::REM,
        (0x01, 7) => codes::REMU,
        _ => ILLEGAL_CODE,
    }
}

#[tactic(auto, unfolding(crate::specs::Codes::code_by))]
fn fence_code(funct3: u32) -> u8
    ensures { result ≡ code_by 0x0F funct3 0 0 }
{
    match funct3 {
        0 => codes::FENCE,
        _ => ILLEGAL_CODE,
    }
}

#[tactic(auto, unfolding(crate::specs::Codes::code_by))]
/// Of a word with the opcode 0x73: ECALL, EBREAK, or a read of a counter, whose rd is free.
fn system_code(word: u32) -> u8
    ensures { result ≡ code_by 0x73 0 0 word }
{
    match word {
        0x0000_0073 => codes::ECALL,
        0x0010_0073 => codes::EBREAK,
        _ => match word >> 12 {
            0xC0002 => codes::RDCYCLE,
            0xC0202 => codes::RDINSTRET,
            0xC8002 => codes::RDCYCLEH,
            0xC8202 => codes::RDINSTRETH,
            _ => ILLEGAL_CODE,
        },
    }
}
