//! The instructions of a generated program: a loop that runs its body four times, and an end that puts a byte.
ghost use Rattle.std.specs.Prelude.{◌≡◌, ◌<◌, ◌≤◌, ◌^◌, ◌/◌, ◌%◌, ◌+◌, IsTrue};
ghost use Rattle.img_gen.specs.Program as spec;
ghost use Rattle.rv_table.specs.Words.{sign_extended};
ghost use Rattle.rv_table.specs.WellFormed.{well_formed};

use crate::generator::MAX_SIZE;
use elf_write::DATA_BASE;
use rv_table::{Op, codes};

/// The registers that a generated program uses besides x10 to x17, which its body computes with.
pub const ZERO: u8 = 0;

/// Where the body loads and stores: the data part.
pub const S0: u8 = 8;

/// The rounds that are left.
pub const S1: u8 = 9;

/// The first of the body's registers, and the byte that is put.
pub const A0: u8 = 10;

/// What ECALL does.
pub const A7: u8 = 17;

/// How often the body runs.
pub const ROUNDS: u32 = 4;

/// What ECALL does by a7: puts a byte, ends the program.
pub const PUT: u32 = 1;

pub const EXIT: u32 = 93;

/// An operation of rd, rs1 and an immediate.
fn immediate(code: u8, rd: u8, rs1: u8, imm: u32) -> Op
    ensures { result ≡ spec.immediate code rd rs1 imm }
{
    Op {
        code,
        rd,
        rs1,
        rs2: 0,
        imm,
    }
}

/// An operation of rs1, rs2 and an immediate: a store, with its address in rs1, or a branch.
fn two_registers(code: u8, rs1: u8, rs2: u8, imm: u32) -> Op
    ensures { result ≡ spec.two_registers code rs1 rs2 imm }
{
    Op {
        code,
        rd: 0,
        rs1,
        rs2,
        imm,
    }
}

/// One of the body's eight registers, by three bits of a random word from bit `low` on.
fn register_at(random: u32, low: u32) -> u8
    requires { low < 32 }
    ensures register { result ≡ spec.register_at random low }
    ensures below { result < 18 }
{
    A0 + ((random >> low) % 8) as u8
}

/// The number as a signed one of 12 bits, extended to 32.
fn signed_12(n: u32) -> u32
    requires { n < 2 ^ 12 }
    ensures { result ≡ sign_extended 12 n }
{
    if n < 0x800 { n } else { n + 0xFFFF_F000 }
}

/// The instruction of a kind, with two operands and a number of 12 bits.
#[tactic(auto, unfolding(crate::specs::Program::by_kind))]
fn by_kind(kind: u32, rd: u8, rs1: u8, rs2: u8, n: u32) -> Op
    requires kind_in { kind < 16 }
    requires number { n < 2 ^ 12 }
    ensures { result ≡ spec.by_kind kind rd rs1 rs2 n }
{
    let byte_offset = n % 0x800;
    let word_offset = byte_offset / 4 * 4;
    match kind {
        0 => Op::of_registers(codes::ADD, rd, rs1, rs2),
        1 => Op::of_registers(codes::SUB, rd, rs1, rs2),
        2 => Op::of_registers(codes::XOR, rd, rs1, rs2),
        3 => Op::of_registers(codes::OR, rd, rs1, rs2),
        4 => Op::of_registers(codes::AND, rd, rs1, rs2),
        5 => Op::of_registers(codes::SLL, rd, rs1, rs2),
        6 => Op::of_registers(codes::SRL, rd, rs1, rs2),
        7 => Op::of_registers(codes::MUL, rd, rs1, rs2),
        8 => immediate(codes::ADDI, rd, rs1, signed_12(n)),
        9 => immediate(codes::XORI, rd, rs1, signed_12(n)),
        10 => Op::of_registers(codes::DIVU, rd, rs1, rs2),
        11 => Op::of_registers(codes::SLT, rd, rs1, rs2),
        12 => immediate(codes::LW, rd, S0, word_offset),
        13 => two_registers(codes::SW, S0, rs2, word_offset),
        14 => immediate(codes::LBU, rd, S0, byte_offset),
        _ => two_registers(codes::SB, S0, rs2, byte_offset),
    }
}

/// The body's instruction of a random word.
#[tactic(auto, unfolding(crate::specs::Program::body_op), using(crate::proofs::Fitting::fits_body))]
pub fn body_op(random: u32) -> Op
    ensures op { result ≡ spec.body_op random }
    ensures fits { IsTrue (well_formed result) }
{
    by_kind(
        random % 16,
        register_at(random, 4),
        register_at(random, 7),
        register_at(random, 10),
        random >> 20,
    )
}

/// The instructions before the body.
pub fn start() -> [Op; 2]
    ensures { result ≡ spec.start }
{
    [
        immediate(codes::LUI, S0, ZERO, DATA_BASE),
        immediate(codes::ADDI, S1, ZERO, ROUNDS),
    ]
}

/// So many bytes back, as a 32-bit offset.
fn back(bytes: u32) -> u32
    requires { 0 < bytes }
    ensures { result ≡ spec.back bytes }
{
    u32::MAX - bytes + 1
}

/// The instructions behind a body of so many.
pub fn finish(size: u32) -> [Op; 7]
    requires { size ≤ MAX_SIZE }
    ensures { result ≡ spec.finish size }
{
    [
        immediate(codes::ADDI, S1, S1, back(1)),
        two_registers(codes::BEQ, S1, ZERO, 8),
        immediate(codes::JAL, ZERO, ZERO, back(4 * (size + 2))),
        immediate(codes::ADDI, A7, ZERO, PUT),
        Op::of_registers(codes::ECALL, 0, A7, A0),
        immediate(codes::ADDI, A7, ZERO, EXIT),
        Op::of_registers(codes::ECALL, 0, A7, A0),
    ]
}
