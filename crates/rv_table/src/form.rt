// The forms of the instructions: which fields a word has, and where.
ghost use Rattle.std.specs.Prelude.{◌≡◌, ◌<◌, ◌≤◌, ◌^◌, ◌/◌, ◌%◌, ◌+◌, ◌*◌};
ghost use Rattle.rv_table.specs.WellFormed.{fits, is_signed};
ghost use Rattle.rv_table.specs.Words.{immediate_b, immediate_i, immediate_j, immediate_s, immediate_u, op_of_form, sign_extended};

use crate::Op;

/// Which fields an instruction has (the RISC-V specification's formats, and those of single rows).
#[derive(Clone, Copy, PartialEq, Eq)]
pub enum Form {
    /// rd and the upper 20 bits of the immediate.
    U,
    /// rd and an even offset of 21 bits.
    J,
    /// rd, rs1 and a signed immediate of 12 bits.
    I,
    /// rs1, rs2 and an even offset of 13 bits.
    B,
    /// rs1, rs2 and a signed immediate of 12 bits.
    S,
    /// rd, rs1 and an amount from 0 to 31.
    Shift,
    /// rd, rs1 and rs2.
    R,
    /// ECALL, which reads registers 17 and 10.
    Call,
    /// rd alone.
    Counter,
    NoFields,
}

/// `count` bits of a word, from bit `low` on.
pub(crate) fn bits(word: u32, low: u32, count: u32) -> u32
    requires low_in { low < 32 }
    requires count_in { count < 32 }
    ensures value { result ≡ word / 2 ^ low % 2 ^ count }
    ensures below { result < 2 ^ count }
{
    (word >> low) % (1 << count)
}

/// The five bits of a register's number, from bit `low` on.
fn register(word: u32, low: u32) -> u8
    requires { low < 32 }
    ensures value { result ≡ word / 2 ^ low % 2 ^ 5 }
    ensures below { result < 32 }
{
    bits(word, low, 5) as u8
}

fn signed_12(value: u32) -> u32
    requires { value < 2 ^ 12 }
    ensures { result ≡ sign_extended 12 value }
{
    if value < 0x800 {
        value
    } else {
        value + 0xFFFF_F000
    }
}

fn signed_13(value: u32) -> u32
    requires { value < 2 ^ 13 }
    ensures { result ≡ sign_extended 13 value }
{
    if value < 0x1000 {
        value
    } else {
        value + 0xFFFF_E000
    }
}

fn signed_21(value: u32) -> u32
    requires { value < 2 ^ 21 }
    ensures { result ≡ sign_extended 21 value }
{
    if value < 0x10_0000 {
        value
    } else {
        value + 0xFFE0_0000
    }
}

fn is_signed_12(value: u32) -> bool
    ensures { result ≡ is_signed 12 value }
{
    value < 0x800 || value >= 0xFFFF_F800
}

fn is_signed_13(value: u32) -> bool
    ensures { result ≡ is_signed 13 value }
{
    value < 0x1000 || value >= 0xFFFF_F000
}

fn is_signed_21(value: u32) -> bool
    ensures { result ≡ is_signed 21 value }
{
    value < 0x10_0000 || value >= 0xFFF0_0000
}

fn immediate_u(word: u32) -> u32
    ensures { result ≡ immediate_u word }
{
    (word >> 12) * 0x1000
}

fn immediate_i(word: u32) -> u32
    ensures { result ≡ immediate_i word }
{
    signed_12(word >> 20)
}

fn immediate_s(word: u32) -> u32
    ensures { result ≡ immediate_s word }
{
    signed_12((word >> 25) * 0x20 + bits(word, 7, 5))
}

fn immediate_b(word: u32) -> u32
    ensures { result ≡ immediate_b word }
{
    signed_13(
        (word >> 31) * 0x1000
            + bits(word, 7, 1) * 0x800
            + bits(word, 25, 6) * 0x20
            + bits(word, 8, 4) * 2,
    )
}

fn immediate_j(word: u32) -> u32
    ensures { result ≡ immediate_j word }
{
    signed_21(
        (word >> 31) * 0x10_0000
            + bits(word, 12, 8) * 0x1000
            + bits(word, 20, 1) * 0x800
            + bits(word, 21, 10) * 2,
    )
}

impl Form {
    /// The operation of this code with the form's fields of a word.
    pub fn fields(self, code: u8, word: u32) -> Op
        ensures { result ≡ op_of_form self code word }
    {
        let none = Op {
            code,
            rd: 0,
            rs1: 0,
            rs2: 0,
            imm: 0,
        };
        let rd = register(word, 7);
        let rs1 = register(word, 15);
        let rs2 = register(word, 20);
        match self {
            Form::U => Op {
                rd,
                imm: immediate_u(word),
                ..none
            },
            Form::J => Op {
                rd,
                imm: immediate_j(word),
                ..none
            },
            Form::I => Op {
                rd,
                rs1,
                imm: immediate_i(word),
                ..none
            },
            Form::B => Op {
                rs1,
                rs2,
                imm: immediate_b(word),
                ..none
            },
            Form::S => Op {
                rs1,
                rs2,
                imm: immediate_s(word),
                ..none
            },
            Form::Shift => Op {
                rd,
                rs1,
                imm: u32::from(rs2),
                ..none
            },
            Form::R => Op {
                rd,
                rs1,
                rs2,
                ..none
            },
            Form::Call => Op {
                rs1: 17,
                rs2: 10,
                ..none
            },
            Form::Counter => Op { rd, ..none },
            Form::NoFields => none,
        }
    }

    #[tactic(auto, unfolding(crate::specs::WellFormed::fits))]
    /// Whether the fields fit: registers below 32, an immediate that the form can hold, and 0 in each field that it
    /// doesn't have.
    pub fn fits(self, op: &Op) -> bool
        ensures { result ≡ fits self op.now }
    {
        let Op {
            rd,
            rs1,
            rs2,
            imm,
            ..
        } = *op;
        match self {
            Form::U => rd < 32 && rs1 == 0 && rs2 == 0 && imm % 0x1000 == 0,
            Form::J => rd < 32 && rs1 == 0 && rs2 == 0 && imm % 2 == 0 && is_signed_21(imm),
            Form::I => rd < 32 && rs1 < 32 && rs2 == 0 && is_signed_12(imm),
            Form::B => rd == 0 && rs1 < 32 && rs2 < 32 && imm % 2 == 0 && is_signed_13(imm),
            Form::S => rd == 0 && rs1 < 32 && rs2 < 32 && is_signed_12(imm),
            Form::Shift => rd < 32 && rs1 < 32 && rs2 == 0 && imm < 32,
            Form::R => rd < 32 && rs1 < 32 && rs2 < 32 && imm == 0,
            Form::Call => rd == 0 && rs1 == 17 && rs2 == 10 && imm == 0,
            Form::Counter => rd < 32 && rs1 == 0 && rs2 == 0 && imm == 0,
            Form::NoFields => rd == 0 && rs1 == 0 && rs2 == 0 && imm == 0,
        }
    }
}
