// From an operation to its word.
ghost use Rattle.std.specs.Prelude.{◌≡◌, ◌<◌, ◌≤◌, ◌+◌, ◌*◌, ◌^◌, IsTrue};
ghost use Rattle.rv_table.specs.Codes.{field_bits, fixed_bits, offset_bits_b, offset_bits_j, word_of};
ghost use Rattle.rv_table.specs.Words.{decode};
ghost use Rattle.rv_table.specs.WellFormed.{fits, well_formed};

use crate::form::bits;
use crate::op::ILLEGAL_CODE;
use crate::{Form, Op, Operation, form_of, has_row, row_of};

/// The bits by which FENCE names all of its sets.
const FENCE_SETS: u32 = 0x0FF0_0000;

#[tactic(auto, unfolding(crate::specs::WellFormed::well_formed))]
/// Whether the operation is ILLEGAL with all fields 0, or its code has a word and its fields fit the row.
pub fn well_formed(op: &Op) -> bool
    ensures { result ≡ well_formed op.now }
{
    (op.code == ILLEGAL_CODE || has_row(op.code)) && form_of(op.code).fits(op)
}

#[tactic(auto, using(crate::proofs::Encoded::encoding), unfolding(crate::specs::Codes::word_of))]
/// The word of a well-formed operation. FENCE is 0x0FF0000F, ILLEGAL the word 0.
pub fn encode(op: &Op) -> u32
    requires { IsTrue (well_formed op.now) }
    ensures decodes { decode result ≡ op.now }
    ensures word { result ≡ word_of op.now }
{
    fixed_bits(op.code) + field_bits(form_of(op.code), op)
}

#[tactic(auto, using(crate::proofs::RowLookups::fixing), unfolding(crate::specs::Codes::fixed_bits))]
/// The bits of a word that its code fixes, 0 in the others.
fn fixed_bits(code: u8) -> u32
    ensures { result ≡ fixed_bits code }
{
    let row = row_of(code);
    match row.operation {
        Operation::Fence => FENCE_SETS + row.fixed.bits(),
        _ => row.fixed.bits(),
    }
}

/// The value in the bits from `low` on.
fn placed(value: u32, low: u32) -> u32
    requires low_in { low < 32 }
    requires room { value * 2 ^ low < 2 ^ 32 }
    ensures { result ≡ value * 2 ^ low }
{
    value << low
}

fn offset_bits_b(offset: u32) -> u32
    ensures bits { result ≡ offset_bits_b offset }
    ensures below { result + 2 ^ 25 ≤ 2 ^ 32 + 2 ^ 12 }
{
    placed(bits(offset, 11, 1), 7)
        + placed(bits(offset, 1, 4), 8)
        + placed(bits(offset, 5, 6), 25)
        + placed(bits(offset, 12, 1), 31)
}

fn offset_bits_j(offset: u32) -> u32
    ensures bits { result ≡ offset_bits_j offset }
    ensures below { result + 2 ^ 12 ≤ 2 ^ 32 }
{
    placed(bits(offset, 12, 8), 12)
        + placed(bits(offset, 11, 1), 20)
        + placed(bits(offset, 1, 10), 21)
        + placed(bits(offset, 20, 1), 31)
}

#[tactic(auto, unfolding(crate::specs::Codes::field_bits, crate::specs::WellFormed::fits))]
/// The bits of the fields of a form, 0 in the others.
fn field_bits(form: Form, op: &Op) -> u32
    requires { IsTrue (fits form op.now) }
    ensures { result ≡ field_bits form op.now }
{
    let rd = u32::from(op.rd);
    let rs1 = u32::from(op.rs1);
    let rs2 = u32::from(op.rs2);
    match form {
        Form::U => placed(rd, 7) + op.imm,
        Form::J => placed(rd, 7) + offset_bits_j(op.imm),
        Form::I => placed(rd, 7) + placed(rs1, 15) + placed(op.imm % 0x1000, 20),
        Form::B => placed(rs1, 15) + placed(rs2, 20) + offset_bits_b(op.imm),
        Form::S => placed(rs1, 15)
            + placed(rs2, 20)
            + (placed(bits(op.imm, 0, 5), 7) + placed(bits(op.imm, 5, 7), 25)),
        Form::Shift => placed(rd, 7) + placed(rs1, 15) + placed(op.imm, 20),
        Form::R => placed(rd, 7) + placed(rs1, 15) + placed(rs2, 20),
        Form::Counter => placed(rd, 7),
        Form::Call | Form::NoFields => 0,
    }
}
