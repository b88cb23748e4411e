// What the operations compute of two operands.
ghost use Rattle.std.specs.Prelude.{◌≡◌, ◌<◌};
ghost use Rattle.rv_table.specs.Arithmetic.{alu, shift_signed};
ghost use Rattle.rv_table.specs.Actions.{holds};

use crate::{AluKind, BranchKind};

#[tactic(auto, unfolding(crate::specs::Arithmetic::alu))]
/// The result for two 32-bit operands, as the RISC-V specification has it.
pub fn alu(kind: AluKind, a: u32, b: u32) -> u32
    ensures { result ≡ alu kind a b }
{
    match kind {
        AluKind::Add => a.wrapping_add(b),
        AluKind::Sub => a.wrapping_sub(b),
        AluKind::Sll => a << (b % 32),
        AluKind::Slt => u32::from(a.cast_signed() < b.cast_signed()),
        AluKind::Sltu => u32::from(a < b),
        AluKind::Xor => a ^ b,
        AluKind::Srl => a >> (b % 32),
        AluKind::Sra => signed_shift(a, b % 32),
        AluKind::Or => a | b,
        AluKind::And => a & b,
        AluKind::Mul => a.wrapping_mul(b),
        AluKind::Mulh => high_product(a, b),
        AluKind::Mulhsu => high_mixed_product(a, b),
        AluKind::Mulhu => ((u64::from(a) * u64::from(b)) >> 32) as u32,
        AluKind::Div => quotient(a, b),
        AluKind::Divu => { if b == 0 { u32::MAX } else { a / b } }
        AluKind::Rem => remainder(a, b),
        AluKind::Remu => { if b == 0 { a } else { a % b } }
    }
}

/// The number shifted right, with copies of its sign above.
fn signed_shift(a: u32, amount: u32) -> u32
    requires { amount < 32 }
    ensures { result ≡ shift_signed a amount }
{
    (a.cast_signed() >> amount).cast_unsigned()
}

#[tactic(auto, unfolding(crate::specs::Arithmetic::alu))]
/// The high word of the signed product.
fn high_product(a: u32, b: u32) -> u32
    ensures { result ≡ alu AluKind.Mulh a b }
{
    let product = i64::from(a.cast_signed()) * i64::from(b.cast_signed());
    (product.cast_unsigned() >> 32) as u32
}

#[tactic(auto, unfolding(crate::specs::Arithmetic::alu))]
/// The high word of the product of a signed and an unsigned number.
fn high_mixed_product(a: u32, b: u32) -> u32
    ensures { result ≡ alu AluKind.Mulhsu a b }
{
    let product = i64::from(a.cast_signed()) * i64::from(b);
    (product.cast_unsigned() >> 32) as u32
}

#[tactic(auto, unfolding(crate::specs::Arithmetic::alu))]
/// The signed quotient, rounded toward zero.
fn quotient(a: u32, b: u32) -> u32
    ensures { result ≡ alu AluKind.Div a b }
{
    if b == 0 {
        u32::MAX
    } else {
        a.cast_signed()
            .wrapping_div(b.cast_signed())
            .cast_unsigned()
    }
}

#[tactic(auto, unfolding(crate::specs::Arithmetic::alu))]
/// The signed remainder, with the sign of the dividend.
fn remainder(a: u32, b: u32) -> u32
    ensures { result ≡ alu AluKind.Rem a b }
{
    if b == 0 {
        a
    } else {
        a.cast_signed()
            .wrapping_rem(b.cast_signed())
            .cast_unsigned()
    }
}

#[tactic(auto, unfolding(crate::specs::Actions::holds))]
/// Whether the comparison of a branch holds.
pub fn holds(kind: BranchKind, a: u32, b: u32) -> bool
    ensures { result ≡ holds kind a b }
{
    match kind {
        BranchKind::Beq => a == b,
        BranchKind::Bne => a != b,
        BranchKind::Blt => a.cast_signed() < b.cast_signed(),
        BranchKind::Bge => a.cast_signed() >= b.cast_signed(),
        BranchKind::Bltu => a < b,
        BranchKind::Bgeu => a >= b,
    }
}
