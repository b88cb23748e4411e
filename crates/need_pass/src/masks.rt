// From the needed bits of a result to those of the operands.
ghost use Rattle.need_pass.specs.Links.{FromA, FromB, FromImmediate, FromLoaded};
ghost use Rattle.need_pass.specs.Masks.{HasOne, IsMaskOf};
ghost use Rattle.std.specs.Int.{bit_at};
ghost use Rattle.std.specs.Prelude.{◌+◌, ◌<◌, ◌⊎◌, ◌≡◌, ◌≤◌};

use rv_table::{AluKind, LoadKind};

/// The bits that are not above a bit of the mask.
fn up_to(mask: u32) -> u32
    ensures { IsMaskOf result (λ k. HasOne mask (λ j. k ≤ j)) }
{
    if mask == 0 {
        0
    } else {
        u32::MAX >> mask.leading_zeros()
    }
}

/// All bits where the mask has one.
fn all(mask: u32) -> u32
    ensures { IsMaskOf result (λ k. HasOne mask (λ j. Unit {0})) }
{
    if mask == 0 { 0 } else { u32::MAX }
}

/// The lowest five bits, an amount's, where the mask has a bit.
fn amount(mask: u32) -> u32
    ensures { IsMaskOf result (λ k. HasOne mask (λ j. k < 5)) }
{
    if mask == 0 { 0 } else { 0x1f }
}

/// The bits of a that b doesn't mask, in an AND.
fn and_a(mask: u32, a: u32, b: u32) -> u32
    ensures { IsMaskOf result (λ k. HasOne mask (λ j. (k ≡ j) × ((bit_at a k ≡ 0) ⊎ (bit_at b k ≡ 1)))) }
{
    mask & (!a | b)
}

/// The bits of a that b doesn't mask, in an OR.
fn or_a(mask: u32, a: u32, b: u32) -> u32
    ensures { IsMaskOf result (λ k. HasOne mask (λ j. (k ≡ j) × ((bit_at a k ≡ 1) ⊎ (bit_at b k ≡ 0)))) }
{
    mask & (a | !b)
}

/// The bits of the mask that the other operand has.
fn where_one(mask: u32, other: u32) -> u32
    ensures { IsMaskOf result (λ k. HasOne mask (λ j. (k ≡ j) × (bit_at other k ≡ 1))) }
{
    mask & other
}

/// The bits of the mask that the other operand doesn't have.
fn where_zero(mask: u32, other: u32) -> u32
    ensures { IsMaskOf result (λ k. HasOne mask (λ j. (k ≡ j) × (bit_at other k ≡ 0))) }
{
    mask & !other
}

/// Where a shift to the left by `amount` bits takes the mask's bits from.
fn shifted_left(mask: u32, amount: u32) -> u32
    requires { amount < 32 }
    ensures { IsMaskOf result (λ k. HasOne mask (λ j. j ≡ k + amount)) }
{
    mask >> amount
}

/// Where a shift to the right by `amount` bits takes the mask's bits from.
fn shifted_right(mask: u32, amount: u32) -> u32
    requires { amount < 32 }
    ensures { IsMaskOf result (λ k. HasOne mask (λ j. k ≡ j + amount)) }
{
    mask << amount
}

/// Bit 31 where a signed shift to the right by `amount` bits puts copies of it into bits of the mask.
fn sign_copies(mask: u32, amount: u32) -> u32
    requires { amount < 32 }
    ensures { IsMaskOf result (λ k. HasOne mask (λ j. (k ≡ 31) × (31 < j + amount))) }
{
    if mask.leading_zeros() < amount {
        1 << 31
    } else {
        0
    }
}

/// Where a signed shift to the right by `amount` bits takes the mask's bits from.
fn signed_shifted(mask: u32, amount: u32) -> u32
    requires { amount < 32 }
    ensures { IsMaskOf result (λ k. HasOne mask (λ j. (k ≡ j + amount) ⊎ ((k ≡ 31) × (31 < j + amount)))) }
{
    shifted_right(mask, amount) | sign_copies(mask, amount)
}

/// The sign bit, bit `sign`, where the mask has a bit above it.
fn sign_bit(mask: u32, sign: u32) -> u32
    requires { sign < 31 }
    ensures { IsMaskOf result (λ k. HasOne mask (λ j. (k ≡ sign) × (sign < j))) }
{
    if mask >> (sign + 1) == 0 {
        0
    } else {
        1 << sign
    }
}

/// The bits of a with a link to a bit of the mask, in the result of a and b.
pub fn from_a(kind: AluKind, a: u32, b: u32, mask: u32) -> u32
    ensures { IsMaskOf result (λ k. HasOne mask (FromA kind a b k)) }
{
    match kind {
        AluKind::Add | AluKind::Sub | AluKind::Mul => up_to(mask),
        AluKind::Xor => mask,
        AluKind::And => and_a(mask, a, b),
        AluKind::Or => or_a(mask, a, b),
        AluKind::Sll => shifted_left(mask, b % 32),
        AluKind::Srl => shifted_right(mask, b % 32),
        AluKind::Sra => signed_shifted(mask, b % 32),
        _ => all(mask),
    }
}

/// The bits of b with a link to a bit of the mask, in the result of a and b.
pub fn from_b(kind: AluKind, a: u32, b: u32, mask: u32) -> u32
    ensures { IsMaskOf result (λ k. HasOne mask (FromB kind a b k)) }
{
    match kind {
        AluKind::Add | AluKind::Sub | AluKind::Mul => up_to(mask),
        AluKind::Xor => mask,
        AluKind::And => where_one(mask, a),
        AluKind::Or => where_zero(mask, a),
        AluKind::Sll | AluKind::Srl | AluKind::Sra => amount(mask),
        _ => all(mask),
    }
}

/// The bits of a with a link to a bit of the mask, in the result of a and an immediate.
pub fn from_immediate(kind: AluKind, a: u32, immediate: u32, mask: u32) -> u32
    ensures { IsMaskOf result (λ k. HasOne mask (FromImmediate kind a immediate k)) }
{
    match kind {
        AluKind::And => where_one(mask, immediate),
        AluKind::Or => where_zero(mask, immediate),
        _ => from_a(kind, a, immediate, mask),
    }
}

/// The bits of the loaded bytes with a link to a bit of the mask, in the register that is loaded.
pub fn from_loaded(kind: LoadKind, mask: u32) -> u32
    ensures { IsMaskOf result (λ k. HasOne mask (FromLoaded kind k)) }
{
    match kind {
        LoadKind::Lb => mask | sign_bit(mask, 7),
        LoadKind::Lh => mask | sign_bit(mask, 15),
        LoadKind::Lw | LoadKind::Lbu | LoadKind::Lhu => mask,
    }
}
