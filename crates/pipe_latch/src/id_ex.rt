// The latch ID/EX.
ghost use Rattle.std.specs.Prelude.{◌≡◌};

use bit_field::{Field, ID_EX_BITS, Struck, bit_at, field_at, flip_at_u8, flip_at_u32};
use rv_table::Op;
use std::marker::Model;

/// The latch ID/EX: a decoded instruction on its way into execution.
#[derive(Clone, Copy, PartialEq, Eq)]
pub struct IdEx {
    /// Whether it holds an instruction.
    pub valid: bool,
    /// Its word address, below 2^30.
    pub pc: u32,
    /// Its code, below 64.
    pub op: u8,
    /// The register that it writes, below 32; 0 is none.
    pub rd: u8,
    /// The register of its first operand, below 32.
    pub rs1: u8,
    /// The register of its second operand, below 32.
    pub rs2: u8,
    /// The value held for register rs1.
    pub a: u32,
    /// The value held for register rs2.
    pub b: u32,
    /// The immediate, sign-extended to 32 bits (two's complement).
    pub imm: u32,
    /// Cycles that it must still wait, below 32.
    pub count: u8,
}

impl Model for IdEx {
    ghost use Rattle.std.specs.Prelude.{◌^◌, ◌<◌};
    ghost use Rattle.pipe_latch.specs.DecodedBits.{width};
    ghost use Rattle.pipe_latch.specs.Latches.{DecodedLatch};
    ghost use Rattle.pipe_latch.specs.declared.id_ex.IdExField.TheVariants.{Pc, Op, Rd, Rs1, Rs2, Count};

    ghost Value = { DecodedLatch };

    ghost view = { λ d. record { valid = d.valid; pc = d.pc; op = d.op; rd = d.rd; rs1 = d.rs1; rs2 = d.rs2; a = d.a; b = d.b; imm = d.imm; count = d.count } };

    ghost invariant = { λ d. (d.pc < 2 ^ width Pc) × (d.op < 2 ^ width Op) × (d.rd < 2 ^ width Rd)
        × (d.rs1 < 2 ^ width Rs1) × (d.rs2 < 2 ^ width Rs2) × (d.count < 2 ^ width Count) };

    ghost inverse = { λ d. record { valid = d.valid; pc = d.pc; op = d.op; rd = d.rd; rs1 = d.rs1; rs2 = d.rs2; a = d.a; b = d.b; imm = d.imm; count = d.count } };
}

/// A field of ID/EX.
#[derive(Clone, Copy, PartialEq, Eq)]
pub enum IdExField {
    Valid,
    Pc,
    Op,
    Rd,
    Rs1,
    Rs2,
    A,
    B,
    Imm,
    Count,
}

/// The fields of ID/EX in bit order.
pub const ID_EX_FIELDS: [IdExField; 10] = [
    IdExField::Valid,
    IdExField::Pc,
    IdExField::Op,
    IdExField::Rd,
    IdExField::Rs1,
    IdExField::Rs2,
    IdExField::A,
    IdExField::B,
    IdExField::Imm,
    IdExField::Count,
];

impl Field for IdExField {
    ghost use Rattle.pipe_latch.specs.DecodedBits as bits;

    ghost width_of = { bits.width };

    fn width(self) -> u32 {
        match self {
            IdExField::Valid => 1,
            IdExField::Pc => 30,
            IdExField::Op => 6,
            IdExField::Rd | IdExField::Rs1 | IdExField::Rs2 => 5,
            IdExField::A | IdExField::B | IdExField::Imm => 32,
            IdExField::Count => 5,
        }
    }
}

impl Struck for IdEx {
    ghost use Rattle.bit_field.specs.Layouts.{bit_count as bits_of_layout};
    ghost use Rattle.pipe_latch.specs.DecodedBits as bits;

    ghost IsFit = { bits.IsFit };

    ghost bit_count = { λ _. bits_of_layout bits.layout };

    ghost bit_of = { bits.bit_of };

    ghost flipped = { bits.flipped };

    fn bits(&self) -> u32 {
        ID_EX_BITS
    }

    fn bit(&self, k: u32) -> bool {
        let (field, place) = field_at(&ID_EX_FIELDS, k);
        bit_at(self.value(field), place)
    }

    fn flip(&mut self, k: u32) {
        let (field, place) = field_at(&ID_EX_FIELDS, k);
        let width = field.width();
        match field {
            IdExField::Valid => self.valid = !self.valid,
            IdExField::Pc => flip_at_u32(&mut self.pc, width, place),
            IdExField::Op => flip_at_u8(&mut self.op, width, place),
            IdExField::Rd => flip_at_u8(&mut self.rd, width, place),
            IdExField::Rs1 => flip_at_u8(&mut self.rs1, width, place),
            IdExField::Rs2 => flip_at_u8(&mut self.rs2, width, place),
            IdExField::A => flip_at_u32(&mut self.a, width, place),
            IdExField::B => flip_at_u32(&mut self.b, width, place),
            IdExField::Imm => flip_at_u32(&mut self.imm, width, place),
            IdExField::Count => flip_at_u8(&mut self.count, width, place),
        }
    }

    fn fits(&self) {
        let _a = self.a;
        let _b = self.b;
        let _imm = self.imm;
    }

    fn laws(&self) {}
}

impl IdEx {
    ghost use Rattle.std.specs.Prelude.{◌<◌, Some};
    ghost use Rattle.pipe_latch.specs.DecodedBits as bits;
    ghost use Rattle.pipe_latch.specs.Latches.{no_decoded, op_of_latch};

    /// The empty latch: all zero.
    pub fn empty() -> IdEx
        ensures { result ≡ no_decoded }
    {
        IdEx {
            valid: false,
            pc: 0,
            op: 0,
            rd: 0,
            rs1: 0,
            rs2: 0,
            a: 0,
            b: 0,
            imm: 0,
            count: 0,
        }
    }

    /// The field that holds a bit, and which of the field's own bits that is, both counted from 0.
    pub fn field_at(bit: u32) -> (IdExField, u32)
        requires { bit < ID_EX_BITS }
        ensures { bits.field_of bit ≡ Some result }
    {
        field_at(&ID_EX_FIELDS, bit)
    }

    // The number that a field holds.
    fn value(&self, field: IdExField) -> u32
        ensures { result ≡ bits.value self.now field }
    {
        match field {
            IdExField::Valid => u32::from(self.valid),
            IdExField::Pc => self.pc,
            IdExField::Op => u32::from(self.op),
            IdExField::Rd => u32::from(self.rd),
            IdExField::Rs1 => u32::from(self.rs1),
            IdExField::Rs2 => u32::from(self.rs2),
            IdExField::A => self.a,
            IdExField::B => self.b,
            IdExField::Imm => self.imm,
            IdExField::Count => u32::from(self.count),
        }
    }

    /// The instruction that it holds.
    pub fn instruction(&self) -> Op
        ensures { result ≡ op_of_latch self.now }
    {
        Op {
            code: self.op,
            rd: self.rd,
            rs1: self.rs1,
            rs2: self.rs2,
            imm: self.imm,
        }
    }
}
