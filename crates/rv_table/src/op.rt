// A decoded instruction.
ghost use Rattle.std.specs.Prelude.{◌≡◌};
ghost use Rattle.rv_table.specs.Operations as spec;

/// The code of a word that is in no row of the table.
pub const ILLEGAL_CODE: u8 = 0;

/// The code that is fetched where the word isn't executable.
pub const FETCH_FAULT_CODE: u8 = 1;

/// A decoded instruction: its code (`row_of` gives its row in the table), registers and immediate. A field that the
/// form doesn't have is 0; an immediate is sign-extended to 32 bits (two's complement).
#[derive(Clone, Copy)]
pub struct Op {
    pub code: u8,
    pub rd: u8,
    pub rs1: u8,
    pub rs2: u8,
    pub imm: u32,
}

impl Op {
    /// The operation of these registers, each below 32, without an immediate. A register that its form doesn't have is 0.
    pub fn of_registers(code: u8, rd: u8, rs1: u8, rs2: u8) -> Op
        ensures { result ≡ spec.of_registers code rd rs1 rs2 }
    {
        Op {
            code,
            rd,
            rs1,
            rs2,
            imm: 0,
        }
    }
}
