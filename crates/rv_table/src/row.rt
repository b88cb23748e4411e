// The word table: one row for each instruction.
ghost use Rattle.std.specs.Prelude.{◌≡◌, ◌<◌, ◌^◌, find, map, option_map};
ghost use Rattle.std.specs.Option.{option_copied};
ghost use Rattle.rv_table.specs.Codes.{fixed_word};
ghost use Rattle.rv_table.specs.Operations as operations;
ghost use Rattle.rv_table.specs.Rows as spec;
ghost use Rattle.rv_table.specs.Rows.{has_word, rows, shown};
ghost use Rattle.rv_table.specs.TableLaw.{TableLaw};

use crate::AluKind::{
    Add, And, Div, Divu, Mul, Mulh, Mulhsu, Mulhu, Or, Rem, Remu, Sll, Slt, Sltu, Sra, Srl, Sub,
    Xor,
};
use crate::BranchKind::{Beq, Bge, Bgeu, Blt, Bltu, Bne};
use crate::CounterKind::{Cycle, Cycleh, Instret, Instreth};
use crate::Form::{B, Call, Counter, I, J, NoFields, R, S, Shift, U};
use crate::LoadKind::{Lb, Lbu, Lh, Lhu, Lw};
use crate::Operation::{
    Alu, AluImmediate, Auipc, Branch, Ebreak, Ecall, Fence, FetchFault, Illegal, Jal, Jalr, Load,
    Lui, ReadCounter, Store,
};
use crate::StoreKind::{Sb, Sh, Sw};
use crate::op::{FETCH_FAULT_CODE, ILLEGAL_CODE};
use crate::{Form, Operation, codes};

/// The bits of a word that say which instruction it is: opcode, funct3 and funct7 as far as they are given, all bits, or all but
/// those of rd (the RISC-V specification's fields).
#[derive(Clone, Copy)]
pub enum Pattern {
    /// No word has it.
    NoWord,
    Opcode(u32),
    Funct3(u32, u32),
    Funct7(u32, u32, u32),
    Word(u32),
    WordButRd(u32),
}

use Pattern::{Funct3, Funct7, NoWord, Opcode, Word, WordButRd};

impl Pattern {
    /// Whether some word has it.
    pub fn has_word(self) -> bool
        ensures { result ≡ has_word self }
    {
        !matches!(self, NoWord)
    }

    /// The bits that are given, 0 in the others.
    pub fn bits(self) -> u32
        requires { fixed_word self < 2 ^ 32 }
        ensures { result ≡ fixed_word self }
    {
        match self {
            NoWord => 0,
            Opcode(opcode) => opcode,
            Funct3(opcode, funct3) => opcode + funct3 * 0x1000,
            Funct7(opcode, funct3, funct7) => opcode + funct3 * 0x1000 + funct7 * 0x200_0000,
            Word(word) | WordButRd(word) => word,
        }
    }
}

/// How many cycles more than others a product stays in EX.
pub const MULTIPLY_DELAY: u8 = 2;

/// How many cycles more than others a quotient or a remainder stays in EX.
pub const DIVIDE_DELAY: u8 = 15;

/// What the table tells of an instruction.
#[derive(Clone, Copy)]
pub struct InstructionRow {
    /// Its number, from 0 on in the order of the table.
    pub code: u8,
    /// Its name, as the assembler has it.
    pub mnemonic: &'static str,
    /// The bits that make a word this instruction.
    pub fixed: Pattern,
    /// Which fields its word has.
    pub form: Form,
    /// What it does.
    pub operation: Operation,
    /// How many cycles more than others it stays in EX.
    pub delay: u8,
}

macro_rules! instruction_rows {
    ($($code:expr, $mnemonic:expr, $fixed:expr, $form:expr, $operation:expr, $delay:expr;)*) => {
        [$(InstructionRow {
            code: $code,
            mnemonic: $mnemonic,
            fixed: $fixed,
            form: $form,
            operation: $operation,
            delay: $delay,
        }),*]
    };
}

/// The rows in the order of their codes; the first is that of every word that is in no other.
static ROWS: [InstructionRow; 54] = instruction_rows! {
    ILLEGAL_CODE, "illegal", NoWord, NoFields, Illegal, 0;
    FETCH_FAULT_CODE, "fault", NoWord, NoFields, FetchFault, 0;
    codes::LUI, "lui", Opcode(0x37), U, Lui, 0;
    codes::AUIPC, "auipc", Opcode(0x17), U, Auipc, 0;
    codes::JAL, "jal", Opcode(0x6F), J, Jal, 0;
    codes::JALR, "jalr", Funct3(0x67, 0), I, Jalr, 0;
    codes::BEQ, "beq", Funct3(0x63, 0), B, Branch(Beq), 0;
    codes::BNE, "bne", Funct3(0x63, 1), B, Branch(Bne), 0;
    codes::BLT, "blt", Funct3(0x63, 4), B, Branch(Blt), 0;
    codes::BGE, "bge", Funct3(0x63, 5), B, Branch(Bge), 0;
    codes::BLTU, "bltu", Funct3(0x63, 6), B, Branch(Bltu), 0;
    codes::BGEU, "bgeu", Funct3(0x63, 7), B, Branch(Bgeu), 0;
    codes::LB, "lb", Funct3(0x03, 0), I, Load(Lb), 0;
    codes::LH, "lh", Funct3(0x03, 1), I, Load(Lh), 0;
    codes::LW, "lw", Funct3(0x03, 2), I, Load(Lw), 0;
    codes::LBU, "lbu", Funct3(0x03, 4), I, Load(Lbu), 0;
    codes::LHU, "lhu", Funct3(0x03, 5), I, Load(Lhu), 0;
    codes::SB, "sb", Funct3(0x23, 0), S, Store(Sb), 0;
    codes::SH, "sh", Funct3(0x23, 1), S, Store(Sh), 0;
    codes::SW, "sw", Funct3(0x23, 2), S, Store(Sw), 0;
    codes::ADDI, "addi", Funct3(0x13, 0), I, AluImmediate(Add), 0;
    codes::SLTI, "slti", Funct3(0x13, 2), I, AluImmediate(Slt), 0;
    codes::SLTIU, "sltiu", Funct3(0x13, 3), I, AluImmediate(Sltu), 0;
    codes::XORI, "xori", Funct3(0x13, 4), I, AluImmediate(Xor), 0;
    codes::ORI, "ori", Funct3(0x13, 6), I, AluImmediate(Or), 0;
    codes::ANDI, "andi", Funct3(0x13, 7), I, AluImmediate(And), 0;
    codes::SLLI, "slli", Funct7(0x13, 1, 0x00), Shift, AluImmediate(Sll), 0;
    codes::SRLI, "srli", Funct7(0x13, 5, 0x00), Shift, AluImmediate(Srl), 0;
    codes::SRAI, "srai", Funct7(0x13, 5, 0x20), Shift, AluImmediate(Sra), 0;
    codes::ADD, "add", Funct7(0x33, 0, 0x00), R, Alu(Add), 0;
    codes::SUB, "sub", Funct7(0x33, 0, 0x20), R, Alu(Sub), 0;
    codes::SLL, "sll", Funct7(0x33, 1, 0x00), R, Alu(Sll), 0;
    codes::SLT, "slt", Funct7(0x33, 2, 0x00), R, Alu(Slt), 0;
    codes::SLTU, "sltu", Funct7(0x33, 3, 0x00), R, Alu(Sltu), 0;
    codes::XOR, "xor", Funct7(0x33, 4, 0x00), R, Alu(Xor), 0;
    codes::SRL, "srl", Funct7(0x33, 5, 0x00), R, Alu(Srl), 0;
    codes::SRA, "sra", Funct7(0x33, 5, 0x20), R, Alu(Sra), 0;
    codes::OR, "or", Funct7(0x33, 6, 0x00), R, Alu(Or), 0;
    codes::AND, "and", Funct7(0x33, 7, 0x00), R, Alu(And), 0;
    codes::MUL, "mul", Funct7(0x33, 0, 0x01), R, Alu(Mul), MULTIPLY_DELAY;
    codes::MULH, "mulh", Funct7(0x33, 1, 0x01), R, Alu(Mulh), MULTIPLY_DELAY;
    codes::MULHSU, "mulhsu", Funct7(0x33, 2, 0x01), R, Alu(Mulhsu), MULTIPLY_DELAY;
    codes::MULHU, "mulhu", Funct7(0x33, 3, 0x01), R, Alu(Mulhu), MULTIPLY_DELAY;
    codes::DIV, "div", Funct7(0x33, 4, 0x01), R, Alu(Div), DIVIDE_DELAY;
    codes::DIVU, "divu", Funct7(0x33, 5, 0x01), R, Alu(Divu), DIVIDE_DELAY;
    codes::REM, "rem", Funct7(0x33, 6, 0x01), R, Alu(Rem), DIVIDE_DELAY;
    codes::REMU, "remu", Funct7(0x33, 7, 0x01), R, Alu(Remu), DIVIDE_DELAY;
    codes::FENCE, "fence", Funct3(0x0F, 0), NoFields, Fence, 0;
    codes::ECALL, "ecall", Word(0x0000_0073), Call, Ecall, 0;
    codes::EBREAK, "ebreak", Word(0x0010_0073), NoFields, Ebreak, 0;
    codes::RDCYCLE, "rdcycle", WordButRd(0xC000_2073), Counter, ReadCounter(Cycle), 0;
    codes::RDINSTRET, "rdinstret", WordButRd(0xC020_2073), Counter, ReadCounter(Instret), 0;
    codes::RDCYCLEH, "rdcycleh", WordButRd(0xC800_2073), Counter, ReadCounter(Cycleh), 0;
    codes::RDINSTRETH, "rdinstreth", WordButRd(0xC820_2073), Counter, ReadCounter(Instreth), 0;
};

/// The rows of the table, in the order of their codes.
pub fn all_rows() -> &'static [InstructionRow]
    ensures { map shown result.now ≡ rows }
{
    &ROWS
}

#[tactic(auto, using(crate::proofs::RowLookups::looking_up))]
/// The row of a code, 0 to 53; every other code acts as ILLEGAL, code 0.
pub fn row_of(code: u8) -> &'static InstructionRow
    ensures row { shown result.now ≡ spec.row_of code }
    ensures bits { fixed_word result.now.fixed < 2 ^ 32 }
{
    let rows = all_rows();
    if (code as usize) < rows.len() {
        &rows[code as usize]
    } else {
        &rows[0]
    }
}

/// The row of the instruction that the assembler calls `name`; none where no instruction has that name.
pub fn row_named(name: &[u8]) -> Option<&'static InstructionRow>
    ensures { option_map shown (option_copied result) ≡ spec.row_named name.now }
{
    first_named(all_rows(), name)
}

/// The first of these rows that the assembler calls `name`.
fn first_named<'a>(rows: &'a [InstructionRow], name: &[u8]) -> Option<&'a InstructionRow>
    ensures { option_copied result ≡ find (λ row. spec.is_named name.now (shown row)) rows.now }
{
    rows.iter().find(|row| is_named(row, name))
}

fn is_named(row: &InstructionRow, name: &[u8]) -> bool
    ensures { result ≡ spec.is_named name.now (shown row.now) }
{
    row.fixed.has_word() && row.mnemonic.as_bytes() == name
}

#[tactic(auto, unfolding(crate::specs::Operations::operation_of))]
/// What a code means, 0 to 53 in the order of the table. Every other code acts as ILLEGAL.
#[inline]
pub fn operation_of(code: u8) -> Operation
    ensures { result ≡ operations.operation_of code }
{
    row_of(code).operation
}

#[tactic(auto, unfolding(crate::specs::Operations::form_of))]
/// Which fields the word of a code has. ILLEGAL and each code that has no word have no fields.
pub fn form_of(code: u8) -> Form
    ensures { result ≡ operations.form_of code }
{
    row_of(code).form
}

#[tactic(auto, unfolding(crate::specs::Operations::has_row))]
/// Whether a code has words: 2 to 53 have.
pub fn has_row(code: u8) -> bool
    ensures { result ≡ operations.has_row code }
{
    row_of(code).fixed.has_word()
}

#[tactic(auto, using(crate::proofs::RowLookups::delaying), unfolding(crate::specs::Operations::delay_of))]
/// How many cycles more than others an operation stays in EX: 2 for a product, 15 for a quotient or a remainder.
pub fn delay_of(code: u8) -> u8
    ensures delay { result ≡ operations.delay_of code }
    ensures within { result < 32 }
{
    row_of(code).delay
}

/// Says that the rows stand in the order of their codes, that no word has two rows, and no name. It does nothing.
pub fn table_law()
    ensures { TableLaw }
{}
