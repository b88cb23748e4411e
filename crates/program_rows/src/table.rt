//! Rows from the RISC-V specification and worked rows of this project, none of them from this program's own output.
use rv_table::{
    Access, Action, AluKind, CounterKind, LoadKind, Op, Operation, StoreKind, alu, asked, codes,
    decode, delay_of, encode, loaded, operation_of, register_name, row_named, row_of, store_word,
    table_law, text, trap, write_law,
};
use std::alloc::Global;
use std::test::Fail;

/// A word and its spelling.
struct Spelling(u32, &'static str);

/// Words encoded by hand from the specification's tables.
static SPELLINGS: [Spelling; 18] = [
    Spelling(0x0070_0513, "addi a0, zero, 7"),
    Spelling(0xFFF5_8593, "addi a1, a1, -1"),
    Spelling(0x0054_2623, "sw t0, 12(s0)"),
    Spelling(0x0000_0000, "illegal"),
    Spelling(0x05D0_0893, "addi a7, zero, 93"),
    Spelling(0x0004_2283, "lw t0, 0(s0)"),
    Spelling(0x0020_006F, "jal zero, 2"),
    Spelling(0x0000_0067, "jalr zero, 0(zero)"),
    Spelling(0xFE0F_8EE3, "beq t6, zero, -4"),
    Spelling(0xFE00_0FE3, "beq zero, zero, -2"),
    Spelling(0x0000_00E3, "beq zero, zero, 2048"),
    Spelling(0xFFFF_F037, "lui zero, 1048575"),
    Spelling(0x41F5_5513, "srai a0, a0, 31"),
    Spelling(0x02C5_A533, "mulhsu a0, a1, a2"),
    Spelling(0x0000_0073, "ecall"),
    Spelling(0x0010_0073, "ebreak"),
    Spelling(0x0FF0_000F, "fence"),
    Spelling(0xC820_25F3, "rdinstreth a1"),
];

/// Whether a word is spelled so and is the word of what it means.
fn is_spelled(alloc: Global, row: &Spelling) -> Result<bool, Fail> {
    let op = decode(row.0);
    Ok(text(alloc, &op)?.as_str() == row.1 && encode(&op) == row.0)
}

#[test]
fn words_are_spelled(rt: HostRuntime) -> Result<(), Fail> {
    for row in &SPELLINGS {
        assert!(rt; is_spelled(rt.alloc(), row)?);
    }
    Ok(())
}

/// Whether an operation reads the cycle counter into a0.
fn reads_cycle(op: &Op) -> bool {
    op.code == 50
        && op.rd == 10
        && op.rs1 == 0
        && op.rs2 == 0
        && op.imm == 0
        && matches!(
            operation_of(op.code),
            Operation::ReadCounter(CounterKind::Cycle)
        )
}

#[test]
fn a_counter_read_is_decoded(rt: HostRuntime) {
    assert!(rt; reads_cycle(&decode(0xC000_2573)));
    // with rs1 = ra it writes the counter
    assert!(rt; decode(0xC000_A573).code == 0);
}

const MINIMUM: u32 = 0x8000_0000;

const MINUS_ONE: u32 = 0xFFFF_FFFF;

/// An operation, its two operands and its result.
struct Corner(AluKind, u32, u32, u32);

/// Corner cases that the RISC-V specification names: division by zero, overflow, the signs of a high product, shifts.
static CORNERS: [Corner; 20] = [
    Corner(AluKind::Div, 7, 0, MINUS_ONE),
    Corner(AluKind::Divu, 7, 0, MINUS_ONE),
    Corner(AluKind::Rem, 7, 0, 7),
    Corner(AluKind::Remu, 7, 0, 7),
    Corner(AluKind::Div, MINIMUM, MINUS_ONE, MINIMUM),
    Corner(AluKind::Rem, MINIMUM, MINUS_ONE, 0),
    Corner(AluKind::Div, 0xFFFF_FFF9, 2, 0xFFFF_FFFD),
    Corner(AluKind::Rem, 0xFFFF_FFF9, 2, MINUS_ONE),
    Corner(AluKind::Mulh, MINUS_ONE, MINUS_ONE, 0),
    Corner(AluKind::Mulh, MINIMUM, MINIMUM, 0x4000_0000),
    Corner(AluKind::Mulhsu, MINUS_ONE, MINUS_ONE, MINUS_ONE),
    Corner(AluKind::Mulhsu, 1, MINUS_ONE, 0),
    Corner(AluKind::Mulhu, MINUS_ONE, MINUS_ONE, 0xFFFF_FFFE),
    Corner(AluKind::Mul, MINUS_ONE, MINUS_ONE, 1),
    Corner(AluKind::Sra, MINIMUM, 31, MINUS_ONE),
    Corner(AluKind::Srl, MINIMUM, 31, 1),
    Corner(AluKind::Sll, 3, 33, 6),
    Corner(AluKind::Slt, MINUS_ONE, 1, 1),
    Corner(AluKind::Sltu, MINUS_ONE, 1, 0),
    Corner(AluKind::Sub, 0, 1, MINUS_ONE),
];

#[test]
fn corners_of_the_arithmetic(rt: HostRuntime) {
    for Corner(kind, a, b, result) in &CORNERS {
        assert!(rt; alu(*kind, *a, *b) == *result);
    }
}

/// The trap of an action; 0 where it is another action.
fn trap_of(action: &Action) -> u8 {
    match action {
        Action::Traps(cause) => *cause,
        _ => 0,
    }
}

/// Whether an action loads a word from 0x80000 into t0, and traps where that is no byte of RAM.
fn is_load(load: &Action) -> bool {
    matches!(
        load,
        Action::Loads {
            kind: LoadKind::Lw,
            rd: 5,
            address: 0x8_0000
        }
    ) && matches!(
        load.access(),
        Some(Access {
            address: 0x8_0000,
            size: 4,
            writes: false
        })
    ) && trap_of(&load.judged(false, false)) == trap::LOAD_FAULT
}

#[test]
fn an_action_is_judged(rt: HostRuntime) {
    assert!(rt; is_load(&asked(&decode(0x0004_2283), 0x4000, 0x8_0000, 0)));
    // a jump to address 2
    assert!(rt; trap_of(&asked(&decode(0x0020_006F), 0, 0, 0)) == trap::MISALIGNED_TARGET);
    assert!(rt; loaded(LoadKind::Lh, 0x8_0002, 0x8001_7FFF) == 0xFFFF_8001);
    assert!(rt; store_word(StoreKind::Sb, 0x8_0003, 0x1234_5678) == 0x7800_0000);
}

/// Whether this is the code of a name's row.
fn is_named(name: &[u8], code: u8) -> bool {
    match row_named(name) {
        Some(row) => row.code == code,
        None => false,
    }
}

#[test]
fn rows_are_found_by_code_and_by_name(rt: HostRuntime) {
    table_law();
    write_law();
    assert!(rt; is_named(b"divu", codes::DIVU) && row_named(b"illegal").is_none());
    assert!(rt; delay_of(codes::DIVU) == 15 && delay_of(codes::MULH) == 2);
    assert!(rt; row_of(63).mnemonic == "illegal" && register_name(8) == "s0");
}
