//! Sources by hand: their faults, and the words and bytes of small programs by the RISC-V specification.
use crate::words::has_words;
use rv_asm::{AsmError, assemble};
use std::alloc::Global;
use std::test::Fail;

/// The line and the number of a source's fault; (0, 0) where it has none.
fn fault(alloc: Global, source: &[u8]) -> (u32, u8) {
    match assemble(alloc, source) {
        Ok(_) => (0, 0),
        Err(AsmError::Bad { line, cause }) => (line, cause),
        Err(AsmError::OutOfMemory) => (0, 8),
    }
}

/// A source and the line and the number of its fault.
struct Faulty(&'static str, u32, u8);

static FAULTY: [Faulty; 21] = [
    Faulty("foo", 1, 2),
    Faulty("addi x1, x2", 1, 3),
    Faulty("addi x1, x2, 4096", 1, 4),
    Faulty("addi x1, x2, 2048", 1, 4),
    Faulty("j nowhere", 1, 6),
    Faulty("a: nop\na: nop", 2, 5),
    Faulty("", 0, 7),
    Faulty(".data", 0, 7),
    Faulty(".byte 1", 1, 3),
    Faulty("nop,", 1, 3),
    Faulty("a: nop:", 1, 3),
    Faulty(": nop", 1, 2),
    Faulty("9a: nop", 1, 2),
    Faulty("rdcycle x1", 1, 2),
    Faulty("add x1, x2, x32", 1, 3),
    Faulty("addi x1, x2, -0x1", 1, 3),
    Faulty("j a\na: foo", 1, 6),
    Faulty("nop\n.data\n.space 524289", 3, 4),
    Faulty("nop\n.data\n_start: .byte 1", 3, 4),
    Faulty("a: nop\na: j nowhere", 2, 5),
    Faulty("nop\nnop\r", 2, 1),
];

#[test]
fn each_fault_is_the_first(rt: HostRuntime) {
    for Faulty(source, line, cause) in &FAULTY {
        assert!(rt; fault(rt.alloc(), source.as_bytes()) == (*line, *cause));
    }
    assert!(rt; fault(rt.alloc(), &[0xFF]) == (1, 1));
}

#[test]
fn a_source_above_1_mib_is_too_long(rt: HostRuntime) -> Result<(), Fail> {
    let mut source = Vec::new(rt.alloc());
    source.resize(1_048_577, b' ')?;
    assert!(rt; fault(rt.alloc(), &source) == (0, 7));
    Ok(())
}

/// The bytes of the headers before a text part alone, and before both parts.
const TEXT_HEADERS: usize = 84;

const BOTH_HEADERS: usize = 116;

/// addi a0, zero, 7 · addi a1, a1, -1 · sw t0, 12(s0) · beq a0, zero, -12 · lui a0, 0x12346 and addi a0, a0, -1 · jal zero, -8
static WORDS: [u32; 7] = [
    0x0070_0513,
    0xFFF5_8593,
    0x0054_2623,
    0xFE05_0AE3,
    0x1234_6537,
    0xFFF5_0513,
    0xFF9F_F06F,
];

/// Spaces and tabs, a comment, a carriage return, a second name of a register, a further form and a label behind.
const SOURCE: &[u8] =
    b"_start: addi a0, zero, 7 # seven\r\n\taddi a1 ,a1, -1\nsw t0, 12 ( fp )\nbeqz a0, _start\n\
    end: li a0, 0x12345FFF\nj end";

#[test]
fn instructions_are_the_specifications_words(rt: HostRuntime) -> Result<(), Fail> {
    let source = b"_start: addi a0, zero, 7 # seven\n\taddi a1 ,a1, -0x1\n";
    assert!(rt; fault(rt.alloc(), source) == (2, 3));
    let file = assemble(rt.alloc(), SOURCE)?;
    assert!(rt; file.len() == TEXT_HEADERS + 4 * WORDS.len());
    assert!(rt; has_words(rt.alloc(), &file, TEXT_HEADERS, &WORDS)?);
    Ok(())
}

/// A text part and a data part, with the entry in the middle of the first.
const BOTH_PARTS: &[u8] =
    b"nop\n.data\na: .byte -1\nb: .space 2\n.word 0xFFFFFFFF\n.text\n_start: la a0, b\nret\n";

/// LUI a0, 0x80 and ADDI a0, a0, 1; JALR; then the first four of 1 + 2 + 4 bytes.
static PARTS: [u32; 4] = [0x0008_0537, 0x0015_0513, 0x0000_8067, 0xFF00_00FF];

#[test]
fn both_parts_and_the_entry(rt: HostRuntime) -> Result<(), Fail> {
    let file = assemble(rt.alloc(), BOTH_PARTS)?;
    // the entry behind the NOP
    assert!(rt; has_words(rt.alloc(), &file, 24, &[0x1_0004])?);
    assert!(rt; has_words(rt.alloc(), &file, BOTH_HEADERS + 4, &PARTS)?);
    assert!(rt; file.len() == BOTH_HEADERS + 16 + 7);
    Ok(())
}
