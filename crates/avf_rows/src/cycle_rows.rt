// Rows of flat images by their exact number of cycles: each ends within so many cycles, and within none less; and rows of `dead`.
use crate::rows::{Due, Row};
use elf_fixture::THREE;

// A jump to address 0.
pub const NULL: [u32; 1] = [0x00000067];

// A jump over two instructions, which are fetched before it is taken.
pub const SKIP: [u32; 5] = [0x00C0006F, 0x00900513, 0x00900513, 0x05D00893, 0x00000073];

// A register is written twice before it is read.
pub const TWICE: [u32; 5] = [0x00500293, 0x00500293, 0x00028513, 0x05D00893, 0x00000073];

// The cycle counter is read, and is the exit code.
pub const CLOCK: [u32; 3] = [0xC0002573, 0x05D00893, 0x00000073];

// Each word but the first two loads or stores, or is a NOP; a7 = 93 and ECALL end it.
pub const CONFLICT: [u32; 7] = [
    0x00080437, 0x00042283, 0x20042303, 0x40042383, 0x00042503, 0x05D00893, 0x00000073,
];

pub const BESIDE: [u32; 9] = [
    0x00080437, 0x00042283, 0x00540423, 0x00000013, 0x20042303, 0x40042383, 0x00042503, 0x05D00893,
    0x00000073,
];

pub const TAGS: [u32; 7] = [
    0x00080437, 0x00042283, 0x40042303, 0x60042383, 0x20042503, 0x05D00893, 0x00000073,
];

pub const PENDING: [u32; 5] = [0x00080437, 0x00042283, 0x20040023, 0x05D00893, 0x00000073];

// A jump by 2.
const MISALIGNED: [u32; 1] = [0x0020006F];

// A load from address 0.
const LOAD_NULL: [u32; 1] = [0x00042283];

// Behind the program stand no instructions.
const RUNS_OUT: [u32; 1] = [0x00700513];

// The counters are read after another instruction.
const LATE_INSTRUCTIONS: [u32; 3] = [0x05D00893, 0xC0202573, 0x00000073];

const LATE_CYCLES: [u32; 3] = [0x05D00893, 0xC0002573, 0x00000073];

const NO_END: &str = "avf: no end\n";

const CONFLICT_ENDS: &str = "output -\nend exit 0\ninstructions 7\n";

pub static CYCLES: [Row; 30] = [
    Row(
        &THREE,
        "run a.elf 6",
        0,
        Due::Whole("output -\nend exit 7\ninstructions 3\n"),
    ),
    Row(&THREE, "run a.elf 5", 5, Due::Whole(NO_END)),
    Row(
        &NULL,
        "run a.elf 8",
        0,
        Due::Whole("output -\nend trap 1\ninstructions 2\n"),
    ),
    Row(&NULL, "run a.elf 7", 5, Due::Whole(NO_END)),
    Row(
        &MISALIGNED,
        "run a.elf 4",
        0,
        Due::Whole("output -\nend trap 2\ninstructions 1\n"),
    ),
    Row(&MISALIGNED, "run a.elf 3", 5, Due::Whole(NO_END)),
    Row(
        &LOAD_NULL,
        "run a.elf 4",
        0,
        Due::Whole("output -\nend trap 5\ninstructions 1\n"),
    ),
    Row(&LOAD_NULL, "run a.elf 3", 5, Due::Whole(NO_END)),
    Row(
        &RUNS_OUT,
        "run a.elf 5",
        0,
        Due::Whole("output -\nend trap 1\ninstructions 2\n"),
    ),
    Row(&RUNS_OUT, "run a.elf 4", 5, Due::Whole(NO_END)),
    Row(
        &SKIP,
        "run a.elf 9",
        0,
        Due::Whole("output -\nend exit 0\ninstructions 3\n"),
    ),
    Row(&SKIP, "run a.elf 8", 5, Due::Whole(NO_END)),
    Row(
        &TWICE,
        "run a.elf 8",
        0,
        Due::Whole("output -\nend exit 5\ninstructions 5\n"),
    ),
    Row(&TWICE, "run a.elf 7", 5, Due::Whole(NO_END)),
    Row(&CONFLICT, "run a.elf 46", 0, Due::Whole(CONFLICT_ENDS)),
    Row(&CONFLICT, "run a.elf 45", 5, Due::Whole(NO_END)),
    Row(
        &CONFLICT,
        "with 1 32 4 run a.elf 37",
        0,
        Due::Whole(CONFLICT_ENDS),
    ),
    Row(&CONFLICT, "with 1 32 4 run a.elf 36", 5, Due::Whole(NO_END)),
    Row(
        &BESIDE,
        "run a.elf 57",
        0,
        Due::Whole("output -\nend exit 0\ninstructions 9\n"),
    ),
    Row(&BESIDE, "run a.elf 56", 5, Due::Whole(NO_END)),
    Row(&TAGS, "run a.elf 46", 0, Due::Whole(CONFLICT_ENDS)),
    Row(&TAGS, "run a.elf 45", 5, Due::Whole(NO_END)),
    Row(
        &PENDING,
        "run a.elf 17",
        0,
        Due::Whole("output -\nend exit 0\ninstructions 5\n"),
    ),
    Row(&PENDING, "run a.elf 16", 5, Due::Whole(NO_END)),
    Row(
        &CLOCK,
        "run a.elf 6",
        0,
        Due::Whole("output -\nend exit 2\ninstructions 3\n"),
    ),
    Row(&CLOCK, "run a.elf 5", 5, Due::Whole(NO_END)),
    Row(
        &LATE_INSTRUCTIONS,
        "run a.elf 6",
        0,
        Due::Whole("output -\nend exit 1\ninstructions 3\n"),
    ),
    Row(&LATE_INSTRUCTIONS, "run a.elf 5", 5, Due::Whole(NO_END)),
    Row(
        &LATE_CYCLES,
        "run a.elf 6",
        0,
        Due::Whole("output -\nend exit 3\ninstructions 3\n"),
    ),
    Row(&LATE_CYCLES, "run a.elf 5", 5, Due::Whole(NO_END)),
];

// Each instruction but the first copies the register that the one before it wrote; none of them is needed.
const COPIES: [u32; 7] = [
    0x00100293, 0x00028313, 0x00030393, 0x00038E13, 0x00000E13, 0x05D00893, 0x00000073,
];

// A byte is stored, loaded and stored over.
const STORED_OVER: [u32; 6] = [
    0x00080437, 0x00540023, 0x00044303, 0x00540023, 0x05D00893, 0x00000073,
];

pub static DEAD: [Row; 3] = [
    Row(
        &TWICE,
        "dead a.elf 100",
        0,
        Due::Whole("instructions 5\nneeded 4\nnop 0\nfdd-reg 1\ntdd-reg 0\nfdd-mem 0\ntdd-mem 0\n"),
    ),
    Row(
        &COPIES,
        "dead a.elf 100",
        0,
        Due::Whole("instructions 7\nneeded 2\nnop 0\nfdd-reg 2\ntdd-reg 3\nfdd-mem 0\ntdd-mem 0\n"),
    ),
    Row(
        &STORED_OVER,
        "dead a.elf 100",
        0,
        Due::Whole("instructions 6\nneeded 2\nnop 0\nfdd-reg 1\ntdd-reg 1\nfdd-mem 1\ntdd-mem 1\n"),
    ),
];
