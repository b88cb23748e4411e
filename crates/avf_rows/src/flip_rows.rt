// Rows of `flip`.
use crate::cycle_rows::{CLOCK, CONFLICT, NULL, SKIP};
use crate::rows::{Due, Row};
use elf_fixture::THREE;

// The three words, and behind them an instruction that jumps to itself.
pub const BEFORE_A_LOOP: [u32; 4] = [0x00700513, 0x05D00893, 0x00000073, 0x0000006F];

pub static FLIPS: [Row; 15] = [
    Row(&THREE, "flip a.elf 100 pc 0 0", 0, Due::Whole("same 9\n")),
    Row(&THREE, "flip a.elf 100 pc 0 5", 0, Due::Whole("same 6\n")),
    Row(&THREE, "flip a.elf 100 port 0 0", 0, Due::Whole("same 6\n")),
    Row(
        &THREE,
        "flip a.elf 100 idex 148 2",
        0,
        Due::Whole("same 7\n"),
    ),
    Row(
        &THREE,
        "flip a.elf 100 idex 152 2",
        0,
        Due::Whole("same 22\n"),
    ),
    Row(
        &THREE,
        "flip a.elf 100 npc 0 0",
        0,
        Due::Whole("differs 7\n"),
    ),
    Row(
        &BEFORE_A_LOOP,
        "flip a.elf 100 npc 1 3",
        0,
        Due::Whole("noend 2819\n"),
    ),
    Row(&NULL, "flip a.elf 8 ib 0 4", 0, Due::Whole("differs 6\n")),
    Row(&SKIP, "flip a.elf 9 idex 2 3", 0, Due::Whole("differs 8\n")),
    Row(
        &CONFLICT,
        "flip a.elf 46 ctag 0 14",
        0,
        Due::Whole("same 37\n"),
    ),
    Row(&CLOCK, "flip a.elf 6 pc 0 0", 0, Due::Whole("differs 8\n")),
    Row(
        &THREE,
        "flip a.elf 6 rf 992 0",
        6,
        Due::Whole("avf: no such bit\n"),
    ),
    Row(
        &THREE,
        "flip a.elf 6 nosuch 0 0",
        6,
        Due::Whole("avf: no such bit\n"),
    ),
    Row(
        &THREE,
        "flip a.elf 5 nosuch 0 0",
        5,
        Due::Whole("avf: no end\n"),
    ),
    Row(&THREE, "flip a.elf 6 rf 0", 2, Due::Whole("avf: usage\n")),
];
