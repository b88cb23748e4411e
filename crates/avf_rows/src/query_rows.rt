// Rows of `query`.
use crate::cycle_rows::{BESIDE, CLOCK, CONFLICT, NULL, PENDING, SKIP, TAGS, TWICE};
use crate::rows::{Due, Row};
use elf_fixture::THREE;

// Illegal words.
const ILLEGAL: [u32; 2] = [0, 0];

// Rows that name no bit of the machine, or no query.
pub static REFUSALS: [Row; 9] = [
    Row(
        &THREE,
        "query a.elf 6 rf 992 0",
        6,
        Due::Whole("avf: no such bit\n"),
    ),
    Row(
        &THREE,
        "query a.elf 6 rf 0 6",
        6,
        Due::Whole("avf: no such bit\n"),
    ),
    Row(
        &THREE,
        "query a.elf 6 nosuch 0 0",
        6,
        Due::Whole("avf: no such bit\n"),
    ),
    Row(
        &THREE,
        "query a.elf 5 nosuch 0 0",
        5,
        Due::Whole("avf: no end\n"),
    ),
    Row(
        &THREE,
        "with 1 16 1 query a.elf 6 cvalid 16 0",
        6,
        Due::Whole("avf: no such bit\n"),
    ),
    Row(&THREE, "query a.elf 6 rf 0", 2, Due::Whole("avf: usage\n")),
    Row(
        &THREE,
        "query a.elf 6 rf 0 4294967296",
        2,
        Due::Whole("avf: usage\n"),
    ),
    Row(&THREE, "query a.elf 6  0 0", 2, Due::Whole("avf: usage\n")),
    Row(
        &CONFLICT,
        "with 1 32 1 query a.elf 46 clru 0 0",
        6,
        Due::Whole("avf: no such bit\n"),
    ),
];

// Programs of few instructions: each rule shown on one of them.
pub static PIPELINE: [Row; 21] = [
    Row(
        &THREE,
        "query a.elf 100 rf 991 0",
        0,
        Due::Whole("unace U6\n"),
    ),
    Row(&THREE, "query a.elf 100 npc 0 5", 0, Due::Whole("ace\n")),
    Row(
        &THREE,
        "query a.elf 100 sb 0 0",
        0,
        Due::Whole("unace U8\n"),
    ),
    Row(
        &THREE,
        "query a.elf 100 ib 46 1",
        0,
        Due::Whole("unace U5\n"),
    ),
    Row(&THREE, "query a.elf 100 ib 32 1", 0, Due::Whole("ace\n")),
    Row(
        &THREE,
        "query a.elf 100 exmem 75 3",
        0,
        Due::Whole("unace U13\n"),
    ),
    Row(&NULL, "query a.elf 8 ib 0 4", 0, Due::Whole("ace\n")),
    Row(&NULL, "query a.elf 8 ib 0 0", 0, Due::Whole("unace U4\n")),
    Row(&SKIP, "query a.elf 9 idex 2 3", 0, Due::Whole("ace\n")),
    Row(&SKIP, "query a.elf 9 idex 1 3", 0, Due::Whole("unace U3\n")),
    Row(
        &TWICE,
        "query a.elf 8 idex 116 2",
        0,
        Due::Whole("unace U5\n"),
    ),
    Row(&TWICE, "query a.elf 8 idex 33 2", 0, Due::Whole("ace\n")),
    Row(
        &TWICE,
        "query a.elf 8 idex 36 2",
        0,
        Due::Whole("unace U5\n"),
    ),
    Row(&CLOCK, "query a.elf 6 pc 0 0", 0, Due::Whole("ace\n")),
    Row(&CLOCK, "query a.elf 6 pc 0 2", 0, Due::Whole("ace\n")),
    Row(&CLOCK, "query a.elf 6 pc 0 3", 0, Due::Whole("unace U1\n")),
    Row(&CLOCK, "query a.elf 6 rf 0 0", 0, Due::Whole("ace\n")),
    Row(&CLOCK, "query a.elf 6 rf 0 3", 0, Due::Whole("unace U6\n")),
    Row(&CLOCK, "query a.elf 6 sb 4 0", 0, Due::Whole("unace U2\n")),
    Row(
        &CLOCK,
        "query a.elf 6 exmem 75 3",
        0,
        Due::Whole("unace U13\n"),
    ),
    Row(&ILLEGAL, "query a.elf 4 exmem 77 3", 0, Due::Whole("ace\n")),
];

// The same for programs that load and store.
pub static MEMORY: [Row; 22] = [
    Row(
        &CONFLICT,
        "query a.elf 46 cdata 0 13",
        0,
        Due::Whole("ace\n"),
    ),
    Row(
        &CONFLICT,
        "query a.elf 46 cdata 0 14",
        0,
        Due::Whole("unace U9\n"),
    ),
    Row(
        &CONFLICT,
        "query a.elf 46 cdata 32 13",
        0,
        Due::Whole("unace U9\n"),
    ),
    Row(
        &CONFLICT,
        "query a.elf 46 ctag 0 14",
        0,
        Due::Whole("ace\n"),
    ),
    Row(
        &CONFLICT,
        "query a.elf 46 ctag 2 14",
        0,
        Due::Whole("unace U11\n"),
    ),
    Row(
        &CONFLICT,
        "query a.elf 47 rf 238 4",
        0,
        Due::Whole("unace U6\n"),
    ),
    Row(
        &CONFLICT,
        "query a.elf 1000 rf 238 5",
        0,
        Due::Whole("ace\n"),
    ),
    Row(&BESIDE, "query a.elf 57 cdata 0 14", 0, Due::Whole("ace\n")),
    Row(
        &BESIDE,
        "query a.elf 57 cdata 8 14",
        0,
        Due::Whole("unace U9\n"),
    ),
    Row(&BESIDE, "query a.elf 57 cdata 0 20", 0, Due::Whole("ace\n")),
    Row(
        &BESIDE,
        "query a.elf 57 cdata 8 20",
        0,
        Due::Whole("unace U7\n"),
    ),
    Row(
        &BESIDE,
        "query a.elf 57 exmem 1 2",
        0,
        Due::Whole("unace U2\n"),
    ),
    Row(
        &BESIDE,
        "query a.elf 1000 exmem 1 3",
        0,
        Due::Whole("ace\n"),
    ),
    Row(
        &BESIDE,
        "query a.elf 57 sb 14 16",
        0,
        Due::Whole("unace U8\n"),
    ),
    Row(&BESIDE, "query a.elf 58 sb 5 16", 0, Due::Whole("ace\n")),
    Row(
        &BESIDE,
        "query a.elf 1000 cvalid 0 16",
        0,
        Due::Whole("unace U10\n"),
    ),
    Row(
        &BESIDE,
        "query a.elf 1000000 cdirty 0 43",
        0,
        Due::Whole("ace\n"),
    ),
    Row(&TAGS, "query a.elf 46 ctag 0 13", 0, Due::Whole("ace\n")),
    Row(
        &TAGS,
        "query a.elf 46 ctag 0 14",
        0,
        Due::Whole("unace U12\n"),
    ),
    Row(&PENDING, "query a.elf 17 ctag 0 14", 0, Due::Whole("ace\n")),
    Row(&PENDING, "query a.elf 17 ctag 0 15", 0, Due::Whole("ace\n")),
    Row(
        &PENDING,
        "query a.elf 17 ctag 0 16",
        0,
        Due::Whole("unace U12\n"),
    ),
];
