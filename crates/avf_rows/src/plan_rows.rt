// Rows of `plan`, `campaign`, `due` and `map`.
use crate::cycle_rows::CONFLICT;
use crate::rows::{Due, Row};
use elf_fixture::THREE;

pub static PLANS: [Row; 11] = [
    Row(
        &THREE,
        "plan a.elf 6 0",
        0,
        Due::Whole("bits 0\nace 0\nof 468\n"),
    ),
    Row(
        &THREE,
        "plan a.elf 6 146",
        0,
        Due::Whole("bits 146\nace 267\nof 468\nnpc\nexmem\nmemwb\n"),
    ),
    Row(
        &THREE,
        "plan a.elf 6 262",
        0,
        Due::Whole("bits 262\nace 372\nof 468\nnpc\nidex\nexmem\n"),
    ),
    Row(
        &THREE,
        "plan a.elf 6 12711",
        0,
        Due::Whole("bits 555\nace 468\nof 468\nnpc\nib\nidex\nexmem\nmemwb\n"),
    ),
    Row(&THREE, "plan a.elf 5 0", 5, Due::Whole("avf: no end\n")),
    Row(
        &THREE,
        "plan a.elf 6 4294967296",
        2,
        Due::Whole("avf: usage\n"),
    ),
    Row(&THREE, "plan a.elf 6", 2, Due::Whole("avf: usage\n")),
    Row(
        &THREE,
        "campaign a.elf 6 1 0",
        2,
        Due::Whole("avf: usage\n"),
    ),
    Row(
        &THREE,
        "campaign a.elf 6 1 10001",
        2,
        Due::Whole("avf: usage\n"),
    ),
    Row(&THREE, "campaign a.elf 6 1 200", 0, Due::Whole(CAMPAIGN)),
    Row(&THREE, "campaign a.elf 6 1 200", 0, Due::Whole(CAMPAIGN)),
];

// The campaign of 200 strikes by the seed 1: the same text each time.
const CAMPAIGN: &str = "\
strikes 200\n\
unace-same 197\n\
unace-differs 0\n\
unace-noend 0\n\
ace-same 0\n\
ace-differs 3\n\
ace-noend 0\n\
";

pub static DUES: [Row; 6] = [
    Row(
        &THREE,
        "due a.elf 6 both",
        0,
        Due::Whole("cycles 6\nstructure true false quiet\nrf 0 256 5696\ncdata 0 0 49152\n"),
    ),
    Row(
        &THREE,
        "due a.elf 6 rf",
        0,
        Due::Whole("cycles 6\nstructure true false quiet\nrf 0 256 5696\n"),
    ),
    Row(
        &CONFLICT,
        "due a.elf 46 cdata",
        0,
        Due::Whole("cycles 46\nstructure true false quiet\ncdata 128 0 376704\n"),
    ),
    Row(&THREE, "due a.elf 5 rf", 5, Due::Whole("avf: no end\n")),
    Row(&THREE, "due a.elf 6 pc", 2, Due::Whole("avf: usage\n")),
    Row(&THREE, "due a.elf 6", 2, Due::Whole("avf: usage\n")),
];

// The map's beginning, and its last line.
pub static MAPS: [Row; 4] = [
    Row(
        &THREE,
        "map a.elf 6",
        0,
        Due::Part("avf-map 1\ncycles 6\ninstructions 3\npc 0 0 6 U1\npc 1 0 6 U1\n"),
    ),
    Row(
        &THREE,
        "map a.elf 6",
        0,
        Due::End("\nclru 30 0 6 U1\nclru 31 0 6 U1\n"),
    ),
    Row(&THREE, "map a.elf 5", 5, Due::Whole("avf: no end\n")),
    Row(&THREE, "map a.elf 6 b", 2, Due::Whole("avf: usage\n")),
];
