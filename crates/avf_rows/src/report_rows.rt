// Rows of `report` and `csv`.
use crate::rows::{Due, Row};
use elf_fixture::THREE;

// The report of the three words.
const REPORT: &str = "\
cycles 6\n\
instructions 3\n\
end exit 7\n\
structure bits ace ppm\n\
pc 30 0 0\n\
npc 30 180 1000000\n\
bht 128 0 0\n\
btb 912 0 0\n\
ib 256 83 54036\n\
idex 153 118 128540\n\
exmem 79 74 156118\n\
memwb 37 13 58558\n\
rf 992 0 0\n\
sb 264 0 0\n\
port 6 0 0\n\
cdata 8192 0 0\n\
ctag 1472 0 0\n\
cvalid 64 0 0\n\
cdirty 64 0 0\n\
clru 32 0 0\n\
total 12711 468 6136\n\
U1 6678\n\
U2 61709\n\
U3 276\n\
U4 207\n\
U5 484\n\
U6 5952\n\
U7 0\n\
U8 96\n\
U9 0\n\
U10 0\n\
U11 384\n\
U12 0\n\
U13 12\n\
";

pub static REPORTS: [Row; 16] = [
    Row(&THREE, "report a.elf 6", 0, Due::Whole(REPORT)),
    Row(&THREE, "with 1 32 2 report a.elf 6", 0, Due::Whole(REPORT)),
    Row(&THREE, "report a.elf 5", 5, Due::Whole("avf: no end\n")),
    Row(&THREE, "csv a.elf 5", 5, Due::Whole("avf: no end\n")),
    Row(&THREE, "report a.elf", 2, Due::Whole("avf: usage\n")),
    Row(&THREE, "bench 1 0", 2, Due::Whole("avf: usage\n")),
    Row(&THREE, "bench 1 4097", 2, Due::Whole("avf: usage\n")),
    Row(
        &THREE,
        "bench 18446744073709551616 1",
        2,
        Due::Whole("avf: usage\n"),
    ),
    Row(&THREE, "bench 1 1 1", 2, Due::Whole("avf: usage\n")),
    Row(
        &THREE,
        "csv a.elf 6",
        0,
        Due::Part("structure,bits,cycles,ace,ppm,U1,U2,U3,U4,U5,U6,U7,U8,U9,U10,U11,U12,U13\n"),
    ),
    Row(
        &THREE,
        "csv a.elf 6",
        0,
        Due::Part("\nib,256,6,83,54036,0,1197,128,112,16,0,0,0,0,0,0,0,0\n"),
    ),
    Row(
        &THREE,
        "csv a.elf 6",
        0,
        Due::Part("\nidex,153,6,118,128540,30,294,148,95,233,0,0,0,0,0,0,0,0\n"),
    ),
    Row(
        &THREE,
        "csv a.elf 6",
        0,
        Due::Part("\nexmem,79,6,74,156118,0,234,0,0,154,0,0,0,0,0,0,0,12\n"),
    ),
    Row(
        &THREE,
        "with 1 16 1 report a.elf 6",
        0,
        Due::Part("\ncdata 2048 0 0\nctag 384 0 0\ncvalid 16 0 0\n"),
    ),
    Row(
        &THREE,
        "with 1 16 1 report a.elf 6",
        0,
        Due::Part("\nclru 0 0 0\n"),
    ),
    Row(
        &THREE,
        "with 1 16 1 report a.elf 6",
        0,
        Due::Part("\ntotal 5351 468 14576\n"),
    ),
];
