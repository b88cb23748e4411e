// Rows by the spelling of the command, on the flat image of three words.
use crate::rows::{Due, Row};
use elf_fixture::THREE;

// What the program of three words gives.
const ENDED: &str = "output -\nend exit 7\ninstructions 3\n";

const USAGE: &str = "avf: usage\n";

pub static SPELLINGS: [Row; 23] = [
    Row(&THREE, "run a.elf 0", 2, Due::Whole(USAGE)),
    Row(&THREE, "run a.elf 1000001", 2, Due::Whole(USAGE)),
    Row(&THREE, "run a.elf 006", 2, Due::Whole(USAGE)),
    Row(&THREE, "run a.elf", 2, Due::Whole(USAGE)),
    Row(&THREE, "fly a.elf 6", 2, Due::Whole(USAGE)),
    Row(&THREE, "run  6", 2, Due::Whole(USAGE)),
    Row(&THREE, "with 0 32 2 run a.elf 6", 2, Due::Whole(USAGE)),
    Row(&THREE, "with 17 32 2 run a.elf 6", 2, Due::Whole(USAGE)),
    Row(&THREE, "with 1 48 2 run a.elf 6", 2, Due::Whole(USAGE)),
    Row(&THREE, "with 1 32 3 run a.elf 6", 2, Due::Whole(USAGE)),
    Row(&THREE, "with 01 32 2 run a.elf 6", 2, Due::Whole(USAGE)),
    Row(&THREE, "with 1 32 2", 2, Due::Whole(USAGE)),
    Row(&THREE, "with 1 32 run a.elf 6", 2, Due::Whole(USAGE)),
    Row(&THREE, "with 1 32 2 fly a.elf 6", 2, Due::Whole(USAGE)),
    Row(
        &THREE,
        "with 1 32 2 with 1 32 2 run a.elf 6",
        2,
        Due::Whole(USAGE),
    ),
    Row(&THREE, "with", 2, Due::Whole(USAGE)),
    Row(&THREE, "asm", 2, Due::Whole(USAGE)),
    Row(&THREE, "asm ", 2, Due::Whole(USAGE)),
    Row(&THREE, "asm a.s 6", 2, Due::Whole(USAGE)),
    Row(&THREE, "with 1 32 2 asm a.s", 2, Due::Whole(USAGE)),
    Row(&THREE, "run a.elf 6", 0, Due::Whole(ENDED)),
    Row(&THREE, "with 16 128 4 run a.elf 6", 0, Due::Whole(ENDED)),
    Row(&THREE, "with 1 16 1 run a.elf 6", 0, Due::Whole(ENDED)),
];
