// Rows of `asm`: sources, and the images or the faults that they give.
use crate::images::filled;
use crate::rows::{Due, Given, Row, call, gives};
use avf_base::{OutOfMemory, Steps};
use std::alloc::{AllocError, Global};
use std::sync::ledger::Ledger;

// Fills a table with 1 to 64, and prints their sum.
const SUM: &str = "\
_start: lui sp, 0x110\n\
la a0, table\n\
li a1, 64\n\
call fill\n\
la a0, table\n\
li a1, 64\n\
call sum\n\
call print\n\
li a0, 0\n\
li a7, 93\n\
ecall\n\
fill: li t0, 1\n\
f1: sw t0, 0(a0)\n\
addi t0, t0, 1\n\
addi a0, a0, 4\n\
addi a1, a1, -1\n\
bnez a1, f1\n\
ret\n\
sum: li t0, 0\n\
s1: lw t1, 0(a0)\n\
add t0, t0, t1\n\
addi a0, a0, 4\n\
addi a1, a1, -1\n\
bnez a1, s1\n\
mv a0, t0\n\
ret\n\
print: addi sp, sp, -16\n\
sw ra, 12(sp)\n\
sw a0, 8(sp)\n\
li t0, 10\n\
divu a0, a0, t0\n\
beqz a0, p1\n\
call print\n\
p1: lw a0, 8(sp)\n\
li t0, 10\n\
remu a0, a0, t0\n\
addi a0, a0, 48\n\
li a7, 1\n\
ecall\n\
lw ra, 12(sp)\n\
addi sp, sp, 16\n\
ret\n\
.data\n\
table: .space 256\n";

// The run and the report of its image.
static SUM_ROWS: [Row; 2] = [
    Row(
        &[],
        "run a.elf 100000",
        0,
        Due::Whole("output 32303830\nend exit 0\ninstructions 721\n"),
    ),
    Row(&[], "report a.elf 100000", 0, Due::Whole(SUM_REPORT)),
];

const SUM_REPORT: &str = "\
cycles 947\n\
instructions 721\n\
end exit 0\n\
structure bits ace ppm\n\
pc 30 0 0\n\
npc 30 28410 1000000\n\
bht 128 0 0\n\
btb 912 0 0\n\
ib 256 72169 297687\n\
idex 153 57591 397478\n\
exmem 79 25671 343135\n\
memwb 37 18502 528040\n\
rf 992 81995 87282\n\
sb 264 25040 100156\n\
port 6 0 0\n\
cdata 8192 771032 99387\n\
ctag 1472 148189 106306\n\
cvalid 64 6443 106306\n\
cdirty 64 6443 106306\n\
clru 32 0 0\n\
total 12711 1241485 103136\n\
U1 1054011\n\
U2 7567212\n\
U3 12354\n\
U4 103440\n\
U5 86105\n\
U6 857429\n\
U7 885584\n\
U8 13632\n\
U9 2560\n\
U10 40\n\
U11 210581\n\
U12 0\n\
U13 2884\n\
";

// How many instructions the largest text part has.
const MOST: u32 = 114_688;

// The program of so many NOPs runs on behind them.
static LARGEST: [Row; 1] = [Row(
    &[],
    "run a.elf 1000000",
    0,
    Due::Whole("output -\nend trap 1\ninstructions 114689\n"),
)];

// A source, and what `asm` tells of its fault.
struct Faulty(&'static [u8], &'static str);

static FAULTS: [Faulty; 10] = [
    Faulty(b"foo", "avf: bad source 1 2\n"),
    Faulty(b"addi x1, x2", "avf: bad source 1 3\n"),
    Faulty(b"addi x1, x2, 4096", "avf: bad source 1 4\n"),
    Faulty(b"addi x1, x2, 2048", "avf: bad source 1 4\n"),
    Faulty(b"j nowhere", "avf: bad source 1 6\n"),
    Faulty(b"a: nop\na: nop", "avf: bad source 2 5\n"),
    Faulty(b"nop\xFF", "avf: bad source 1 1\n"),
    Faulty(b".byte 1", "avf: bad source 1 3\n"),
    Faulty(b".data", "avf: bad source 0 7\n"),
    Faulty(b"", "avf: bad source 0 7\n"),
];

// Whether a call of `asm` gave an image.
fn is_image(given: &Given) -> bool {
    given.status == 0 && given.err.kept().is_empty()
}

// Whether `asm` gives an image of this source, and commands over it give what the rows say.
fn image_holds<L: Ledger, M: Ledger>(
    alloc: Global,
    source: &[u8],
    rows: &[Row],
    steps: &mut Steps<L>,
    applies: &mut Steps<M>,
) -> Result<bool, OutOfMemory> {
    let given = call(alloc, "asm a.s", source, steps, applies)?;
    for row in rows {
        if !gives(alloc, given.out.kept(), row, steps, applies)? {
            return Ok(false);
        }
    }
    Ok(is_image(&given))
}

// Whether `asm` refuses this source so.
fn is_refused<L: Ledger, M: Ledger>(
    alloc: Global,
    source: &[u8],
    told: &'static str,
    steps: &mut Steps<L>,
    applies: &mut Steps<M>,
) -> Result<bool, OutOfMemory> {
    let row = Row(&[], "asm a.s", 9, Due::Whole(told));
    gives(alloc, source, &row, steps, applies)
}

// One instruction and then blanks, in so many bytes.
fn long_source(alloc: Global, len: usize) -> Result<Vec<u8>, AllocError> {
    let mut source = filled(alloc, b' ', len)?;
    for (place, byte) in source.iter_mut().zip(b"nop") {
        *place = *byte;
    }
    Ok(source)
}

// So many NOPs.
fn nops(alloc: Global, count: u32) -> Result<Vec<u8>, AllocError> {
    let mut source = Vec::new(alloc);
    for _ in 0..count {
        source.extend_from_slice(b"nop\n")?;
    }
    Ok(source)
}

// Whether the two calls gave the same image.
fn are_same(one: &Given, other: &Given) -> bool {
    is_image(one) && is_image(other) && one.out.kept() == other.out.kept()
}

// Whether one instruction has the same image alone and in the longest source.
fn longest_holds<L: Ledger, M: Ledger>(
    alloc: Global,
    steps: &mut Steps<L>,
    applies: &mut Steps<M>,
) -> Result<bool, OutOfMemory> {
    let short = call(alloc, "asm a.s", b"nop", steps, applies)?;
    let source = long_source(alloc, 1_048_576)?;
    let long = call(alloc, "asm a.s", &source, steps, applies)?;
    Ok(are_same(&short, &long))
}

// Whether sources that are longer by a byte are refused.
fn longer_refused<L: Ledger, M: Ledger>(
    alloc: Global,
    steps: &mut Steps<L>,
    applies: &mut Steps<M>,
) -> Result<bool, OutOfMemory> {
    let longer = long_source(alloc, 1_048_577)?;
    if !is_refused(alloc, &longer, "avf: bad source 0 7\n", steps, applies)? {
        return Ok(false);
    }
    let blank = filled(alloc, b' ', 1_048_577)?;
    is_refused(alloc, &blank, "avf: bad source 0 7\n", steps, applies)
}

// Whether the largest text part has its image, and one more instruction is refused.
fn largest_holds<L: Ledger, M: Ledger>(
    alloc: Global,
    steps: &mut Steps<L>,
    applies: &mut Steps<M>,
) -> Result<bool, OutOfMemory> {
    let largest = nops(alloc, MOST)?;
    if !image_holds(alloc, &largest, &LARGEST, steps, applies)? {
        return Ok(false);
    }
    let larger = nops(alloc, MOST + 1)?;
    is_refused(alloc, &larger, "avf: bad source 0 7\n", steps, applies)
}

// Whether the sources with a fault are refused.
fn faults_refused<L: Ledger, M: Ledger>(
    alloc: Global,
    steps: &mut Steps<L>,
    applies: &mut Steps<M>,
) -> Result<bool, OutOfMemory> {
    for Faulty(source, told) in &FAULTS {
        if !is_refused(alloc, source, told, steps, applies)? {
            return Ok(false);
        }
    }
    Ok(true)
}

// Whether these rows hold.
pub fn sources_hold<L: Ledger, M: Ledger>(
    alloc: Global,
    steps: &mut Steps<L>,
    applies: &mut Steps<M>,
) -> Result<bool, OutOfMemory> {
    Ok(
        image_holds(alloc, SUM.as_bytes(), &SUM_ROWS, steps, applies)?
            && faults_refused(alloc, steps, applies)?
            && longest_holds(alloc, steps, applies)?
            && longer_refused(alloc, steps, applies)?
            && largest_holds(alloc, steps, applies)?,
    )
}
