//! Worked rows of this project, by hand from the instructions' meanings, and that each call succeeds with ample memory.
ghost use Rattle.std.specs.Prelude.{◌≡◌, ◌<◌};

use avf_base::{End, Steps, counter};
use elf_load::{Image, load};
use rv_isa::{Arch, Trace, access_law, run, run_clocked, words_law};
use std::alloc::Global;
use std::fs::Files;
use std::marker::Brand;
use std::process::Abort;
use std::sync::ledger::{Blank, Ledger};
use std::test::Fail;

/// The image of these words, one executable segment at 0x10000, in a RAM of 1 MiB.
fn flat(alloc: Global, words: &[u32]) -> Result<Image, Fail> {
    Ok(load(alloc, &elf_fixture::flat(alloc, words)?, 0x10_0000)?)
}

/// A run: words, clock values, the limit, its end, its output and the number of its instructions.
struct Row {
    words: &'static [u32],
    clocks: &'static [u32],
    limit: u32,
    end: End,
    output: &'static [u8],
    count: u32,
}

static ROWS: [Row; 8] = [
    Row {
        words: &[0x0004_2283],
        clocks: &[],
        limit: 9,
        end: End::Trap(5),
        output: b"",
        count: 1,
    },
    Row {
        words: &[0x0000_0067],
        clocks: &[],
        limit: 2,
        end: End::Trap(1),
        output: b"",
        count: 2,
    },
    Row {
        words: &[0x0020_006F],
        clocks: &[],
        limit: 1,
        end: End::Trap(2),
        output: b"",
        count: 1,
    },
    // addi a0, zero, 7; addi a7, zero, 93; ecall
    Row {
        words: &[0x0070_0513, 0x05D0_0893, 0x0000_0073],
        clocks: &[],
        limit: 3,
        end: End::Exit(7),
        output: b"",
        count: 3,
    },
    // rdcycle a0; addi a7, zero, 93; ecall
    Row {
        words: &[0xC000_2573, 0x05D0_0893, 0x0000_0073],
        clocks: &[2],
        limit: 9,
        end: End::Exit(2),
        output: b"",
        count: 3,
    },
    // addi a7, zero, 93; rdinstret a0; ecall
    Row {
        words: &[0x05D0_0893, 0xC020_2573, 0x0000_0073],
        clocks: &[4],
        limit: 9,
        end: End::Exit(1),
        output: b"",
        count: 3,
    },
    // rdcycle a1; rdcycle a0; addi a7, zero, 93; ecall: the second clock value
    Row {
        words: &[0xC000_25F3, 0xC000_2573, 0x05D0_0893, 0x0000_0073],
        clocks: &[3, 6],
        limit: 9,
        end: End::Exit(6),
        output: b"",
        count: 4,
    },
    // auipc t0, 0; addi a0, zero, 65; addi a7, zero, 1; ecall; sw a0, 0(t0): puts A, then stores into its own code
    Row {
        words: &[
            0x0000_0297,
            0x0410_0513,
            0x0010_0893,
            0x0000_0073,
            0x00A2_A023,
        ],
        clocks: &[],
        limit: 9,
        end: End::Trap(6),
        output: b"A",
        count: 5,
    },
];

/// The trace of a row's run.
fn trace_of<L: Ledger>(alloc: Global, row: &Row, applies: &mut Steps<L>) -> Result<Trace, Fail> {
    let image = flat(alloc, row.words)?;
    Ok(run_clocked(alloc, &image, row.limit, row.clocks, applies)?)
}

fn is_so(trace: &Trace, row: &Row) -> bool {
    trace.end() == row.end && trace.output() == row.output && trace.len() == row.count
}

/// Whether the state of an image is at its entry, where a jump to address 0 stands.
fn jumps_to_0<L: Ledger>(arch: &Arch, applies: &mut Steps<L>) -> bool {
    arch.pc() == 0x1_0000 && arch.effect(&arch.fetch(), applies).next == 0
}

fn check_all<R: Abort + Files, L: Ledger>(rt: &R, alloc: Global, blank: Blank) -> Result<(), Fail>
    requires name { blank.name ≡ L.name }
    requires parts { blank.parts ≡ L.parts }
    requires some { 0 < L.parts }
{
    access_law();
    words_law();
    let mut applies = counter::<R, L>(rt, blank);
    for row in &ROWS {
        assert!(rt; is_so(&trace_of(alloc, row, &mut applies)?, row));
    }
    let image = flat(alloc, &[0x0000_0067])?;
    assert!(rt; run(alloc, &image, 1, &mut applies).is_err());
    assert!(rt; jumps_to_0(&Arch::new(alloc, &image)?, &mut applies));
    Ok(())
}

#[test]
fn worked_rows_run(rt: HostRuntime) -> Result<(), Fail> {
    check_all::<HostRuntime, Brand>(&rt, rt.alloc(), Blank::new(1))
}
