// Rows of need_pass, by hand from the roots and links, and that each call succeeds with ample memory.
ghost use Rattle.std.specs.Prelude.{◌≡◌, ◌<◌};

use crate::runs::run_of;
use avf_base::{Steps, counter};
use need_pass::{NeedTable, need_facts, needs};
use std::alloc::Global;
use std::fs::Files;
use std::marker::Brand;
use std::process::Abort;
use std::sync::ledger::{Blank, Ledger};
use std::test::Fail;

/// A register or the address of a byte, the instruction before which it is asked, and its need there.
struct Query(u32, u32, u32);

struct Row {
    words: &'static [u32],
    registers: &'static [Query],
    bytes: &'static [Query],
}

static ROWS: [Row; 7] = [
    // lui s0, 0x80; sb t0, 0(s0); lb t1, 0(s0); sb t0, 0(s0): an address is a root, though nothing needs the loaded value
    Row {
        words: &[
            0x0008_0437,
            0x0054_0023,
            0x0004_4303,
            0x0054_0023,
            0x05D0_0893,
            0x0000_0073,
        ],
        registers: &[Query(8, 1, 0xFFFF_FFFF), Query(5, 1, 0)],
        bytes: &[Query(0x8_0000, 2, 0)],
    },
    // addi t0, zero, 0; addi t1, t0, 0; addi t2, t0, 0; and a0, t1, t2: of two zeros the second is masked
    Row {
        words: &[
            0x0000_0293,
            0x0002_8313,
            0x0002_8393,
            0x0073_7533,
            0x05D0_0893,
            0x0000_0073,
        ],
        registers: &[
            Query(6, 3, 0xFF),
            Query(7, 3, 0),
            Query(5, 2, 0),
            Query(5, 1, 0xFF),
            Query(10, 4, 0xFF),
            Query(10, 6, 0),
        ],
        bytes: &[],
    },
    // lui s0, 0x80; lw a0, 0(s0)
    Row {
        words: &[0x0008_0437, 0x0004_2503, 0x05D0_0893, 0x0000_0073],
        registers: &[],
        bytes: &[
            Query(0x8_0000, 1, 0xFF),
            Query(0x8_0000, 0, 0xFF),
            Query(0x8_0000, 2, 0),
            Query(0x8_0001, 1, 0),
        ],
    },
    // lui s0, 0x80; lb t0, 0(s0); srli a0, t0, 24: copies of the sign alone
    Row {
        words: &[
            0x0008_0437,
            0x0004_0283,
            0x0182_D513,
            0x05D0_0893,
            0x0000_0073,
        ],
        registers: &[Query(5, 2, 0xFF00_0000)],
        bytes: &[Query(0x8_0000, 1, 0x80)],
    },
    // addi t0, zero, 3; addi t1, zero, 2; sll a0, t0, t1
    Row {
        words: &[
            0x0030_0293,
            0x0020_0313,
            0x0062_9533,
            0x05D0_0893,
            0x0000_0073,
        ],
        registers: &[Query(6, 2, 0x1F), Query(5, 2, 0x3F)],
        bytes: &[],
    },
    // lui t0, 0x10; jalr zero, 12(t0)
    Row {
        words: &[
            0x0001_02B7,
            0x00C2_8067,
            0x0000_0013,
            0x05D0_0893,
            0x0000_0073,
        ],
        registers: &[Query(5, 1, 0xFFFF_FFFE)],
        bytes: &[],
    },
    // addi a0, zero, 5; rdinstret a0
    Row {
        words: &[0x0050_0513, 0xC020_2573, 0x05D0_0893, 0x0000_0073],
        registers: &[Query(10, 1, 0), Query(10, 2, 0xFF)],
        bytes: &[],
    },
];

fn is_register_need(table: &NeedTable, query: &Query) -> bool {
    let Query(register, at, need) = query;
    let r = (*register % 32) as u8;
    0 < r && *at <= table.len() && table.reg_need(r, *at) == *need
}

fn is_byte_need(table: &NeedTable, query: &Query) -> bool {
    let Query(address, at, need) = query;
    *at <= table.len() && u32::from(table.byte_need(*address, *at)) == *need
}

/// Whether the needs of a run of so many instructions are those of the row.
fn is_so(table: &NeedTable, instructions: u32, row: &Row) -> bool {
    table.len() == instructions
        && row
            .registers
            .iter()
            .all(|query| is_register_need(table, query))
        && row.bytes.iter().all(|query| is_byte_need(table, query))
}

fn check<L: Ledger>(
    rt: &impl Abort,
    alloc: Global,
    row: &Row,
    applies: &mut Steps<L>,
) -> Result<(), Fail> {
    let trace = run_of(alloc, row.words, applies)?;
    let table = needs(alloc, &trace)?;
    assert!(rt; is_so(&table, trace.len(), row));
    Ok(())
}

fn check_all<R: Abort + Files, L: Ledger>(rt: &R, alloc: Global, blank: Blank) -> Result<(), Fail>
    requires name { blank.name ≡ L.name }
    requires parts { blank.parts ≡ L.parts }
    requires some { 0 < L.parts }
{
    need_facts();
    let mut applies = counter::<R, L>(rt, blank);
    for row in &ROWS {
        check(rt, alloc, row, &mut applies)?;
    }
    Ok(())
}

#[test]
fn worked_rows_need(rt: HostRuntime) -> Result<(), Fail> {
    check_all::<HostRuntime, Brand>(&rt, rt.alloc(), Blank::new(1))
}
