// Rows of dead_class, by hand from the reads of the run, and that each call succeeds with ample memory.
ghost use Rattle.std.specs.Prelude.{◌≡◌, ◌<◌, ◌≤◌, length};

use crate::runs::run_of;
use avf_base::{Steps, counter};
use dead_class::{DeadClass, DeadTable, classify};
use need_pass::needs;
use std::alloc::Global;
use std::fs::Files;
use std::marker::Brand;
use std::process::Abort;
use std::sync::ledger::{Blank, Ledger};
use std::test::Fail;

/// The classes of a run's instructions, in order.
struct Row {
    words: &'static [u32],
    classes: &'static [DeadClass],
}

static ROWS: [Row; 4] = [
    // addi t0, zero, 5 twice: the first is overwritten unread
    Row {
        words: &[
            0x0050_0293,
            0x0050_0293,
            0x0002_8513,
            0x05D0_0893,
            0x0000_0073,
        ],
        classes: &[
            DeadClass::FddReg,
            DeadClass::Needed,
            DeadClass::Needed,
            DeadClass::Needed,
            DeadClass::Needed,
        ],
    },
    // addi t0, zero, 1; addi t1, t0, 0; addi t2, t1, 0; addi t3, t2, 0; addi t3, zero, 0
    Row {
        words: &[
            0x0010_0293,
            0x0002_8313,
            0x0003_0393,
            0x0003_8E13,
            0x0000_0E13,
            0x05D0_0893,
            0x0000_0073,
        ],
        classes: &[
            DeadClass::TddReg,
            DeadClass::TddReg,
            DeadClass::TddReg,
            DeadClass::FddReg,
            DeadClass::FddReg,
            DeadClass::Needed,
            DeadClass::Needed,
        ],
    },
    // lui s0, 0x80; sb t0, 0(s0); lbu t1, 0(s0); sb t0, 0(s0): all that the address register does is dead
    Row {
        words: &[
            0x0008_0437,
            0x0054_0023,
            0x0004_4303,
            0x0054_0023,
            0x05D0_0893,
            0x0000_0073,
        ],
        classes: &[
            DeadClass::TddReg,
            DeadClass::TddMem,
            DeadClass::FddReg,
            DeadClass::FddMem,
            DeadClass::Needed,
            DeadClass::Needed,
        ],
    },
    // addi zero, zero, 0; fence; lui s0, 0x80; lbu zero, 0(s0): a load into register 0 is needed
    Row {
        words: &[
            0x0000_0013,
            0x0FF0_000F,
            0x0008_0437,
            0x0004_4003,
            0x05D0_0893,
            0x0000_0073,
        ],
        classes: &[
            DeadClass::Nop,
            DeadClass::Nop,
            DeadClass::Needed,
            DeadClass::Needed,
            DeadClass::Needed,
            DeadClass::Needed,
        ],
    },
];

static CLASSES: [DeadClass; 6] = [
    DeadClass::Needed,
    DeadClass::Nop,
    DeadClass::FddReg,
    DeadClass::TddReg,
    DeadClass::FddMem,
    DeadClass::TddMem,
];

/// Whether as many instructions have a class as in the row.
fn is_counted_so(table: &DeadTable, row: &Row, class: DeadClass) -> bool {
    let wanted = row.classes.iter().filter(|other| **other == class).count();
    table.count(class) as usize == wanted
}

/// Whether these many instructions have the classes of the row, in order.
fn is_classed_so(table: &DeadTable, row: &Row, count: u32) -> bool
    requires { count ≤ length table.now }
{
    if count as usize != row.classes.len() {
        return false;
    }
    for i in 0..count {
        if table.class(i) != row.classes[i as usize] {
            return false;
        }
    }
    true
}

fn check<L: Ledger>(
    rt: &impl Abort,
    alloc: Global,
    row: &Row,
    applies: &mut Steps<L>,
) -> Result<(), Fail> {
    let trace = run_of(alloc, row.words, applies)?;
    let table = classify(alloc, &trace, &needs(alloc, &trace)?)?;
    assert!(rt;
        CLASSES
            .iter()
            .all(|class| is_counted_so(&table, row, *class))
    );
    assert!(rt; is_classed_so(&table, row, trace.len()));
    Ok(())
}

fn check_all<R: Abort + Files, L: Ledger>(rt: &R, alloc: Global, blank: Blank) -> Result<(), Fail>
    requires name { blank.name ≡ L.name }
    requires parts { blank.parts ≡ L.parts }
    requires some { 0 < L.parts }
{
    let mut applies = counter::<R, L>(rt, blank);
    for row in &ROWS {
        check(rt, alloc, row, &mut applies)?;
    }
    Ok(())
}

#[test]
fn worked_rows_classify(rt: HostRuntime) -> Result<(), Fail> {
    check_all::<HostRuntime, Brand>(&rt, rt.alloc(), Blank::new(1))
}
