// Rows of tag_dist: what the cache looks up, in a run by hand, while a line stands in way 0 of set 0.
ghost use Rattle.std.specs.Prelude.{◌≡◌, ◌<◌};
ghost use Rattle.bit_field.specs.Shapes.{plain};

use crate::runs::{Event, log_of, run_of};
use avf_base::{Steps, counter};
use bit_field::plain_shape;
use event_log::is_event_log;
use std::alloc::Global;
use std::fs::Files;
use std::marker::Brand;
use std::process::Abort;
use std::sync::ledger::{Blank, Ledger};
use std::test::Fail;
use tag_dist::{TagTable, distance_one, tag_table};
use wb_cache::EventKind;

// lui s0, 0x80; loads of 0x80000, 0x80400, 0x80600 and 0x80200; addi a7, zero, 93; ecall
static LOADS: [u32; 7] = [
    0x0008_0437,
    0x0004_2283,
    0x4004_2303,
    0x6004_2383,
    0x2004_2503,
    0x05D0_0893,
    0x0000_0073,
];

static EVENTS: [Event; 12] = [
    Event(4, EventKind::Miss, 0x8000, 0, 0, 0),
    Event(12, EventKind::Fill, 0x8000, 0, 0, 0),
    Event(13, EventKind::Read, 0x8000, 0, 0, 0),
    Event(14, EventKind::Miss, 0x8040, 1, 0, 0),
    Event(22, EventKind::Fill, 0x8040, 1, 0, 0),
    Event(23, EventKind::Read, 0x8040, 1, 0, 0),
    Event(24, EventKind::Miss, 0x8060, 0, 0, 0),
    Event(32, EventKind::Fill, 0x8060, 0, 0, 0),
    Event(33, EventKind::Read, 0x8060, 0, 0, 0),
    Event(34, EventKind::Miss, 0x8020, 1, 0, 0),
    Event(42, EventKind::Fill, 0x8020, 1, 0, 0),
    Event(43, EventKind::Read, 0x8020, 1, 0, 0),
];

/// A line, a cycle from which it is asked of way 0 of set 0, and whether it is looked up.
struct Row(u32, u32, bool);

static ROWS: [Row; 8] = [
    Row(0x8000, 13, true),
    Row(0x8000, 14, false),
    Row(0x8020, 13, false),
    Row(0x8040, 23, true),
    Row(0x8060, 25, true),
    Row(0x8020, 33, true),
    Row(0x8020, 44, false),
    Row(0x8001, 0, false),
];

/// A line, and the last instruction that accesses it.
struct Access(u32, Option<u32>);

static ACCESSES: [Access; 4] = [
    Access(0x8000, Some(1)),
    Access(0x8060, Some(3)),
    Access(0x8020, Some(4)),
    Access(0x8001, None),
];

fn is_asked_so(table: &TagTable, row: &Row) -> bool
    requires { table.now.shape ≡ plain }
{
    let Row(line, t, looked_up) = row;
    table.looked_up(0, 0, *line, *t) == *looked_up
}

fn is_accessed_so(table: &TagTable, row: &Access) -> bool {
    table.last_access(row.0) == row.1
}

fn check<L: Ledger>(rt: &impl Abort, alloc: Global, applies: &mut Steps<L>) -> Result<(), Fail> {
    let trace = run_of(alloc, &LOADS, applies)?;
    let shape = plain_shape();
    let log = log_of(alloc, &EVENTS)?;
    assert!(rt; is_event_log(&log, &shape));
    let table = tag_table(alloc, &log, &trace, &shape)?;
    for row in &ROWS {
        assert!(rt; is_asked_so(&table, row));
    }
    assert!(rt; ACCESSES.iter().all(|row| is_accessed_so(&table, row)));
    Ok(())
}

fn check_run<R: Abort + Files, L: Ledger>(rt: &R, alloc: Global, blank: Blank) -> Result<(), Fail>
    requires name { blank.name ≡ L.name }
    requires parts { blank.parts ≡ L.parts }
    requires some { 0 < L.parts }
{
    let mut applies = counter::<R, L>(rt, blank);
    check(rt, alloc, &mut applies)
}

#[test]
fn lines_of_a_run(rt: HostRuntime) -> Result<(), Fail> {
    check_run::<HostRuntime, Brand>(&rt, rt.alloc(), Blank::new(1))
}

// The tag of line 0x8000 among 32 sets is 0x400.
#[test]
fn lines_at_distance_one(rt: HostRuntime) {
    let shape = plain_shape();
    assert!(rt;
        distance_one(&shape, 0x8000, 0) == 0x8020
            && distance_one(&shape, 0x8020, 0) == 0x8000
            && distance_one(&shape, 0x8007, 10) == 7
    );
}
