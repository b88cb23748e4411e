// Rows of line_life: runs by hand on way 0 of set 0, and what next concerns its bytes.
ghost use Rattle.std.specs.Prelude.{◌≡◌};
ghost use Rattle.bit_field.specs.Shapes.{plain};

use crate::runs::{Event, log_of};
use bit_field::plain_shape;
use event_log::is_event_log;
use line_life::{Life, Next, data_life};
use std::alloc::Global;
use std::process::Abort;
use std::test::Fail;
use wb_cache::EventKind;

/// A byte, a cycle from which it is asked, and what next concerns it.
struct Row(u32, u32, Next);

// A word of each of three lines of one set is loaded, and the first again: the first line is filled in cycle 12, read in 13 and
// evicted in 32.
static EVICTED: [Event; 12] = [
    Event(4, EventKind::Miss, 0x8000, 0, 0, 0),
    Event(12, EventKind::Fill, 0x8000, 0, 0, 0),
    Event(13, EventKind::Read, 0x8000, 0, 0xF, 0),
    Event(14, EventKind::Miss, 0x8020, 1, 0, 0),
    Event(22, EventKind::Fill, 0x8020, 1, 0, 0),
    Event(23, EventKind::Read, 0x8020, 1, 0xF, 0),
    Event(24, EventKind::Miss, 0x8040, 0, 0, 0),
    Event(32, EventKind::Fill, 0x8040, 0, 0, 0),
    Event(33, EventKind::Read, 0x8040, 0, 0xF, 0),
    Event(34, EventKind::Miss, 0x8000, 1, 0, 0),
    Event(42, EventKind::Fill, 0x8000, 1, 0, 0),
    Event(43, EventKind::Read, 0x8000, 1, 0xF, 0),
];

static IN_EVICTED: [Row; 7] = [
    Row(0, 4, Next::Evicted(12)),
    Row(0, 13, Next::Read(13)),
    Row(0, 14, Next::Evicted(32)),
    Row(4, 13, Next::Evicted(32)),
    Row(0, 33, Next::Read(33)),
    Row(0, 34, Next::Ends),
    Row(15, 45, Next::Ends),
];

// A byte of the third word is stored in cycle 16 into a line that was read in 13, and the line is evicted in 43.
static WRITTEN: [Event; 4] = [
    Event(12, EventKind::Fill, 0x8000, 0, 0, 0),
    Event(13, EventKind::Read, 0x8000, 0, 0xF, 0),
    Event(16, EventKind::Write, 0x8000, 0, 1, 2),
    Event(43, EventKind::Fill, 0x8040, 0, 0, 0),
];

static IN_WRITTEN: [Row; 4] = [
    Row(0, 14, Next::Beside(16)),
    Row(9, 14, Next::Beside(16)),
    Row(8, 14, Next::Overwritten(16)),
    Row(8, 17, Next::Evicted(43)),
];

fn is_so(life: &Life, cycles: u32, row: &Row) -> bool
    requires shape { life.now.shape ≡ plain }
    requires cycles { life.now.cycles ≡ cycles }
{
    let Row(byte, t, next) = row;
    *byte < 16 && *t < cycles && life.next(0, 0, *byte, *t) == *next
}

fn check(
    rt: &impl Abort,
    alloc: Global,
    events: &[Event],
    cycles: u32,
    rows: &[Row],
) -> Result<(), Fail> {
    let shape = plain_shape();
    let log = log_of(alloc, events)?;
    assert!(rt; is_event_log(&log, &shape));
    let life = data_life(alloc, &log, cycles, &shape)?;
    for row in rows {
        assert!(rt; is_so(&life, cycles, row));
    }
    Ok(())
}

#[test]
fn a_line_is_read_and_evicted(rt: HostRuntime) -> Result<(), Fail> {
    check(&rt, rt.alloc(), &EVICTED, 46, &IN_EVICTED)
}

#[test]
fn a_byte_beside_is_written(rt: HostRuntime) -> Result<(), Fail> {
    check(&rt, rt.alloc(), &WRITTEN, 57, &IN_WRITTEN)
}
