// Rows of slot_history: a run by hand on way 0 of set 0, and what the slot holds.
ghost use Rattle.std.specs.Prelude.{◌≡◌};
ghost use Rattle.bit_field.specs.Shapes.{plain};

use crate::runs::{Event, log_of};
use bit_field::plain_shape;
use event_log::is_event_log;
use slot_history::{Held, SlotTable, slot_table};
use std::test::Fail;
use wb_cache::EventKind;

// A word of each of three lines of one set is loaded, and the first again; in cycle 40 the third is written, and in 44 once more.
static EVENTS: [Event; 11] = [
    Event(4, EventKind::Miss, 0x8000, 0, 0, 0),
    Event(12, EventKind::Fill, 0x8000, 0, 0, 0),
    Event(13, EventKind::Read, 0x8000, 0, 0, 0),
    Event(14, EventKind::Miss, 0x8020, 1, 0, 0),
    Event(22, EventKind::Fill, 0x8020, 1, 0, 0),
    Event(23, EventKind::Read, 0x8020, 1, 0, 0),
    Event(24, EventKind::Miss, 0x8040, 0, 0, 0),
    Event(32, EventKind::Fill, 0x8040, 0, 0, 0),
    Event(33, EventKind::Read, 0x8040, 0, 0, 0),
    Event(40, EventKind::Write, 0x8040, 0, 0, 0),
    Event(44, EventKind::Write, 0x8040, 0, 0, 0),
];

/// A cycle, what the slot holds before it, and the next cycle from which it may hold something else.
struct Row(u32, Held, u32);

static ROWS: [Row; 7] = [
    Row(0, Held::Vacant, 13),
    Row(12, Held::Vacant, 13),
    Row(13, Held::Clean(0x8000), 33),
    Row(32, Held::Clean(0x8000), 33),
    Row(33, Held::Clean(0x8040), 41),
    Row(41, Held::Dirty(0x8040), u32::MAX),
    Row(45, Held::Dirty(0x8040), u32::MAX),
];

fn is_so(table: &SlotTable, row: &Row) -> bool
    requires { table.now.shape ≡ plain }
{
    let Row(t, held, next) = row;
    *t < u32::MAX && table.held(0, *t) == *held && table.next_change(0, *t) == *next
}

#[test]
fn a_slot_is_filled_evicted_and_written(rt: HostRuntime) -> Result<(), Fail> {
    let alloc = rt.alloc();
    let shape = plain_shape();
    let log = log_of(alloc, &EVENTS)?;
    assert!(rt; is_event_log(&log, &shape));
    let table = slot_table(alloc, &log, &shape)?;
    for row in &ROWS {
        assert!(rt; is_so(&table, row));
    }
    Ok(())
}
