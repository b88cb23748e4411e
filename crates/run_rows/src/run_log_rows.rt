// Rows of run_log: that a run is recorded with ample memory, and what is kept of two small programs, worked out by hand from
// docs/MACHINE.md.
ghost use Rattle.std.specs.Prelude.{◌≡◌, ◌<◌};

use crate::runs::image_of;
use avf_base::{End, Steps, counter};
use bit_field::plain_shape;
use cyc_machine::Machine;
use elf_load::Image;
use flush_view::{cycle_laws, flush_laws, run_law, step_flush, struck_laws, view_byte};
use run_log::{RecordError, Recorded, record};
use run_record::verdict_law;
use std::alloc::Global;
use std::fs::Files;
use std::marker::Brand;
use std::process::Abort;
use std::sync::ledger::{Blank, Ledger};
use std::test::Fail;
use wb_cache::{CacheEvent, EventKind};

// lui s0, 0x80; lw t0, 0(s0); lw t1, 512(s0); lw t2, 1024(s0); lw a0, 0(s0); addi a7, zero, 93; ecall
static CONFLICT: [u32; 7] = [
    0x0008_0437,
    0x0004_2283,
    0x2004_2303,
    0x4004_2383,
    0x0004_2503,
    0x05D0_0893,
    0x0000_0073,
];

/// The cycle and the kind of an event.
struct Event(u32, EventKind);

static EVENTS: [Event; 12] = [
    Event(4, EventKind::Miss),
    Event(12, EventKind::Fill),
    Event(13, EventKind::Read),
    Event(14, EventKind::Miss),
    Event(22, EventKind::Fill),
    Event(23, EventKind::Read),
    Event(24, EventKind::Miss),
    Event(32, EventKind::Fill),
    Event(33, EventKind::Read),
    Event(34, EventKind::Miss),
    Event(42, EventKind::Fill),
    Event(43, EventKind::Read),
];

// rdcycle a0; addi a7, zero, 93; ecall
static CLOCK: [u32; 3] = [0xC000_2573, 0x05D0_0893, 0x0000_0073];

fn are_events(found: &[CacheEvent]) -> bool {
    found.len() == 12
        && found
            .iter()
            .zip(&EVENTS)
            .all(|(event, row)| event.cycle == row.0 && event.kind == row.1)
}

fn is_conflict(run: &Recorded<'_>) -> bool {
    run.cycles() == 46
        && run.instructions() == 7
        && run.end() == End::Exit(0)
        && run.output().is_empty()
        && run.clocks().is_empty()
        && are_events(run.events())
}

fn check_conflict<L: Ledger>(
    rt: &impl Abort,
    alloc: Global,
    steps: &mut Steps<L>,
) -> Result<(), Fail> {
    let image = image_of(alloc, &CONFLICT)?;
    assert!(rt; image.ram().len() == 1_048_576);
    assert!(rt; matches!(record(alloc, &image, 45, steps), Err(RecordError::NoEnd)));
    assert!(rt; is_conflict(&record(alloc, &image, 46, steps)?));
    Ok(())
}

fn is_clock(run: &Recorded<'_>) -> bool {
    run.is_record();
    run.end() == End::Exit(2)
        && run.clocks() == [2].as_slice()
        && run.instructions() == 3
        && run.issued_at(0) == 2
}

fn check_clock<L: Ledger>(
    rt: &impl Abort,
    alloc: Global,
    image: &Image,
    steps: &mut Steps<L>,
) -> Result<(), Fail> {
    assert!(rt; image.ram().len() == 1_048_576);
    assert!(rt; is_clock(&record(alloc, image, 6, steps)?));
    Ok(())
}

// What the program sees: its own code, and 0 outside RAM.
fn is_viewed(machine: &Machine<'_>) -> bool {
    view_byte(machine, 0x1_0000) == 0x73
        && view_byte(machine, 0x1_0003) == 0xC0
        && view_byte(machine, 0) == 0
}

// The same run by the cycle that carries the laws, in as many cycles.
fn check_laws<L: Ledger>(
    rt: &impl Abort,
    alloc: Global,
    image: &Image,
    steps: &mut Steps<L>,
) -> Result<(), Fail> {
    run_law(image, &plain_shape());
    verdict_law();
    cycle_laws();
    flush_laws();
    struck_laws();
    let mut machine = Machine::new(alloc, image)?;
    assert!(rt; is_viewed(&machine));
    for cycle in 0..6u32 {
        assert!(rt; !machine.ended() && machine.cycle() == cycle);
        assert!(rt; step_flush(&mut machine, steps).end.is_some() == (cycle == 5));
    }
    assert!(rt; machine.ended());
    Ok(())
}

fn check_all<R: Abort + Files, L: Ledger>(rt: &R, alloc: Global, blank: Blank) -> Result<(), Fail>
    requires name { blank.name ≡ L.name }
    requires parts { blank.parts ≡ L.parts }
    requires some { 0 < L.parts }
{
    let mut steps = counter::<R, L>(rt, blank);
    check_conflict(rt, alloc, &mut steps)?;
    let image = image_of(alloc, &CLOCK)?;
    check_clock(rt, alloc, &image, &mut steps)?;
    check_laws(rt, alloc, &image, &mut steps)
}

#[test]
fn worked_rows_are_recorded(rt: HostRuntime) -> Result<(), Fail> {
    check_all::<HostRuntime, Brand>(&rt, rt.alloc(), Blank::new(1))
}
