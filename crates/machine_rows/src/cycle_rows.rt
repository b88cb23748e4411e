//! What no clause says of the machine: that each call succeeds with ample memory, a small program's cycles one by one, and the
//! places of the structures at their corners. An instruction is fetched in one cycle, decoded in the next, leaves EX in the third
//! and M in the fourth.
ghost use Rattle.std.specs.Prelude.{◌≡◌, ◌<◌};

use avf_base::{End, counter};
use bit_field::{PORT_BITS, Place, Structure};
use cyc_machine::{CycleReport, Machine, PortField, PortLatch};
use elf_fixture::{THREE, flat};
use elf_load::{Image, load};
use std::alloc::Global;
use std::fs::Files;
use std::marker::Brand;
use std::process::Abort;
use std::sync::ledger::{Blank, Ledger};
use std::test::Fail;

fn three(alloc: Global) -> Result<Image, Fail> {
    Ok(load(alloc, &flat(alloc, &THREE)?, 0x10_0000)?)
}

/// The number of a cycle, the instruction that leaves EX in it, whether one leaves EX/MEM, and how the run ends.
struct Cycle(u32, Option<u32>, bool, Option<End>);

static CYCLES: [Cycle; 6] = [
    Cycle(0, None, false, None),
    Cycle(1, None, false, None),
    Cycle(2, Some(0x4000), false, None),
    Cycle(3, Some(0x4001), true, None),
    Cycle(4, Some(0x4002), true, None),
    Cycle(5, Some(0x4003), true, Some(End::Exit(7))),
];

fn is_reported(report: &CycleReport, row: &Cycle) -> bool {
    report.issued == row.1 && report.retired == row.2 && report.end == row.3
}

fn check_cycles<R: Abort + Files, L: Ledger>(rt: &R, machine: &mut Machine<'_>, blank: Blank)
    requires name { blank.name ≡ L.name }
    requires parts { blank.parts ≡ L.parts }
    requires some { 0 < L.parts }
{
    let mut steps = counter::<R, L>(rt, blank);
    for row in &CYCLES {
        assert!(rt; !machine.ended());
        assert!(rt; machine.cycle() < 1000);
        assert!(rt; machine.cycle() == row.0);
        assert!(rt; is_reported(&machine.step(&mut steps), row));
    }
    assert!(rt; machine.ended() && machine.issued_count() == 4);
}

#[test]
fn cycles_one_by_one(rt: HostRuntime) -> Result<(), Fail> {
    let image = three(rt.alloc())?;
    let mut machine = Machine::new(rt.alloc(), &image)?;
    check_cycles::<HostRuntime, Brand>(&rt, &mut machine, Blank::new(1));
    Ok(())
}

/// Flips the bit at a place, and answers whether it changed.
fn changes(rt: &impl Abort, machine: &mut Machine<'_>, place: &Place) -> bool {
    assert!(rt; machine.in_range(place));
    let before = machine.bit(place);
    machine.flip(place);
    assert!(rt; machine.in_range(place));
    machine.bit(place) != before
}

/// A structure, and its number of bits.
struct Sized(Structure, u32);

static SIZES: [Sized; 16] = [
    Sized(Structure::Pc, 30),
    Sized(Structure::Npc, 30),
    Sized(Structure::Bht, 128),
    Sized(Structure::Btb, 912),
    Sized(Structure::Ib, 256),
    Sized(Structure::IdEx, 153),
    Sized(Structure::ExMem, 79),
    Sized(Structure::MemWb, 37),
    Sized(Structure::Rf, 992),
    Sized(Structure::Sb, 264),
    Sized(Structure::Port, 6),
    Sized(Structure::CData, 8192),
    Sized(Structure::CTag, 1472),
    Sized(Structure::CValid, 64),
    Sized(Structure::CDirty, 64),
    Sized(Structure::CLru, 32),
];

/// Two flips of the bit change it and restore it.
fn check_place(rt: &impl Abort, machine: &mut Machine<'_>, structure: Structure, bit: u32) {
    let place = Place { structure, bit };
    assert!(rt; changes(rt, machine, &place));
    assert!(rt; changes(rt, machine, &place));
}

fn is_in_range(machine: &Machine<'_>, structure: Structure, bit: u32) -> bool {
    machine.in_range(&Place { structure, bit })
}

#[test]
fn flips_at_the_corners(rt: HostRuntime) -> Result<(), Fail> {
    let image = three(rt.alloc())?;
    let mut machine = Machine::new(rt.alloc(), &image)?;
    for row in &SIZES {
        assert!(rt; !is_in_range(&machine, row.0, row.1));
        check_place(&rt, &mut machine, row.0, 0);
        check_place(&rt, &mut machine, row.0, row.1.saturating_sub(1));
    }
    Ok(())
}

/// Whether a field of the port has these bits.
fn is_field(field: PortField, first: u32, last: u32) -> bool {
    first <= last
        && last < PORT_BITS
        && PortLatch::field_at(first) == (field, 0)
        && PortLatch::field_at(last) == (field, last - first)
}

#[test]
fn the_port_is_a_row_of_fields(rt: HostRuntime) {
    assert!(rt; is_field(PortField::Count, 0, 4) && is_field(PortField::Owner, 5, 5));
}
