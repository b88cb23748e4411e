// Rows of class_map: how lines are spelled, and what lines by hand say, in maps of a run of three instructions.
ghost use Rattle.std.specs.Prelude.{◌≡◌, ◌<◌};

use crate::runs::image_of;
use ace_rules::Analysis;
use avf_base::{PlainShelf, PlainSink, Steps, counter};
use class_map::{MapError, check_map, write_map};
use elf_fixture::THREE;
use elf_load::Image;
use run_log::record;
use std::alloc::Global;
use std::fs::Files;
use std::marker::Brand;
use std::process::Abort;
use std::sync::ledger::{Blank, Ledger};
use std::test::Fail;

/// A map, how many pairs it names, and the fault of its fourth line, or 0.
struct Row(&'static str, u64, u8);

static ROWS: [Row; 9] = [
    Row("avf-map 1\ncycles 6\ninstructions 3\n", 0, 0),
    Row("avf-map 1\ncycles 6\ninstructions 3\npc 0 0 6 U1\n", 6, 0),
    Row(
        "avf-map 1\ncycles 6\ninstructions 3\npc 0 0 4294967295 U1\n",
        0,
        3,
    ),
    Row(
        "avf-map 1\ncycles 6\ninstructions 3\npc 0 0 4294967296 U1\n",
        0,
        1,
    ),
    Row("avf-map 1\ncycles 6\ninstructions 3\npc 0 06 6 U1\n", 0, 1),
    Row(
        "avf-map 1\ncycles 6\ninstructions 3\nnowhere 0 0 6 U99\n",
        0,
        3,
    ),
    Row("avf-map 1\ncycles 6\ninstructions 3\npc 0 0 6 U1 \n", 0, 1),
    Row("avf-map 1\ncycles 6\ninstructions 3\npc 0\n", 0, 1),
    Row(
        "avf-map 1\ncycles 6\ninstructions 3\nclru 31 0 6 U1\n",
        6,
        0,
    ),
];

fn shelf_of(alloc: Global, map: &str) -> Result<PlainShelf, Fail> {
    let mut shelf = PlainShelf::new(alloc);
    shelf.put("a.map", map.as_bytes())?;
    Ok(shelf)
}

fn is_so(a: &Analysis<'_>, shelf: &mut PlainShelf, row: &Row) -> bool {
    match check_map(a, shelf, "a.map") {
        Ok(pairs) => row.2 == 0 && pairs == row.1,
        Err(MapError::Bad { line, cause }) => line == 4 && cause == row.2,
        Err(MapError::ReadFault) => false,
    }
}

/// Whether the map that is written begins and ends with these bytes.
fn is_between(alloc: Global, a: &Analysis<'_>, first: &str, last: &str) -> Result<bool, Fail> {
    let mut sink = PlainSink::new(alloc, 262_144)?;
    let is_written = write_map(a, &mut sink).is_ok();
    let map = sink.kept();
    Ok(is_written && map.starts_with(first.as_bytes()) && map.ends_with(last.as_bytes()))
}

fn check<L: Ledger, M: Ledger>(
    rt: &impl Abort,
    alloc: Global,
    image: &Image,
    steps: &mut Steps<L>,
    applies: &mut Steps<M>,
) -> Result<(), Fail> {
    assert!(rt; image.ram().len() == 1_048_576);
    let a = Analysis::new(alloc, record(alloc, image, 6, steps)?, steps, applies)?;
    for row in &ROWS {
        assert!(rt; is_so(&a, &mut shelf_of(alloc, row.0)?, row));
    }
    let head = "avf-map 1\ncycles 6\ninstructions 3\n";
    assert!(rt; is_between(alloc, &a, head, "clru 31 0 6 U1\n")?);
    Ok(())
}

fn check_all<R: Abort + Files, L: Ledger, M: Ledger>(
    rt: &R,
    alloc: Global,
    first: Blank,
    second: Blank,
) -> Result<(), Fail>
    requires name { first.name ≡ L.name }
    requires parts { first.parts ≡ L.parts }
    requires some { 0 < L.parts }
    requires second_name { second.name ≡ M.name }
    requires second_parts { second.parts ≡ M.parts }
    requires second_some { 0 < M.parts }
{
    let mut steps = counter::<R, L>(rt, first);
    let mut applies = counter::<R, M>(rt, second);
    check(
        rt,
        alloc,
        &image_of(alloc, &THREE)?,
        &mut steps,
        &mut applies,
    )
}

#[test]
fn maps_by_hand(rt: HostRuntime) -> Result<(), Fail> {
    check_all::<HostRuntime, Brand, Brand>(&rt, rt.alloc(), Blank::new(1), Blank::new(1))
}
