// Calls of the tool over a shelf and sinks whose calls fail.
use crate::rows::words;
use avf_base::{MemShelf, MemSink, OutOfMemory, Steps};
use avf_tool::run_tool;
use elf_fixture::{THREE, flat};
use std::alloc::Global;
use std::sync::ledger::Ledger;

// For how many bytes a sink has room.
pub const ROOM: u32 = 0x10_0000;

// Which calls fail, counted from 1: the reads of the shelf, and the writes of `out` and of `err`; and how many bytes a write of `out`
// takes at most.
#[derive(Clone, Copy)]
pub struct Faults<'a> {
    pub reads: &'a [u32],
    pub out: &'a [u32],
    pub err: &'a [u32],
    pub most: u32,
}

// Nothing fails.
pub const CALM: Faults<'static> = Faults {
    reads: &[],
    out: &[],
    err: &[],
    most: ROOM,
};

// What a call of the tool gave.
#[derive(Drop)]
pub struct Given {
    pub status: u8,
    pub out: MemSink,
    pub err: MemSink,
}

// A shelf with the flat image of three words, a source of one instruction and a map.
fn shelf_of(alloc: Global, map: &[u8], reads: &[u32]) -> Result<MemShelf, OutOfMemory> {
    let file = flat(alloc, &THREE)?;
    let mut shelf = MemShelf::new(alloc, reads)?;
    shelf.put("a.elf", &file)?;
    shelf.put("a.s", b"ecall\n")?;
    shelf.put("a.map", map)?;
    Ok(shelf)
}

// The words of a line over such a shelf.
pub fn call<L: Ledger, M: Ledger>(
    alloc: Global,
    line: &str,
    map: &[u8],
    faults: &Faults<'_>,
    steps: &mut Steps<L>,
    applies: &mut Steps<M>,
) -> Result<Given, OutOfMemory> {
    let words = words(alloc, line)?;
    let mut shelf = shelf_of(alloc, map, faults.reads)?;
    let mut out = MemSink::new(alloc, ROOM, faults.most.max(1), faults.out)?;
    let mut err = MemSink::new(alloc, 4096, 4096, faults.err)?;
    let status = run_tool(
        alloc, &words, &mut shelf, &mut out, &mut err, steps, applies,
    );
    Ok(Given { status, out, err })
}

// Whether a call gave this status and these texts.
pub fn is_given(given: &Given, status: u8, out: &str, err: &str) -> bool {
    given.status == status
        && given.out.kept() == out.as_bytes()
        && given.err.kept() == err.as_bytes()
}
