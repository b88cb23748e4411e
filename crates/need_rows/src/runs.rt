// The runs and the logs that rows are of.
use avf_base::Steps;
use elf_fixture::flat;
use elf_load::{Image, load};
use rv_isa::{Trace, run};
use std::alloc::Global;
use std::sync::ledger::Ledger;
use std::test::Fail;
use wb_cache::{CacheEvent, EventKind};

/// The image of these words, one executable segment at 0x10000, in a RAM of 1 MiB.
pub fn image_of(alloc: Global, words: &[u32]) -> Result<Image, Fail> {
    Ok(load(alloc, &flat(alloc, words)?, 0x10_0000)?)
}

/// The run of these words, of at most nine instructions.
pub fn run_of<L: Ledger>(
    alloc: Global,
    words: &[u32],
    applies: &mut Steps<L>,
) -> Result<Trace, Fail> {
    Ok(run(alloc, &image_of(alloc, words)?, 9, applies)?)
}

/// An event in set 0: its cycle and kind, its line and way, and of a write the bytes of the word and the word of the line.
pub struct Event(pub u32, pub EventKind, pub u32, pub u32, pub u8, pub u32);

/// These events in order.
pub fn log_of(alloc: Global, rows: &[Event]) -> Result<Vec<CacheEvent>, Fail> {
    let mut log = Vec::new(alloc);
    for Event(cycle, kind, line, way, mask, word) in rows {
        log.push(CacheEvent {
            cycle: *cycle,
            kind: *kind,
            line: *line,
            set: 0,
            way: *way,
            mask: *mask,
            word: *word,
        })?;
    }
    Ok(log)
}
