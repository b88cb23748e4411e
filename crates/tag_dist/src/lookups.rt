// When each line is asked for, and when each slot is filled.
ghost use Rattle.std.specs.Prelude.{◌≡◌, ◌<◌, ◌==◌, ◌&&◌, ◌++◌, ◌∷◌, ℕ, [], if◌then◌else◌, IfOk, OnOk, length, replicate, slice_index_or};
ghost use Rattle.bit_field.specs.Shapes.{IsShape, slots};
ghost use Rattle.event_log.specs.Cycles.{pushed_if};
ghost use Rattle.event_log.specs.Events.{IsEventLog, cycles_of};
ghost use Rattle.event_log.specs.Lookups.{fills, has_line, is_fill};
ghost use Rattle.tag_dist.specs.Tables.{asked_in};

use avf_base::OutOfMemory;
use bit_field::Shape;
use event_log::{CycleList, slot_count, slot_number};
use std::alloc::Global;
use std::collections::BTreeMap;
use wb_cache::{CacheEvent, EventKind};

/// So many lists without a cycle.
pub fn no_fills(alloc: Global, count: u32) -> Result<Vec<CycleList>, OutOfMemory>
    ensures { IfOk result (λ v. v.items ≡ replicate count []) }
{
    let mut filled = Vec::new(alloc);
    for _slot in 0..count {
        filled.push(CycleList::new(alloc))?;
    }
    Ok(filled)
}

/// A line is asked for in a cycle.
fn note_line(
    alloc: Global,
    asked: &mut BTreeMap<u32, CycleList>,
    line: u32,
    cycle: u32,
) -> Result<(), OutOfMemory>
    ensures { OnOk result ((p : ℕ) → asked_in asked.new.entries p ≡ pushed_if (line == p) cycle (asked_in asked.old.entries p)) }
{
    match asked.get_mut(&line) {
        Some(cycles) => cycles.push(cycle),
        None => {
            let mut cycles = CycleList::new(alloc);
            cycles.push(cycle)?;
            asked.insert(line, cycles)?;
            Ok(())
        }
    }
}

/// A slot is filled by an event, if that is a fill.
fn note_fill(filled: &mut [CycleList], slot: usize, event: &CacheEvent) -> Result<(), OutOfMemory>
    requires { slot < length filled.old }
    ensures { OnOk result ((l : ℕ) → slice_index_or filled.new l [] ≡ pushed_if (slot == l && is_fill event.now.kind) event.now.cycle (slice_index_or filled.old l [])) }
{
    match event.kind {
        EventKind::Fill => filled[slot].push(event.cycle),
        EventKind::Read => Ok(()),
        EventKind::Write => Ok(()),
        EventKind::Miss => Ok(()),
    }
}

/// Of each line of a run's events the cycles in which they have it.
pub fn asked_lines(
    alloc: Global,
    events: &[CacheEvent],
) -> Result<BTreeMap<u32, CycleList>, OutOfMemory>
    ensures { IfOk result (λ asked. (line : ℕ) → asked_in asked.entries line ≡ cycles_of (has_line line) events.now) }
{
    let mut asked = BTreeMap::new(alloc);
    for event in events {
        note_line(alloc, &mut asked, event.line, event.cycle)?;
    }
    Ok(asked)
}

/// Of each line slot the cycles in which a line is filled into it.
pub fn filled_slots(
    alloc: Global,
    events: &[CacheEvent],
    shape: &Shape,
) -> Result<Vec<CycleList>, OutOfMemory>
    requires shape { IsShape shape.now }
    requires events { IsEventLog shape.now events.now }
    ensures length { IfOk result (λ filled. length filled.items ≡ slots shape.now) }
    ensures lists { IfOk result (λ filled. (l : ℕ) → l < slots shape.now → slice_index_or filled.items l [] ≡ cycles_of (fills shape.now l) events.now) }
{
    let mut filled = no_fills(alloc, slot_count(shape))?;
    for event in events {
        let slot = slot_number(shape, event.set, event.way) as usize;
        note_fill(&mut filled, slot, event)?;
    }
    Ok(filled)
}
