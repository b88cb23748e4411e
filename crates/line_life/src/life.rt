// The lifetimes of all cached bytes of a run.
ghost use Rattle.std.specs.Prelude.{◌≡◌, ◌+◌, ◌*◌, ◌/◌, ◌%◌, ◌<◌, ◌≤◌, ◌++◌, ◌∷◌, ◌==◌, ◌&&◌, ℕ, [], if◌then◌else◌, IfOk, OnOk, length, replicate, slice_index_or};
ghost use Rattle.bit_field.specs.Shapes.{IsShape, slots};
ghost use Rattle.wb_cache.specs.Contents.{slot_of};
ghost use Rattle.event_log.specs.Cycles.{pushed_if};
ghost use Rattle.event_log.specs.Events as log;
ghost use Rattle.event_log.specs.Events.{IsEventLog};
ghost use Rattle.line_life.specs.Lives as lives;
ghost use Rattle.line_life.specs.Lives.{IsLifeOf, change_of};

use crate::changes::{Effect, effect_of, holds_byte, told};
use avf_base::OutOfMemory;
use bit_field::Shape;
use change_list::{Change, ChangeList, empty_lists};
use event_log::{CycleList, Next, slot_count, slot_number};
use std::alloc::Global;
use std::marker::Model;
use wb_cache::{CacheEvent, EventKind};

/// What next concerns each byte of each line slot in a run, from any cycle on.
#[derive(Drop)]
pub struct Life {
    shape: Shape,
    cycles: u32,
    reads: Vec<CycleList>,
    changes: Vec<ChangeList<Effect>>,
}

impl Model for Life {
    ghost use Rattle.line_life.specs.Lives.{IsLives, Lives};

    ghost Value = { Lives };

    ghost view = { λ x. record { shape = x.shape; cycles = x.cycles; reads = x.reads.items; changes = x.changes.items } };

    ghost invariant = { λ x. IsLives (record { shape = x.shape; cycles = x.cycles; reads = x.reads.items; changes = x.changes.items }) };
}

impl Life {
    /// The first event from cycle `t` on that concerns byte `byte`, 0 to 15, of the line slot of a way of a set, with its cycle.
    /// It takes no memory: two binary searches.
    #[tactic(auto, unfolding(crate::specs::Lives::next_in))]
    pub fn next(&self, set: u32, way: u32, byte: u32, t: u32) -> Next
        requires set { set < self.now.shape.sets }
        requires way { way < self.now.shape.ways }
        requires byte { byte < 16 }
        requires cycle { t < self.now.cycles }
        ensures { result ≡ lives.next_in self.now (slot_of self.now.shape set way) byte t }
    {
        let slot = slot_number(&self.shape, set, way) as usize;
        let read = self.reads[16 * slot + byte as usize].first_from(t);
        let change = self.changes[slot].first_from(t);
        sooner(byte, read, change)
    }
}

/// Of the next read of a byte and the next change of its slot the one that comes first.
fn sooner(byte: u32, read: Option<u32>, change: Option<Change<Effect>>) -> Next
    ensures { result ≡ lives.sooner byte read change }
{
    match (read, change) {
        (None, None) => Next::Ends,
        (Some(cycle), None) => Next::Read(cycle),
        (None, Some(change)) => told(&change, byte),
        (Some(cycle), Some(change)) => {
            if change.cycle < cycle {
                told(&change, byte)
            } else {
                Next::Read(cycle)
            }
        }
    }
}

/// So many lists without a cycle.
fn no_reads(alloc: Global, count: u32) -> Result<Vec<CycleList>, OutOfMemory>
    ensures { IfOk result (λ v. v.items ≡ replicate count []) }
{
    let mut reads = Vec::new(alloc);
    for _byte in 0..count {
        reads.push(CycleList::new(alloc))?;
    }
    Ok(reads)
}

/// Notes a read: its cycle goes behind the lists of the bytes that it holds.
fn note_read(reads: &mut [CycleList], slot: usize, event: &CacheEvent) -> Result<(), OutOfMemory>
    requires { 16 * slot + 16 ≤ length reads.old }
    ensures { OnOk result ((k : ℕ) → slice_index_or reads.new k [] ≡ pushed_if (slot == k / 16 && log.holds_byte (k % 16) event.now) event.now.cycle (slice_index_or reads.old k [])) }
{
    for byte in 0..16u32 {
        if holds_byte(event.word, event.mask, byte) {
            reads[16 * slot + byte as usize].push(event.cycle)?;
        }
    }
    Ok(())
}

/// Notes a write or a fill: it goes behind the changes of its slot.
fn note_change(
    changes: &mut [ChangeList<Effect>],
    slot: usize,
    event: &CacheEvent,
) -> Result<(), OutOfMemory>
    requires { slot < length changes.old }
    ensures { OnOk result ((l : ℕ) → slice_index_or changes.new l [] ≡ pushed_if (slot == l) (change_of event.now) (slice_index_or changes.old l [])) }
{
    changes[slot].push(event.cycle, effect_of(event))
}

/// Notes an event of a line slot in the lists.
fn note(
    reads: &mut [CycleList],
    changes: &mut [ChangeList<Effect>],
    slot: usize,
    event: &CacheEvent,
) -> Result<(), OutOfMemory>
    requires reads { 16 * slot + 16 ≤ length reads.old }
    requires changes { slot < length changes.old }
    ensures read { OnOk result ((k : ℕ) → slice_index_or reads.new k [] ≡ pushed_if (slot == k / 16 && lives.reads_byte (k % 16) event.now) event.now.cycle (slice_index_or reads.old k [])) }
    ensures changed { OnOk result ((l : ℕ) → slice_index_or changes.new l [] ≡ pushed_if (slot == l && lives.is_change event.now) (change_of event.now) (slice_index_or changes.old l [])) }
{
    match event.kind {
        EventKind::Read => note_read(reads, slot, event),
        EventKind::Write => note_change(changes, slot, event),
        EventKind::Fill => note_change(changes, slot, event),
        EventKind::Miss => Ok(()),
    }
}

/// The lifetimes of a run with these events and so many cycles, by one walk over the events. The table answers exactly what they
/// say. It keeps at most 16 bytes for a read (4 for each byte that it holds) and 12 for a write or a fill, before the room that a
/// growing list has in reserve.
pub fn data_life(
    alloc: Global,
    events: &[CacheEvent],
    cycles: u32,
    shape: &Shape,
) -> Result<Life, OutOfMemory>
    requires shape { IsShape shape.now }
    requires events { IsEventLog shape.now events.now }
    ensures { IfOk result (λ life. IsLifeOf events.now shape.now cycles life) }
{
    let mut reads = no_reads(alloc, 16 * slot_count(shape))?;
    let mut changes = empty_lists(alloc, slot_count(shape))?;
    for event in events {
        let slot = slot_number(shape, event.set, event.way) as usize;
        note(&mut reads, &mut changes, slot, event)?;
    }
    Ok(Life {
        shape: *shape,
        cycles,
        reads,
        changes,
    })
}
