// The bytes of the cache that one cycle touches.
ghost use Rattle.std.specs.Prelude.{◌≡◌, ◌<◌, ◌≤◌, ◌+◌, ◌*◌, OnOk, length};
ghost use Rattle.std.specs.Option.{ForSome};
ghost use Rattle.bit_field.specs.Shapes.{IsShape, slots};
ghost use Rattle.event_log.specs.Events.{holds_byte};
ghost use Rattle.due_parity.specs.Rows as growth;
ghost use Rattle.due_parity.specs.Rows.{IsNotedIn};
ghost use Rattle.due_parity.specs.Touches as touches;

use crate::registers::note;
use crate::touch::Touch;
use crate::watched::Watched;
use avf_base::OutOfMemory;
use bit_field::{Shape, has_lane};
use event_log::slot_number;
use slot_history::{Held, SlotTable};
use wb_cache::{CacheEvent, EventKind};

/// Whether a byte of the line, 0 to 15, is among those that an event reads or writes.
fn holds_byte(event: &CacheEvent, byte: u32) -> bool
    ensures { result ≡ holds_byte byte event.now }
{
    event.word == byte / 4 && has_lane(event.mask, byte % 4)
}

/// What an event of a kind does to a byte of its slot: `held` says whether its lanes hold the byte, `dirty` whether the slot held a dirty
/// line before it.
fn byte_touch(kind: EventKind, held: bool, dirty: bool) -> Touch
    ensures { result ≡ touches.byte_touch_by kind held dirty }
{
    match (kind, held, dirty) {
        (EventKind::Read, true, _) => Touch::ReadOut,
        (EventKind::Read, false, _) => Touch::Untouched,
        (EventKind::Write, true, _) => Touch::Renewed,
        (EventKind::Write, false, _) => Touch::Untouched,
        (EventKind::Miss, _, _) => Touch::Untouched,
        (EventKind::Fill, _, true) => Touch::ReadOut,
        (EventKind::Fill, _, false) => Touch::Renewed,
    }
}

/// Whether a slot holds a dirty line.
fn is_dirty(held: Held) -> bool
    ensures { result ≡ growth.is_dirty held }
{
    match held {
        Held::Vacant => false,
        Held::Clean(_) => false,
        Held::Dirty(_) => true,
    }
}

/// Notes what an event does to the bytes of its slot.
fn note_slot(
    rows: &mut [Watched],
    cycle: u32,
    event: &CacheEvent,
    slot: u32,
    dirty: bool,
) -> Result<(), OutOfMemory>
    requires slot { 16 * slot + 16 ≤ length rows.old }
    requires some { slot < 1024 }
    ensures { OnOk result (IsNotedIn (growth.slot_touch event.now slot dirty) cycle (16 * slot) (16 * slot + 16) rows.old rows.new) }
{
    for byte in 0..16 {
        let touch = byte_touch(event.kind, holds_byte(event, byte), dirty);
        note(rows, (16 * slot + byte) as usize, cycle, touch)?;
    }
    Ok(())
}

/// Notes what the event of a cycle does to the bytes of the cache, if there is one; `history` says what each slot held before the cycle.
pub fn note_event(
    bytes: &mut [Watched],
    cycle: u32,
    event: Option<CacheEvent>,
    history: &SlotTable,
    shape: &Shape,
) -> Result<(), OutOfMemory>
    requires shape { IsShape shape.now }
    requires bytes { length bytes.old ≡ 16 * slots shape.now }
    requires history { history.now.shape ≡ shape.now }
    requires event { ForSome event (λ e. (e.set < shape.now.sets) × (e.way < shape.now.ways)) }
    ensures { let touch = growth.event_touch shape.now history.now cycle event in
        OnOk result (IsNotedIn touch cycle 0 (16 * slots shape.now) bytes.old bytes.new) }
{
    match event {
        None => Ok(()),
        Some(event) => {
            let slot = slot_number(shape, event.set, event.way);
            let dirty = is_dirty(history.held(slot, cycle));
            note_slot(bytes, cycle, &event, slot, dirty)
        }
    }
}
