// What every line slot holds in a run.
ghost use Rattle.std.specs.Prelude.{◌≡◌, ◌<◌, ◌≤◌, ◌==◌, ℕ, [], IfOk, OnOk, length, replicate, slice_index_or};
ghost use Rattle.bit_field.specs.Shapes.{IsShape, slots};
ghost use Rattle.event_log.specs.Events.{IsEventLog};
ghost use Rattle.slot_history.specs.Histories as histories;
ghost use Rattle.slot_history.specs.HeldBefore.{IsSlotTable};
ghost use Rattle.slot_history.specs.Notes as notes;

use crate::changes::{Held, note, shows_from};
use avf_base::OutOfMemory;
use bit_field::Shape;
use change_list::{ChangeList, empty_lists};
use event_log::{slot_count, slot_number};
use std::alloc::Global;
use std::marker::Model;
use wb_cache::CacheEvent;

/// What each line slot holds before each cycle of a run. Slot l is way l % ways of set l / ways.
#[derive(Drop)]
pub struct SlotTable {
    shape: Shape,
    changes: Vec<ChangeList<Held>>,
}

impl Model for SlotTable {
    ghost use Rattle.slot_history.specs.Histories.{Histories, IsHistories};

    ghost Value = { Histories };

    ghost view = { λ x. record { shape = x.shape; changes = x.changes.items } };

    ghost invariant = { λ x. IsHistories (record { shape = x.shape; changes = x.changes.items }) };
}

impl SlotTable {
    /// What a line slot holds before a cycle: what the events of the cycles below it leave there. It takes no memory: one binary
    /// search.
    #[tactic(auto, unfolding(crate::specs::Histories::held_in))]
    pub fn held(&self, slot: u32, cycle: u32) -> Held
        requires { slot < slots self.now.shape }
        ensures { result ≡ histories.held_in self.now slot cycle }
    {
        self.changes[slot as usize].value_before(Held::Vacant, cycle)
    }

    /// A cycle above `cycle`, which is below `u32::MAX`, up to before which the slot holds what it holds before `cycle`: the first from
    /// which a change in the table shows, or `u32::MAX` where there is none. It takes no memory: one binary search.
    #[tactic(auto, unfolding(crate::specs::Histories::next_change))]
    pub fn next_change(&self, slot: u32, cycle: u32) -> u32
        requires slot { slot < slots self.now.shape }
        requires cycle { cycle < 4294967295 }
        ensures value { result ≡ histories.next_change self.now slot cycle }
        ensures above { cycle < result }
        ensures same { (t : ℕ) → cycle ≤ t → t < result → histories.held_in self.now slot t ≡ histories.held_in self.now slot cycle }
    {
        shows_from(self.changes[slot as usize].first_from(cycle))
    }
}

/// Notes an event in the list of its slot.
fn note_at(
    changes: &mut [ChangeList<Held>],
    slot: usize,
    event: &CacheEvent,
) -> Result<(), OutOfMemory>
    requires { slot < length changes.old }
    ensures { OnOk result ((l : ℕ) → slice_index_or changes.new l [] ≡ notes.noted_if (slot == l) event.now (slice_index_or changes.old l [])) }
{
    note(&mut changes[slot], event)
}

/// What each line slot of a cache of this shape holds in a run with these events, by one walk over them. The table keeps at most
/// 12 bytes for a write or a fill, before the room that a growing list has in reserve.
pub fn slot_table(
    alloc: Global,
    events: &[CacheEvent],
    shape: &Shape,
) -> Result<SlotTable, OutOfMemory>
    requires shape { IsShape shape.now }
    requires events { IsEventLog shape.now events.now }
    ensures { IfOk result (λ table. IsSlotTable events.now shape.now table) }
{
    let mut changes = empty_lists(alloc, slot_count(shape))?;
    for event in events {
        let slot = slot_number(shape, event.set, event.way) as usize;
        note_at(&mut changes, slot, event)?;
    }
    Ok(SlotTable {
        shape: *shape,
        changes,
    })
}
