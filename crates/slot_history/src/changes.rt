// What a line slot holds, and how that changes in a run.
ghost use Rattle.std.specs.Prelude.{◌≡◌, OnOk};
ghost use Rattle.slot_history.specs.Histories as histories;
ghost use Rattle.slot_history.specs.Notes as notes;

use avf_base::OutOfMemory;
use change_list::{Change, ChangeList};
use wb_cache::{CacheEvent, EventKind};

/// What a line slot holds. A line is a byte address divided by 16.
#[derive(Clone, Copy, PartialEq, Eq)]
pub enum Held {
    /// No line.
    Vacant,
    /// This line, as it is in main memory.
    Clean(u32),
    /// This line, with bytes that main memory doesn't have yet.
    Dirty(u32),
}

/// Notes an event of a line slot in the slot's list. A change is what the slot holds from the next cycle on.
pub fn note(changes: &mut ChangeList<Held>, event: &CacheEvent) -> Result<(), OutOfMemory>
    ensures { OnOk result (changes.new ≡ notes.noted event.now changes.old) }
{
    match event.kind {
        EventKind::Read => Ok(()),
        EventKind::Write => note_write(changes, event.cycle, event.line),
        EventKind::Miss => Ok(()),
        EventKind::Fill => changes.push(event.cycle, Held::Clean(event.line)),
    }
}

/// Notes a write of a line: it is dirty from then on, and nothing changes where it is so already.
fn note_write(changes: &mut ChangeList<Held>, cycle: u32, line: u32) -> Result<(), OutOfMemory>
    ensures { OnOk result (changes.new ≡ notes.written cycle line changes.old) }
{
    if is_dirty(changes.last_value(Held::Vacant), line) {
        Ok(())
    } else {
        changes.push(cycle, Held::Dirty(line))
    }
}

/// Whether a slot holds this line, dirty.
fn is_dirty(held: Held, line: u32) -> bool
    ensures { result ≡ notes.is_dirty held line }
{
    match held {
        Held::Vacant => false,
        Held::Clean(_) => false,
        Held::Dirty(dirty) => dirty == line,
    }
}

/// The cycle from which a change shows, and the greatest number where there is none.
pub fn shows_from(change: Option<Change<Held>>) -> u32
    ensures { result ≡ histories.shows_from change }
{
    match change {
        None => u32::MAX,
        Some(change) => change.cycle.saturating_add(1),
    }
}
