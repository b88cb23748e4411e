// The writes and fills of a line slot.
ghost use Rattle.std.specs.Prelude.{◌≡◌};
ghost use Rattle.line_life.specs.Lives as lives;

use bit_field::has_lane;
use change_list::Change;
use event_log::Next;
use wb_cache::{CacheEvent, EventKind};

/// What a write or a fill does to its line slot: its event without the cycle and the place.
#[derive(Clone, Copy)]
pub struct Effect {
    pub word: u32,
    pub mask: u8,
    pub kind: EventKind,
}

/// What an event does to its line slot.
pub fn effect_of(event: &CacheEvent) -> Effect
    ensures { result ≡ lives.effect_of event.now }
{
    Effect {
        word: event.word,
        mask: event.mask,
        kind: event.kind,
    }
}

/// Whether a byte of the line, 0 to 15, is among those of a word that a mask names.
pub fn holds_byte(word: u32, mask: u8, byte: u32) -> bool
    ensures { result ≡ lives.is_held word mask byte }
{
    word == byte / 4 && has_lane(mask, byte % 4)
}

/// What a change is to a byte of its slot.
pub fn told(change: &Change<Effect>, byte: u32) -> Next
    ensures { result ≡ lives.told_change byte change.now }
{
    let Effect { word, mask, kind } = change.value;
    match kind {
        EventKind::Fill => Next::Evicted(change.cycle),
        EventKind::Write => {
            if holds_byte(word, mask, byte) {
                Next::Overwritten(change.cycle)
            } else {
                Next::Beside(change.cycle)
            }
        }
        EventKind::Read => Next::Read(change.cycle),
        EventKind::Miss => Next::Ends,
    }
}
