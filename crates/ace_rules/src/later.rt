// What instructions that haven't left the memory stage need and access.
ghost use Rattle.std.specs.Prelude.{◌≡◌, ◌≤◌, ◌<◌, ◌==◌, not};
ghost use Rattle.std.specs.Int.{bit_at as bit_of_number};
ghost use Rattle.need_pass.specs.Tables.{byte_need};
ghost use Rattle.ace_rules.specs.Asked as asked;

use crate::note::Note;
use bit_field::bit_at;
use need_pass::NeedTable;
use store_buf::{Pending, StoreBuf};
use tag_dist::TagTable;

/// How many instructions have left the memory stage.
#[tactic(auto, unfolding(crate::specs::Asked::retired_by))]
pub(crate) fn retired(note: &Note) -> u32
    ensures { result ≡ asked.retired_by note.now }
{
    if note.occupied {
        note.executed.saturating_sub(1)
    } else {
        note.executed
    }
}

/// Whether a bit of the byte at a byte address, 0 to 7, is needed by an instruction that hasn't left the memory stage.
pub(crate) fn is_needed(note: &Note, needs: &NeedTable, byte: u32, bit: u32) -> bool
    requires instruction { asked.retired_by note.now ≤ needs.now.count }
    requires bit { bit < 8 }
    ensures { result ≡ (bit_of_number (byte_need needs.now byte (asked.retired_by note.now)) bit == 1) }
{
    bit_at(u32::from(needs.byte_need(byte, retired(note))), bit)
}

/// Whether no bit of the byte is.
pub(crate) fn is_unneeded(note: &Note, needs: &NeedTable, byte: u32) -> bool
    requires { asked.retired_by note.now ≤ needs.now.count }
    ensures { result ≡ (byte_need needs.now byte (asked.retired_by note.now) == 0) }
{
    needs.byte_need(byte, retired(note)) == 0
}

/// Whether a store to a line (a byte address divided by 16) waits in a slot.
fn goes_to(store: &Pending, line: u32) -> bool
    ensures { result ≡ asked.goes_to store.now line }
{
    store.mask != 0 && store.addr / 4 == line
}

/// Whether a store to a line waits in the store buffer.
#[tactic(auto, unfolding(crate::specs::Asked::is_pending_line))]
pub(crate) fn is_pending_line(stores: &StoreBuf, line: u32) -> bool
    ensures { result ≡ asked.is_pending_line stores.now line }
{
    goes_to(&stores.slot(0), line)
        || goes_to(&stores.slot(1), line)
        || goes_to(&stores.slot(2), line)
        || goes_to(&stores.slot(3), line)
}

/// Whether there is such an instruction, and `first` is not behind it.
#[tactic(auto, unfolding(crate::specs::Asked::is_later))]
pub(crate) fn is_later(instruction: Option<u32>, first: u32) -> bool
    ensures { result ≡ asked.is_later instruction first }
{
    match instruction {
        Some(instruction) => first <= instruction,
        None => false,
    }
}

/// Whether an instruction that hasn't left the memory stage loads from or stores to a line, or a store to it waits in the store
/// buffer.
#[tactic(auto, unfolding(crate::specs::Asked::is_accessed_again))]
pub(crate) fn is_accessed_again(note: &Note, tags: &TagTable, line: u32) -> bool
    ensures { result ≡ asked.is_accessed_again tags.now note.now line }
{
    is_later(tags.last_access(line), retired(note)) || is_pending_line(&note.stores, line)
}
