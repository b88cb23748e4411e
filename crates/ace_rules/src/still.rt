// Up to which cycle the note of a cycle stays.
ghost use Rattle.std.specs.Prelude.{◌≡◌, ◌≤◌, ◌<◌, ℕ, true, length, nat_le, slice_get};

use crate::classes::note_at;
use crate::note::Note;
use bit_field::Struck;
use store_buf::StoreBuf;

/// Whether two store buffers hold the same.
fn is_same_buffer(a: &StoreBuf, b: &StoreBuf) -> bool
    ensures { result ≡ true → a.now ≡ b.now }
{
    a.fits();
    b.fits();
    (a.slot(0) == b.slot(0))
        & (a.slot(1) == b.slot(1))
        & (a.slot(2) == b.slot(2))
        & (a.slot(3) == b.slot(3))
}

/// Whether two addresses are the same, or there is neither.
fn is_same_address(a: Option<u32>, b: Option<u32>) -> bool
    ensures { result ≡ true → a ≡ b }
{
    match (a, b) {
        (Some(a), Some(b)) => a == b,
        (None, None) => true,
        (Some(_), None) => false,
        (None, Some(_)) => false,
    }
}

/// Whether two notes say the same.
fn is_same_note(a: &Note, b: &Note) -> bool
    ensures { result ≡ true → a.now ≡ b.now }
{
    (a.executed == b.executed)
        & (a.occupied == b.occupied)
        & (a.traps == b.traps)
        & (a.executed_rd == b.executed_rd)
        & (a.result_rd == b.result_rd)
        & (a.decoded_rd == b.decoded_rd)
        & (a.decoded == b.decoded)
        & (a.decoded_on_path == b.decoded_on_path)
        & (a.decoded_next == b.decoded_next)
        & (a.waiting == b.waiting)
        & (a.on_path == b.on_path)
        & is_same_address(a.next, b.next)
        & is_same_address(a.missed, b.missed)
        & is_same_buffer(&a.stores, &b.stores)
        & (a.masks == b.masks)
}

/// Whether a cycle has the note of another, and is quiet just where that is.
fn is_still(notes: &[Note], quiet: u32, cycle: u32, t: u32) -> bool
    requires cycle { cycle < length notes.now }
    requires t { t < length notes.now }
    ensures note { result ≡ true → slice_get notes.now t ≡ slice_get notes.now cycle }
    ensures quiet { result ≡ true → nat_le quiet t ≡ nat_le quiet cycle }
{
    (quiet <= cycle) == (quiet <= t) && is_same_note(note_at(notes, cycle), note_at(notes, t))
}

/// A cycle above this one, at most the number of cycles, up to before which all have its note, and are quiet just where it is.
pub(crate) fn still_until(notes: &[Note], quiet: u32, cycle: u32) -> u32
    requires cycle { cycle < length notes.now }
    requires few { length notes.now < 4294967295 }
    ensures after { cycle < result }
    ensures within { result ≤ length notes.now }
    ensures note { (t : ℕ) → cycle ≤ t → t < result → slice_get notes.now t ≡ slice_get notes.now cycle }
    ensures quiet { (t : ℕ) → cycle ≤ t → t < result → nat_le quiet t ≡ nat_le quiet cycle }
{
    let cycles = notes.len() as u32;
    let mut until = cycle + 1;
    while until < cycles {
        if !is_still(notes, quiet, cycle, until) {
            return until;
        }
        until += 1;
    }
    until
}
