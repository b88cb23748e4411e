// Whole files and whole texts, over any shelf and any sink.
ghost use Rattle.std.specs.Prelude.{◌≡◌, ◌<◌, ◌≤◌, List, ℕ, length, IfOk, OnOk, OnErr};
ghost use Rattle.avf_base.specs.Causes.{HasCause};
ghost use Rattle.avf_base.specs.Moves.{Grows, GrowsByFront};
ghost use Rattle.avf_base.specs.Files.{IsFileRead};
ghost use Rattle.avf_base.specs.Fronts.{IsFront, MoreRead, MayFail};
ghost use Rattle.avf_base.specs.declared.transfer.ReadError.TheVariants.{OutOfMemory as no_memory};

use crate::{Failed, Shelf, Sink};
use std::alloc::{AllocError, AllocFailed, Global};

// The size in bytes of the buffer of one read.
const PIECE: usize = 65_536;

/// Why a file wasn't read.
#[derive(Clone, Copy, Debug, PartialEq, Eq)]
pub enum ReadError {
    /// A read failed, and the shelf's count of faults rose.
    Failed,
    /// The file has more bytes than the limit.
    TooLong,
    /// There was no memory.
    OutOfMemory,
}

impl From<AllocError> for ReadError {
    ghost from_gives = { λ _ e. e ≡ no_memory };

    fn from(_: AllocError) -> Self {
        ReadError::OutOfMemory
    }
}

impl<T: Drop> From<AllocFailed<T>> for ReadError {
    ghost from_gives = { λ _ e. e ≡ no_memory };

    fn from(_: AllocFailed<T>) -> Self {
        ReadError::OutOfMemory
    }
}

// A buffer for one read. Only its length is told, since a list of so many numbers takes too long in goals.
fn buffer(alloc: Global) -> Result<Vec<u8>, AllocError>
    ensures { IfOk result (λ v. length v.items ≡ 65536) }
{
    vec![in alloc; 0u8; PIECE]
}

// Reads once more behind the bytes that were read so far. At `Ok(false)` there is nothing more.
#[tactic(auto, using(crate::proofs::Reading::front_more, crate::proofs::Reading::ended))]
fn read_more<H: Shelf>(
    shelf: &mut H,
    name: &str,
    buf: &mut [u8],
    bytes: &mut Vec<u8>,
) -> Result<bool, ReadError>
    requires room { 0 < length buf.old }
    requires front { IsFront (H.holds shelf.old name.now) bytes.old.items }
    ensures more { IfOk result (λ more. MoreRead more (H.holds shelf.old name.now) bytes.old.items bytes.new.items) }
    ensures cause { MayFail (H.faults shelf.old) (H.faults shelf.new) result }
    ensures keeps { (n : List ℕ) → H.holds shelf.new n ≡ H.holds shelf.old n }
    ensures later { H.faults shelf.old ≤ H.faults shelf.new }
{
    let at = bytes.len() as u64;
    match shelf.read_at(name, at, buf) {
        Ok(0) => Ok(false),
        Ok(n) => {
            bytes.extend_from_slice(&buf[..n])?;
            Ok(true)
        }
        Err(Failed) => Err(ReadError::Failed),
    }
}

/// All bytes of a file, which may be at most `limit`. It reads from the offset 0 on, 65,536 bytes at a time, until a read
/// gives no byte or there are more than `limit`.
#[tactic(auto, using(crate::proofs::Reading::lemmas))]
pub fn read_file<H: Shelf>(
    alloc: Global,
    shelf: &mut H,
    name: &str,
    limit: u32,
) -> Result<Vec<u8>, ReadError>
    ensures answer { IsFileRead (H.holds shelf.old name.now) limit (H.faults shelf.old) (H.faults shelf.new) result }
    ensures keeps { (n : List ℕ) → H.holds shelf.new n ≡ H.holds shelf.old n }
    ensures later { H.faults shelf.old ≤ H.faults shelf.new }
{
    let mut buf = buffer(alloc)?;
    let mut bytes = Vec::new(alloc);
    while bytes.len() <= limit as usize {
        if !read_more(shelf, name, &mut buf, &mut bytes)? {
            return Ok(bytes);
        }
    }
    Err(ReadError::TooLong)
}

/// Writes a whole text, each time all that isn't taken yet. Where a write fails, a front of the text was taken.
#[tactic(auto, using(crate::proofs::Growing::lemmas))]
pub fn write_all<K: Sink>(sink: &mut K, text: &[u8]) -> Result<(), Failed>
    ensures ok { OnOk result (Grows (K.taken sink.old) (K.taken sink.new) text.now) }
    ensures err { OnErr result (GrowsByFront (K.taken sink.old) (K.taken sink.new) text.now) }
    ensures cause { HasCause (K.faults sink.old) (K.faults sink.new) result }
{
    let mut at = 0;
    while at < text.len() {
        at += sink.write(&text[at..])?;
    }
    Ok(())
}
