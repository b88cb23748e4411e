//! Lends the segments of a file, and loads the image that it means.
ghost use Rattle.std.specs.Prelude.{◌≡◌, ◌≤◌, IfOk, None, length, map};
ghost use Rattle.std.specs.List.{All};
ghost use Rattle.elf_load.specs.Answers.{lent, LendsSegments, Loads};
ghost use Rattle.elf_load.specs.Layout.{AreApart, IsRamSize};
ghost use Rattle.elf_load.specs.Meaning.{image_in};
ghost use Rattle.elf_load.specs.Refusal.{layout_refusal};

use crate::error::LoadError;
use crate::fill::{code_of, ram_of};
use crate::headers::{ENTRY, file_refusal, word_at};
use crate::image::Image;
use crate::layout::{base_address, layout_refusal, put_in_order};
use crate::segment::Segment;
use crate::walk::walk;
use std::alloc::{AllocError, Global};

/// The loadable segments of an ELF32 file that have bytes in memory, in order of address. Each is a slice of the file,
/// and they are disjoint. `ram` is the size of RAM in bytes.
pub fn segments<'b>(alloc: Global, bytes: &'b [u8], ram: u32) -> Result<Vec<Segment<'b>>, LoadError>
    requires { IsRamSize ram }
    ensures { LendsSegments bytes.now ram result }
{
    if let Some(reason) = file_refusal(bytes) {
        return Err(LoadError::Bad(reason));
    }
    let found = walk(alloc, bytes)?;
    if found.interpreter {
        return Err(LoadError::Bad(9));
    }
    if found.bad_range {
        return Err(LoadError::Bad(10));
    }
    let mut segments = found.segments;
    put_in_order(&mut segments);
    match layout_refusal(&segments, word_at(bytes, ENTRY), ram) {
        Some(reason) => Err(LoadError::Bad(reason)),
        None => Ok(segments),
    }
}

/// The image of segments in order of address, whose layout is accepted.
fn image_of(alloc: Global, segments: &[Segment], entry: u32, ram: u32) -> Result<Image, AllocError>
    requires ram { IsRamSize ram }
    requires order { AreApart (map lent segments.now) }
    requires bytes { All (λ s. length s.bytes ≤ s.memsz) (map lent segments.now) }
    requires accepted { layout_refusal (map lent segments.now) entry ram ≡ None }
    ensures { IfOk result (λ i. i ≡ image_in (map lent segments.now) entry ram) }
{
    let base = base_address(segments);
    let memory = ram_of(alloc, segments, base, ram)?;
    let code = code_of(alloc, segments, base, ram)?;
    Ok(Image::from_parts(base, memory, code, entry))
}

/// The image that an ELF32 file means: each segment once where it lies, in a RAM of `ram` bytes that is zero elsewhere.
pub fn load(alloc: Global, bytes: &[u8], ram: u32) -> Result<Image, LoadError>
    requires { IsRamSize ram }
    ensures { Loads bytes.now ram result }
{
    let segments = segments(alloc, bytes, ram)?;
    Ok(image_of(alloc, &segments, word_at(bytes, ENTRY), ram)?)
}
