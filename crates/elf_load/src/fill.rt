//! Fills RAM with the segments.
ghost use Rattle.std.specs.Prelude.{◌≡◌, ℕ, ◌+◌, ◌-◌, ◌<◌, ◌≤◌, Bool, false, IfOk, if◌then◌else◌, length, map, replicate, slice_index};
ghost use Rattle.std.specs.List.{range_with_len};
ghost use Rattle.elf_load.specs.Answers.{lent};
ghost use Rattle.elf_load.specs.Filling.{HasBytes, HasFlags, FitRam};
ghost use Rattle.elf_load.specs.Meaning.{byte_in, code_in};

use crate::segment::Segment;
use std::alloc::{AllocError, Global};

/// So many zero bytes.
fn zero_bytes(alloc: Global, size: usize) -> Result<Vec<u8>, AllocError>
    ensures { IfOk result (λ v. v.items ≡ replicate size 0) }
{
    vec![in alloc; 0u8; size]
}

/// So many flags that aren't set.
fn no_flags(alloc: Global, size: usize) -> Result<Vec<bool>, AllocError>
    ensures { IfOk result (λ v. v.items ≡ replicate size false) }
{
    vec![in alloc; false; size]
}

/// Copies bytes to a place.
fn put_bytes(ram: &mut [u8], at: usize, bytes: &[u8])
    requires { at + length bytes.now ≤ length ram.old }
    ensures { HasBytes at bytes.now ram.old ram.new }
{
    ram[at..at + bytes.len()].copy_from_slice(bytes);
}

/// Sets the flags of a range.
fn set_flags(code: &mut [bool], at: usize, count: usize)
    requires { at + count ≤ length code.old }
    ensures { HasFlags at count code.old code.new }
{
    for k in at..at + count {
        code[k] = true;
    }
}

/// Puts the segments' bytes into a RAM of zeros that begins at `base`.
fn put_segments(ram: &mut [u8], segments: &[Segment], base: u32)
    requires fit { FitRam (map lent segments.now) base (length ram.old) }
    requires zero { ram.old ≡ replicate (length ram.old) 0 }
    ensures ram { ram.new ≡ map (byte_in (map lent segments.now)) (range_with_len base (length ram.old)) }
    ensures bytes { (k : ℕ) → slice_index ram.new k < 256 }
{
    for segment in segments {
        put_bytes(ram, (segment.vaddr - base) as usize, segment.bytes);
    }
}

/// The bytes of RAM from `base` on: each segment's where it lies, and zero elsewhere.
pub fn ram_of(
    alloc: Global,
    segments: &[Segment],
    base: u32,
    size: u32,
) -> Result<Vec<u8>, AllocError>
    requires { FitRam (map lent segments.now) base size }
    ensures ram { IfOk result (λ v. v.items ≡ map (byte_in (map lent segments.now)) (range_with_len base size)) }
    ensures bytes { IfOk result (λ v. (k : ℕ) → slice_index v.items k < 256) }
{
    let mut ram = zero_bytes(alloc, size as usize)?;
    put_segments(&mut ram, segments, base);
    Ok(ram)
}

/// Sets the flags of an executable segment.
fn set_code(code: &mut [bool], segment: &Segment, base: u32)
    requires above { base ≤ segment.now.vaddr }
    requires below { segment.now.vaddr + segment.now.memsz ≤ base + length code.old }
    ensures { HasFlags (segment.now.vaddr - base) (if segment.now.exec then segment.now.memsz else 0) code.old code.new }
{
    if segment.exec {
        set_flags(
            code,
            (segment.vaddr - base) as usize,
            segment.memsz as usize,
        );
    }
}

/// Sets the flags of the executable segments, none of which is set before.
fn set_segments(code: &mut [bool], segments: &[Segment], base: u32)
    requires fit { FitRam (map lent segments.now) base (length code.old) }
    requires unset { code.old ≡ replicate (length code.old) false }
    ensures { code.new ≡ map (code_in (map lent segments.now)) (range_with_len base (length code.old)) }
{
    for segment in segments {
        set_code(code, segment, base);
    }
}

/// Of each byte of RAM from `base` on, whether an executable segment holds it.
pub fn code_of(
    alloc: Global,
    segments: &[Segment],
    base: u32,
    size: u32,
) -> Result<Vec<bool>, AllocError>
    requires { FitRam (map lent segments.now) base size }
    ensures { IfOk result (λ v. v.items ≡ map (code_in (map lent segments.now)) (range_with_len base size)) }
{
    let mut code = no_flags(alloc, size as usize)?;
    set_segments(&mut code, segments, base);
    Ok(code)
}
