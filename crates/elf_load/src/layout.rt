//! How the segments lie in RAM.
ghost use Rattle.std.specs.Prelude.{◌≡◌, ℕ, ◌+◌, ◌<◌, ◌≤◌, ◌^◌, ◌&&◌, ◌||◌, nat_le, length, map, false};
ghost use Rattle.std.specs.List.{All, AllPairs, list_any};
ghost use Rattle.std.specs.List.Sorted.{IsPermutation};
ghost use Rattle.elf_load.specs.Answers.{lent};
ghost use Rattle.elf_load.specs.Layout.{AreInOrder, AreApart};
ghost use Rattle.elf_load.specs.Meaning.{base_of, code_in, holds};
ghost use Rattle.elf_load.specs.Refusal as refusal;

use crate::segment::Segment;
use crate::sizes::BLOCK;

/// How many byte addresses there are.
const ADDRESSES: u64 = 0x1_0000_0000;

/// One past the byte address of a segment's last byte.
fn end(segment: &Segment) -> u64
    ensures { result ≡ segment.now.vaddr + segment.now.memsz }
{
    u64::from(segment.vaddr) + u64::from(segment.memsz)
}

/// Puts segments in order of address.
pub fn put_in_order(segments: &mut Vec<Segment<'_>>)
    ensures same { IsPermutation segments.old.items segments.new.items }
    ensures rising { AllPairs (λ s t. s.vaddr ≤ t.vaddr) segments.new.items }
{
    segments.sort_unstable_by_key(|segment| segment.vaddr);
}

/// The byte address of the first byte of RAM.
pub fn base_address(segments: &[Segment]) -> u32
    requires some { 0 < length segments.now }
    requires order { AreInOrder (map lent segments.now) }
    ensures { result ≡ base_of (map lent segments.now) }
{
    segments[0].vaddr / BLOCK * BLOCK
}

/// Whether a segment ends above an address.
#[tactic(auto, unfolding(crate::specs::Refusal::ends_above, crate::specs::Answers::lent))]
fn ends_above(segment: &Segment, limit: u64) -> bool
    ensures { result ≡ refusal.ends_above limit (lent segment.now) }
{
    end(segment) > limit
}

/// Whether one of these segments ends above an address.
fn some_ends_above(segments: &[Segment], limit: u64) -> bool
    ensures { result ≡ list_any (λ s. refusal.ends_above limit (lent s)) segments.now }
{
    segments.iter().any(|segment| ends_above(segment, limit))
}

/// Whether an address isn't below 2^32, or one of these segments ends above it.
fn leaves_ram(segments: &[Segment], limit: u64) -> bool
    ensures { result ≡ (nat_le (2 ^ 32) limit || list_any (λ s. refusal.ends_above limit (lent s)) segments.now) }
{
    limit >= ADDRESSES || some_ends_above(segments, limit)
}

/// Whether two of these segments share an address.
fn some_overlap(segments: &[Segment]) -> bool
    requires order { AreInOrder (map lent segments.now) }
    ensures { result ≡ refusal.some_overlap (map lent segments.now) }
{
    for k in 1..segments.len() {
        if end(&segments[k - 1]) > u64::from(segments[k].vaddr) {
            return true;
        }
    }
    false
}

/// Whether no segment is loaded, RAM doesn't end below 2^32, a segment ends past RAM, or two share an address.
fn has_bad_layout(segments: &[Segment], size: u32) -> bool
    requires order { AreInOrder (map lent segments.now) }
    ensures { result ≡ refusal.has_bad_layout (map lent segments.now) size }
{
    if segments.is_empty() {
        return true;
    }
    let limit = u64::from(base_address(segments)) + u64::from(size);
    leaves_ram(segments, limit) || some_overlap(segments)
}

/// Whether a segment is executable and holds the byte at a byte address.
#[tactic(auto, unfolding(crate::specs::Meaning::holds, crate::specs::Answers::lent))]
fn holds_code(segment: &Segment, addr: u32) -> bool
    ensures { result ≡ (segment.now.exec && holds (lent segment.now) addr) }
{
    segment.exec && segment.vaddr <= addr && u64::from(addr) < end(segment)
}

/// Whether an executable segment holds the byte at a byte address.
fn is_code_byte(segments: &[Segment], addr: u32) -> bool
    ensures { result ≡ list_any (λ s. s.exec && holds (lent s) addr) segments.now }
{
    segments.iter().any(|segment| holds_code(segment, addr))
}

/// Whether executable segments hold the four bytes from a byte address on.
#[tactic(auto, using(crate::proofs::Lent::tests_of_lent))]
fn is_code_word(segments: &[Segment], addr: u32) -> bool
    requires { addr + 3 < 2 ^ 32 }
    ensures { result
        ≡ (code_in (map lent segments.now) addr && code_in (map lent segments.now) (addr + 1)
        && code_in (map lent segments.now) (addr + 2) && code_in (map lent segments.now) (addr + 3)) }
{
    is_code_byte(segments, addr)
        && is_code_byte(segments, addr + 1)
        && is_code_byte(segments, addr + 2)
        && is_code_byte(segments, addr + 3)
}

/// Whether the entry isn't a multiple of 4, or one of its four bytes isn't executable.
fn has_bad_entry(segments: &[Segment], entry: u32) -> bool
    ensures { (size : ℕ) → refusal.has_bad_layout (map lent segments.now) size ≡ false
        → result ≡ refusal.has_bad_entry (map lent segments.now) entry size }
{
    entry % 4 != 0 || !is_code_word(segments, entry)
}

/// The reason 11 or 12, which concern the layout of the segments, that stands first.
#[tactic(auto, unfolding(crate::specs::Refusal::layout_refusal))]
pub fn layout_refusal(segments: &[Segment], entry: u32, size: u32) -> Option<u8>
    requires order { AreInOrder (map lent segments.now) }
    ensures { result ≡ refusal.layout_refusal (map lent segments.now) entry size }
{
    if has_bad_layout(segments, size) {
        Some(11)
    } else if has_bad_entry(segments, entry) {
        Some(12)
    } else {
        None
    }
}
