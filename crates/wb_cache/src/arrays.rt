// The five arrays of the cache.

ghost use Rattle.std.specs.Prelude.{◌≡◌, ℕ, ◌+◌, ◌*◌, ◌^◌, ◌<◌, ◌≤◌, length, replicate, slice_index, slice_index_or, slice_range, slice_set, false, IfOk, ◌∷◌, []};
ghost use Rattle.std.specs.Int.{w32, from_le_bytes};
ghost use Rattle.std.specs.List.{replace_range};
ghost use Rattle.bit_field.specs.Shapes as shape_words;
ghost use Rattle.bit_field.specs.Shapes.{IsShape};
ghost use Rattle.wb_cache.specs.Access.{put_word, put_lane};

use avf_base::OutOfMemory;
use bit_field::{
    Shape, Struck, bit_at, bytes_fit, flip_at_u8, flip_at_u32, has_lane, lane_byte, tag_bits,
};
use std::alloc::Global;
use std::marker::Model;

/// The bytes of all line slots: byte `o` of slot `l` is byte 16 `l` + `o`.
#[derive(Drop)]
pub struct LineData {
    bytes: Vec<u8>,
}

impl Model for LineData {
    ghost use Rattle.std.specs.Prelude.{ℕ, ◌≤◌, List, length};

    ghost Value = { List ℕ };

    ghost view = { λ x. x.bytes.items };

    ghost invariant = { λ x. length x.bytes.items ≤ 8192 };
}

impl Struck for LineData {
    ghost use Rattle.std.specs.Prelude.{length, All, ◌*◌, ◌^◌, ◌<◌};
    ghost use Rattle.wb_cache.specs.Bits as spec;

    ghost IsFit = { All (λ b. b < 2 ^ 8) };

    ghost bit_count = { λ x. length x * 8 };

    ghost bit_of = { spec.bit_of_data };

    ghost flipped = { spec.flip_data };

    fn bits(&self) -> u32 {
        self.bytes.len() as u32 * 8
    }

    fn bit(&self, k: u32) -> bool {
        bit_at(u32::from(self.bytes[(k / 8) as usize]), k % 8)
    }

    fn flip(&mut self, k: u32) {
        flip_at_u8(&mut self.bytes[(k / 8) as usize], 8, k % 8);
    }

    fn fits(&self) {
        bytes_fit(&self.bytes);
    }

    fn laws(&self) {}
}

impl LineData {
    /// `len` bytes, at most 8,192, all 0.
    pub(crate) fn zeroed(alloc: Global, len: u32) -> Result<LineData, OutOfMemory>
        requires { len ≤ 8192 }
        ensures { IfOk result (λ x. x ≡ replicate len 0) }
    {
        Ok(LineData {
            bytes: vec![in alloc; 0u8; len as usize]?,
        })
    }

    /// The byte at a place.
    pub(crate) fn byte(&self, at: u32) -> u8
        requires { at < length self.now }
        ensures { result ≡ slice_index self.now at }
    {
        self.bytes[at as usize]
    }

    /// The word whose lowest byte stands at a place.
    pub(crate) fn word(&self, at: u32) -> u32
        requires { at + 4 ≤ length self.now }
        ensures { result ≡ from_le_bytes w32 (slice_index self.now at ∷ slice_index self.now (at + 1) ∷ slice_index self.now (at + 2) ∷ slice_index self.now (at + 3) ∷ []) }
    {
        let at = at as usize;
        u32::from_le_bytes([
            self.bytes[at],
            self.bytes[at + 1],
            self.bytes[at + 2],
            self.bytes[at + 3],
        ])
    }

    /// The bytes of a line slot.
    pub(crate) fn line(&self, slot: u32) -> &[u8]
        requires slot { slot < 512 }
        requires within { 16 * slot + 16 ≤ length self.now }
        ensures { result.now ≡ slice_range self.now (16 * slot) (16 * slot + 16) }
    {
        let at = 16 * slot as usize;
        &self.bytes[at..at + 16]
    }

    /// Writes the lanes of a mask to the word whose lowest byte stands at a place.
    #[tactic(auto, unfolding(crate::specs::Access::put_word))]
    pub(crate) fn put_word(&mut self, at: u32, mask: u8, value: u32)
        requires { at + 4 ≤ length self.old }
        ensures { self.new ≡ put_word at mask value self.old }
    {
        self.put_lane(at, mask, value, 0);
        self.put_lane(at, mask, value, 1);
        self.put_lane(at, mask, value, 2);
        self.put_lane(at, mask, value, 3);
    }

    fn put_lane(&mut self, at: u32, mask: u8, value: u32, lane: u32)
        requires within { at + 4 ≤ length self.old }
        requires lane { lane < 4 }
        ensures { self.new ≡ put_lane at mask value lane self.old }
    {
        if has_lane(mask, lane) {
            self.bytes[(at + lane) as usize] = lane_byte(value, lane);
        }
    }

    /// Replaces the bytes of a line slot.
    pub(crate) fn put_line(&mut self, slot: u32, bytes: &[u8; 16])
        requires slot { slot < 512 }
        requires within { 16 * slot + 16 ≤ length self.old }
        ensures { self.new ≡ replace_range self.old (16 * slot) (16 * slot + 16) bytes.now }
    {
        let at = 16 * slot as usize;
        self.bytes[at..at + 16].copy_from_slice(bytes);
    }
}

/// The tags of all line slots, each of the same width.
#[derive(Drop)]
pub struct LineTags {
    width: u32,
    tags: Vec<u32>,
}

impl Model for LineTags {
    ghost use Rattle.wb_cache.specs.Tags.{TagArray, IsFit};

    ghost Value = { TagArray };

    ghost view = { λ x. record { width = x.width; tags = x.tags.items } };

    ghost invariant = { λ x. IsFit (record { width = x.width; tags = x.tags.items }) };
}

impl Struck for LineTags {
    ghost use Rattle.wb_cache.specs.Tags as spec;

    ghost IsFit = { spec.IsFit };

    ghost bit_count = { spec.bit_count };

    ghost bit_of = { spec.bit_of };

    ghost flipped = { spec.flipped };

    fn bits(&self) -> u32 {
        self.tags.len() as u32 * self.width
    }

    fn bit(&self, k: u32) -> bool {
        bit_at(self.tags[(k / self.width) as usize], k % self.width)
    }

    fn flip(&mut self, k: u32) {
        flip_at_u32(
            &mut self.tags[(k / self.width) as usize],
            self.width,
            k % self.width,
        );
    }

    fn fits(&self) {
        let _width = self.width;
    }

    fn laws(&self) {}
}

impl LineTags {
    /// The tags of all slots of a shape, each 0.
    pub(crate) fn zeroed(alloc: Global, shape: &Shape) -> Result<LineTags, OutOfMemory>
        requires { IsShape shape.now }
        ensures { IfOk result (λ x. x ≡ record { width = shape_words.tag_bits shape.now; tags = replicate (shape_words.slots shape.now) 0 }) }
    {
        let len = usize::from(shape.sets) * usize::from(shape.ways);
        Ok(LineTags {
            width: tag_bits(shape),
            tags: vec![in alloc; 0u32; len]?,
        })
    }

    /// The tag of a line slot.
    pub(crate) fn tag(&self, slot: u32) -> u32
        requires { slot < length self.now.tags }
        ensures { result ≡ slice_index self.now.tags slot }
    {
        self.tags[slot as usize]
    }

    /// Sets the tag of a line slot.
    pub(crate) fn set_tag(&mut self, slot: u32, tag: u32)
        requires slot { slot < length self.old.tags }
        requires tag { tag < 2 ^ self.old.width }
        ensures { self.new ≡ record self.old { tags = slice_set self.old.tags slot tag } }
    {
        self.tags[slot as usize] = tag;
    }
}

/// A row of bits: of each line slot, whether it is valid or whether it is dirty; or the replacement bits of all sets.
#[derive(Drop)]
pub struct Flags {
    flags: Vec<bool>,
}

impl Model for Flags {
    ghost use Rattle.std.specs.Prelude.{Bool, ◌≤◌, List, length};

    ghost Value = { List Bool };

    ghost view = { λ x. x.flags.items };

    ghost invariant = { λ x. length x.flags.items ≤ 512 };
}

impl Struck for Flags {
    ghost use Rattle.std.specs.Prelude.{length};
    ghost use Rattle.bit_field.specs.Arrays.{bit_of_flags, flip_flag};

    ghost IsFit = { λ _. Unit {0} };

    ghost bit_count = { λ x. length x };

    ghost bit_of = { bit_of_flags };

    ghost flipped = { flip_flag };

    fn bits(&self) -> u32 {
        self.flags.len() as u32
    }

    fn bit(&self, k: u32) -> bool {
        self.flags[k as usize]
    }

    fn flip(&mut self, k: u32) {
        let flag = &mut self.flags[k as usize];
        *flag = !*flag;
    }

    fn fits(&self) {}

    fn laws(&self) {}
}

impl Flags {
    /// `len` bits, at most 512, none of them set.
    pub(crate) fn cleared(alloc: Global, len: u32) -> Result<Flags, OutOfMemory>
        requires { len ≤ 512 }
        ensures { IfOk result (λ x. x ≡ replicate len false) }
    {
        Ok(Flags {
            flags: vec![in alloc; false; len as usize]?,
        })
    }

    /// The bit at a place.
    pub(crate) fn is_set(&self, at: u32) -> bool
        requires { at < length self.now }
        ensures { result ≡ slice_index_or self.now at false }
    {
        self.flags[at as usize]
    }

    /// Sets the bit at a place.
    pub(crate) fn put(&mut self, at: u32, flag: bool)
        requires { at < length self.old }
        ensures { self.new ≡ slice_set self.old at flag }
    {
        self.flags[at as usize] = flag;
    }
}
