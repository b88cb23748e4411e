// The cache.

ghost use Rattle.std.specs.Prelude.{◌≡◌, ℕ, ◌+◌, ◌-◌, ◌*◌, ◌/◌, ◌%◌, ◌^◌, ◌<◌, ◌≤◌, Bool, length, None, IfOk, IfSome, slice_index, slice_index_or};
ghost use Rattle.bit_field.specs.Shapes.{IsShape};
ghost use Rattle.bit_field.specs.Shapes as shape_words;
ghost use Rattle.wb_cache.specs.Contents.{IsContents, slots, slot_of, empty};
ghost use Rattle.wb_cache.specs.Lookup as lookups;
ghost use Rattle.wb_cache.specs.Lookup.{way_of};
ghost use Rattle.wb_cache.specs.Replacement as replacement;
ghost use Rattle.wb_cache.specs.Access as access;
ghost use Rattle.wb_cache.specs.Bytewise.{RefillsLine, WritesLanes};
ghost use Rattle.wb_cache.specs.Refill as refills;

use crate::arrays::{Flags, LineData, LineTags};
use crate::nodes::{replaced, use_way};
use avf_base::OutOfMemory;
use bit_field::{Place, Shape, Struck, Structure, plain_shape};
use elf_load::Image;
use std::alloc::Global;
use std::marker::Model;

/// The cache. A line is a byte address divided by 16, below 2^28; its set is the line modulo the number of sets, and its tag
/// the line divided by it.
#[derive(Drop)]
pub struct Cache {
    shape: Shape,
    lines: LineData,
    tags: LineTags,
    valid: Flags,
    dirty: Flags,
    nodes: Flags,
}

impl Model for Cache {
    ghost use Rattle.std.specs.Prelude.{◌≡◌};
    ghost use Rattle.bit_field.specs.Shapes.{tag_bits};
    ghost use Rattle.wb_cache.specs.Contents.{Contents, IsSized};

    ghost Value = { Contents };

    ghost view = { λ x. record { shape = x.shape; bytes = x.lines; tags = x.tags.tags; valid = x.valid; dirty = x.dirty; nodes = x.nodes } };

    ghost invariant = { λ x. IsSized (record { shape = x.shape; bytes = x.lines; tags = x.tags.tags; valid = x.valid; dirty = x.dirty; nodes = x.nodes }) × (x.tags.width ≡ tag_bits x.shape) };
}

impl Cache {
    /// A cache of the plain shape, 32 sets of 2 ways, with all bits 0.
    pub fn new(alloc: Global) -> Result<Cache, OutOfMemory>
        ensures { IfOk result (λ c. c ≡ empty shape_words.plain) }
    {
        Cache::shaped(alloc, &plain_shape())
    }

    /// A cache of a shape, with all bits 0.
    #[tactic(auto, unfolding(crate::specs::Contents::empty))]
    pub fn shaped(alloc: Global, shape: &Shape) -> Result<Cache, OutOfMemory>
        requires { IsShape shape.now }
        ensures { IfOk result (λ c. c ≡ empty shape.now) }
    {
        let slots = u32::from(shape.sets) * u32::from(shape.ways);
        Ok(Cache {
            shape: *shape,
            lines: LineData::zeroed(alloc, 16 * slots)?,
            tags: LineTags::zeroed(alloc, shape)?,
            valid: Flags::cleared(alloc, slots)?,
            dirty: Flags::cleared(alloc, slots)?,
            nodes: Flags::cleared(alloc, u32::from(shape.sets) * (u32::from(shape.ways) - 1))?,
        })
    }

    /// The shape.
    pub fn shape(&self) -> Shape
        ensures { result ≡ self.now.shape }
    {
        self.shape
    }

    /// Changes nothing; says what holds of the contents of every cache: the lengths of its arrays, and the widths of bytes and
    /// tags.
    pub fn is_cache(&self)
        ensures { IsContents self.now }
    {
        self.lines.fits();
        self.tags.fits();
    }

    /// The first valid way of its set that has the line's tag.
    #[tactic(auto, using(crate::proofs::Find::finds), unfolding(crate::specs::Lookup::way_of))]
    pub fn lookup(&self, line: u32) -> Option<u32>
        ensures way { result ≡ way_of self.now.shape (slots self.now) line }
        ensures within { IfSome result (λ way. way < self.now.shape.ways) }
    {
        let set = self.set_of(line);
        let tag = self.tag_of(line);
        for way in 0..self.ways() {
            if self.valid(set, way) && self.tag(set, way) == tag {
                return Some(way);
            }
        }
        None
    }

    /// The way of a set that the next refill of the set replaces: the invalid way of least number, else the one to which the
    /// set's replacement bits point.
    #[tactic(auto, unfolding(crate::specs::Replacement::victim))]
    pub fn victim(&self, set: u32) -> u32
        requires { set < self.now.shape.sets }
        ensures way { result ≡ replacement.victim self.now.shape (slots self.now) self.now.nodes set }
        ensures within { result < self.now.shape.ways }
    {
        match self.first_invalid(set) {
            Some(way) => way,
            None => replaced(&self.nodes, &self.shape, set),
        }
    }

    // The invalid way of a set of least number.
    #[tactic(auto, using(crate::proofs::Find::finds), unfolding(crate::specs::Replacement::first_invalid))]
    fn first_invalid(&self, set: u32) -> Option<u32>
        requires { set < self.now.shape.sets }
        ensures way { result ≡ replacement.first_invalid self.now.shape (slots self.now) set }
        ensures within { IfSome result (λ way. way < self.now.shape.ways) }
    {
        for way in 0..self.ways() {
            if !self.valid(set, way) {
                return Some(way);
            }
        }
        None
    }

    /// Reads a word of a line, 0 to 3. A way that holds the line is used then; `None` exactly on a miss, and then nothing
    /// changes.
    #[tactic(auto, using(crate::proofs::Hits::hits))]
    pub fn read(&mut self, line: u32, word: u32) -> Option<u32>
        requires { word < 4 }
        ensures word { result ≡ access.word_of self.old line word }
        ensures after { self.new ≡ access.read line self.old }
    {
        let way = self.lookup(line)?;
        let set = self.set_of(line);
        let value = self.word(set, way, word);
        self.use_way(set, way);
        Some(value)
    }

    /// Writes the lanes of a mask, below 16, to a word of a line, 0 to 3. The way that holds the line is dirty and used then;
    /// `None` exactly on a miss, and then nothing changes.
    #[tactic(auto, using(crate::proofs::Hits::hits))]
    pub fn write(&mut self, line: u32, word: u32, mask: u8, value: u32) -> Option<u32>
        requires word { word < 4 }
        requires mask { mask < 16 }
        ensures way { result ≡ way_of self.old.shape (slots self.old) line }
        ensures after { self.new ≡ access.written line word mask value self.old }
        ensures bytes { WritesLanes line word mask value self.old self.new }
    {
        self.is_cache();
        let way = self.lookup(line)?;
        self.put(self.set_of(line), way, word, mask, value);
        Some(way)
    }

    /// Reads a line in from main memory, in place of its set's victim, which is written back first where it is valid and dirty.
    /// Bytes outside RAM are dropped on the way out, and 0 on the way in.
    #[tactic(auto, unfolding(crate::specs::Refill::memory_refilled, crate::specs::Refill::refilled))]
    pub fn refill(&mut self, line: u32, image: &Image, memory: &mut [u8])
        requires line { line < 2 ^ 28 }
        requires miss { way_of self.old.shape (slots self.old) line ≡ None }
        requires memory { length memory.old ≡ length image.now.ram }
        ensures memory { memory.new ≡ refills.memory_refilled image.now line self.old memory.old }
        ensures after { self.new ≡ refills.refilled image.now line memory.old self.old }
        ensures bytes { RefillsLine image.now line self.old self.new memory.old memory.new }
    {
        self.is_cache();
        image.is_image();
        let set = self.set_of(line);
        let way = self.victim(set);
        self.write_back(set, way, image, memory);
        self.fill(line, way, image, memory);
    }

    /// The byte at a byte address in the first way that holds its line; `None` exactly where no valid way does.
    #[tactic(auto, using(crate::proofs::Hits::hits))]
    pub fn byte(&self, addr: u32) -> Option<u8>
        ensures { result ≡ access.byte_of self.now addr }
    {
        let line = addr / 16;
        let way = self.lookup(line)?;
        Some(self.byte_at(self.set_of(line), way, addr % 16))
    }

    /// Whether a line slot is valid.
    #[tactic(auto, using(crate::proofs::Slots::insides))]
    pub fn valid(&self, set: u32, way: u32) -> bool
        requires set { set < self.now.shape.sets }
        requires way { way < self.now.shape.ways }
        ensures { result ≡ (slots self.now set way).valid }
    {
        self.valid.is_set(self.slot(set, way))
    }

    /// Whether a line slot is dirty.
    #[tactic(auto, using(crate::proofs::Slots::insides))]
    pub fn dirty(&self, set: u32, way: u32) -> bool
        requires set { set < self.now.shape.sets }
        requires way { way < self.now.shape.ways }
        ensures { result ≡ (slots self.now set way).dirty }
    {
        self.dirty.is_set(self.slot(set, way))
    }

    /// The tag of a line slot, valid or not.
    #[tactic(auto, using(crate::proofs::Slots::insides))]
    pub fn tag(&self, set: u32, way: u32) -> u32
        requires set { set < self.now.shape.sets }
        requires way { way < self.now.shape.ways }
        ensures tag { result ≡ (slots self.now set way).tag }
        ensures within { result < 2 ^ shape_words.tag_bits self.now.shape }
    {
        self.tags.fits();
        self.tags.tag(self.slot(set, way))
    }

    /// How many sets it has.
    pub fn sets(&self) -> u32
        ensures value { result ≡ self.now.shape.sets }
        ensures some { 0 < result }
    {
        u32::from(self.shape.sets)
    }

    fn set_of(&self, line: u32) -> u32
        ensures value { result ≡ lookups.set_of self.now.shape line }
        ensures within { result < self.now.shape.sets }
    {
        line % self.sets()
    }

    #[tactic(auto, using(bit_field::proofs::CacheShape::tag_below))]
    fn tag_of(&self, line: u32) -> u32
        ensures value { result ≡ lookups.tag_of self.now.shape line }
        ensures within { line < 2 ^ 28 → result < 2 ^ shape_words.tag_bits self.now.shape }
    {
        line / u32::from(self.shape.sets)
    }

    // The line of a set that has a tag.
    #[tactic(auto, using(crate::proofs::Sizes::line_below))]
    fn line_of(&self, set: u32, tag: u32) -> u32
        requires set { set < self.now.shape.sets }
        requires tag { tag < 2 ^ shape_words.tag_bits self.now.shape }
        ensures value { result ≡ lookups.line_of self.now.shape set tag }
        ensures within { result < 2 ^ 28 }
    {
        u32::from(self.shape.sets) * tag + set
    }

    /// How many ways each set has.
    pub fn ways(&self) -> u32
        ensures { result ≡ self.now.shape.ways }
    {
        u32::from(self.shape.ways)
    }

    // The number of a line slot.
    #[tactic(auto, using(crate::proofs::Sizes::slot_below, crate::proofs::Sizes::slots_most))]
    fn slot(&self, set: u32, way: u32) -> u32
        requires set { set < self.now.shape.sets }
        requires way { way < self.now.shape.ways }
        ensures value { result ≡ slot_of self.now.shape set way }
        ensures within { result < shape_words.slots self.now.shape }
        ensures most { result < 512 }
    {
        u32::from(self.shape.ways) * set + way
    }

    // A byte of a line slot.
    #[tactic(auto, using(crate::proofs::Slots::insides))]
    fn byte_at(&self, set: u32, way: u32, offset: u32) -> u8
        requires set { set < self.now.shape.sets }
        requires way { way < self.now.shape.ways }
        requires offset { offset < 16 }
        ensures { result ≡ (slots self.now set way).bytes offset }
    {
        self.lines.byte(16 * self.slot(set, way) + offset)
    }

    // A word of a line slot.
    #[tactic(auto, using(crate::proofs::Slots::insides), unfolding(crate::specs::Access::word_at))]
    fn word(&self, set: u32, way: u32, word: u32) -> u32
        requires set { set < self.now.shape.sets }
        requires way { way < self.now.shape.ways }
        requires word { word < 4 }
        ensures { result ≡ access.word_at (slots self.now set way) word }
    {
        self.lines.word(16 * self.slot(set, way) + 4 * word)
    }

    // Writes the lanes of a mask to a word of a line slot, which is dirty and used then.
    #[tactic(auto, using(crate::proofs::Lengths::lengths), unfolding(crate::specs::Access::put))]
    fn put(&mut self, set: u32, way: u32, word: u32, mask: u8, value: u32)
        requires set { set < self.old.shape.sets }
        requires way { way < self.old.shape.ways }
        requires word { word < 4 }
        ensures { self.new ≡ access.put set way word mask value self.old }
    {
        let slot = self.slot(set, way);
        self.lines.put_word(16 * slot + 4 * word, mask, value);
        self.dirty.put(slot, true);
        use_way(&mut self.nodes, &self.shape, set, way);
    }

    #[tactic(auto, using(crate::proofs::Lengths::lengths))]
    fn use_way(&mut self, set: u32, way: u32)
        requires { set < self.old.shape.sets }
        ensures { self.new ≡ access.touched set way self.old }
    {
        use_way(&mut self.nodes, &self.shape, set, way);
    }

    #[tactic(auto, using(crate::proofs::Sizes::line_below, crate::proofs::Slots::insides), unfolding(crate::specs::Refill::written_back))]
    // Writes a way of a set back to main memory where it is valid and dirty.
    fn write_back(&self, set: u32, way: u32, image: &Image, memory: &mut [u8])
        requires set { set < self.now.shape.sets }
        requires way { way < self.now.shape.ways }
        requires memory { length memory.old ≡ length image.now.ram }
        ensures { memory.new ≡ refills.written_back image.now set way self.now memory.old }
    {
        if self.valid(set, way) && self.dirty(set, way) {
            let line = self.line_of(set, self.tag(set, way));
            put_line(memory, image, line, self.lines.line(self.slot(set, way)));
        }
    }

    #[tactic(auto, using(crate::proofs::Lengths::lengths), unfolding(crate::specs::Refill::filled))]
    // Reads a line from main memory into a way of its set, which is valid, clean and used then.
    fn fill(&mut self, line: u32, way: u32, image: &Image, memory: &[u8])
        requires line { line < 2 ^ 28 }
        requires way { way < self.old.shape.ways }
        requires memory { length memory.now ≡ length image.now.ram }
        ensures { self.new ≡ refills.filled image.now line way memory.now self.old }
    {
        let set = self.set_of(line);
        let tag = self.tag_of(line);
        let slot = self.slot(set, way);
        self.lines.put_line(slot, &line_bytes(memory, image, line));
        self.tags.set_tag(slot, tag);
        self.valid.put(slot, true);
        self.dirty.put(slot, false);
        self.use_way(set, way);
    }
}

// The bits of the cache by place.
impl Cache {
    ghost use Rattle.std.specs.Prelude.{◌≡◌, ◌↔◌, IsTrue};
    ghost use Rattle.wb_cache.specs.Bits.{IsCachePlace, bit_in, flip_in};

    /// The bit at a place in one of the cache's five structures.
    pub fn bit(&self, place: &Place) -> bool
        requires { IsCachePlace self.now place.now }
        ensures { IsTrue result ↔ (bit_in place.now.structure self.now place.now.bit ≡ 1) }
    {
        match place.structure {
            Structure::CData => self.lines.bit(place.bit),
            Structure::CTag => self.tags.bit(place.bit),
            Structure::CValid => self.valid.bit(place.bit),
            Structure::CDirty => self.dirty.bit(place.bit),
            Structure::CLru => self.nodes.bit(place.bit),
            _ => false,
        }
    }

    /// Flips the bit at a place in one of the cache's five structures.
    pub fn flip(&mut self, place: &Place)
        requires { IsCachePlace self.old place.now }
        ensures { self.new ≡ flip_in place.now.structure self.old place.now.bit }
    {
        match place.structure {
            Structure::CData => self.lines.flip(place.bit),
            Structure::CTag => self.tags.flip(place.bit),
            Structure::CValid => self.valid.flip(place.bit),
            Structure::CDirty => self.dirty.flip(place.bit),
            Structure::CLru => self.nodes.flip(place.bit),
            _ => {}
        }
    }
}

// The 16 bytes of a line in main memory, 0 outside RAM.
#[tactic(auto, using(crate::proofs::Ram::line_from, crate::proofs::Ram::line_to), unfolding(crate::specs::Refill::line_bytes))]
fn line_bytes(memory: &[u8], image: &Image, line: u32) -> [u8; 16]
    requires line { line < 2 ^ 28 }
    requires memory { length memory.now ≡ length image.now.ram }
    ensures { result ≡ refills.line_bytes image.now line memory.now }
{
    let mut bytes = [0; 16];
    if image.in_ram(16 * line) {
        image.is_image();
        let at = (16 * line - image.base()) as usize;
        bytes.copy_from_slice(&memory[at..at + 16]);
    }
    bytes
}

// Puts the 16 bytes of a line into main memory; outside RAM they are dropped.
#[tactic(auto, using(crate::proofs::Ram::line_from, crate::proofs::Ram::line_to), unfolding(crate::specs::Refill::put_line))]
fn put_line(memory: &mut [u8], image: &Image, line: u32, bytes: &[u8])
    requires line { line < 2 ^ 28 }
    requires memory { length memory.old ≡ length image.now.ram }
    requires bytes { length bytes.now ≡ 16 }
    ensures { memory.new ≡ refills.put_line image.now line bytes.now memory.old }
{
    if image.in_ram(16 * line) {
        image.is_image();
        let at = (16 * line - image.base()) as usize;
        memory[at..at + 16].copy_from_slice(bytes);
    }
}
