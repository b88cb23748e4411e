// The store buffer.

ghost use Rattle.std.specs.Prelude.{◌≡◌, ◌<◌, ℕ, IsTrue, false, ◌∷◌, [], ◌++◌, length, drop};
ghost use Rattle.bit_field.specs.Slots.{Stands};
ghost use Rattle.store_buf.specs.Entry.{no_entry};
ghost use Rattle.store_buf.specs.Pending.{is_pending, pending, packed, slot_of, oldest, younger};
ghost use Rattle.store_buf.specs.Covers.{found, is_found, is_missing, all_found, none_found, byte_found, word_found, covered};

use crate::cover::Cover;
use crate::pending::{PENDING_BITS, Pending, free_slot};
use bit_field::{SB_BITS, Struck, has_lane};
use std::marker::Model;

/// The number of slots.
pub const SLOTS: usize = 4;

/// Four slots for stores that wait for the cache. Contracts see them as a list, in which free slots may stand between the
/// others, since a strike can make any. The bits of its slots stand one slot after another.
#[derive(Clone, Copy)]
pub struct StoreBuf {
    slots: [Pending; SLOTS],
}

impl Model for StoreBuf {
    ghost use Rattle.std.specs.Prelude.{◌≡◌, List, length};
    ghost use Rattle.store_buf.specs.declared.buffer.TheConstants.{SLOTS};
    ghost use Rattle.store_buf.specs.Entry.{Entry};

    ghost Value = { List Entry };

    ghost view = { λ x. x.slots };

    ghost invariant = { λ x. length x.slots ≡ SLOTS };

    ghost inverse = { λ xs. record { slots = xs } };
}

impl Struck for StoreBuf {
    ghost use Rattle.store_buf.specs.BufferBits as spec;

    ghost IsFit = { spec.IsFit };

    ghost bit_count = { λ _. spec.bit_count };

    ghost bit_of = { spec.bit_of };

    ghost flipped = { spec.flipped };

    fn bits(&self) -> u32 {
        SB_BITS
    }

    fn bit(&self, k: u32) -> bool {
        let slot = &self.slots[(k / PENDING_BITS) as usize];
        slot.bit(k % PENDING_BITS)
    }

    fn flip(&mut self, k: u32) {
        let slot = &mut self.slots[(k / PENDING_BITS) as usize];
        slot.flip(k % PENDING_BITS);
    }

    fn fits(&self) {
        for slot in &self.slots {
            slot.fits();
        }
    }

    fn laws(&self) {}
}

impl StoreBuf {
    /// A buffer with four free slots.
    pub fn new() -> StoreBuf
        ensures { result ≡ packed [] }
    {
        StoreBuf {
            slots: free_slots(),
        }
    }

    /// Slot `k`, 0 to 3, as it stands.
    pub fn slot(&self, k: u32) -> Pending
        requires { k < SLOTS }
        ensures { result ≡ slot_of self.now k }
    {
        self.slots[k as usize]
    }

    /// The number of pending stores.
    pub fn len(&self) -> u32
        ensures { result ≡ length (pending self.now) }
    {
        let mut count = 0;
        for slot in &self.slots {
            if slot.mask != 0 {
                count += 1;
            }
        }
        count
    }

    /// The oldest pending store; `None` exactly where no slot holds one.
    pub fn oldest(&self) -> Option<Pending>
        ensures { result ≡ oldest (pending self.now) }
    {
        for slot in &self.slots {
            if slot.mask != 0 {
                return Some(*slot);
            }
        }
        None
    }

    /// Takes the oldest pending store out; `None` exactly where no slot holds one. The others then stand in the first slots
    /// in their order, and all other slots are free.
    pub fn drain(&mut self) -> Option<Pending>
        ensures taken { result ≡ oldest (pending self.old) }
        ensures left { self.new ≡ packed (younger (pending self.old)) }
    {
        let taken = self.oldest();
        self.ripple();
        self.slots = moved_down(&self.slots);
        taken
    }

    /// Appends a store as the youngest. The pending stores then stand in the first slots in their order, and all other slots
    /// are free.
    pub fn push(&mut self, p: Pending)
        requires room { length (pending self.old) < SLOTS }
        requires pending { 0 < p.mask }
        ensures { self.new ≡ packed (pending self.old ++ p ∷ []) }
    {
        let count = self.len();
        self.ripple();
        self.slots[count as usize] = p;
    }

    /// Moves the pending stores to the first slots, in their order, and frees all others.
    pub fn ripple(&mut self)
        ensures { self.new ≡ packed (pending self.old) }
    {
        if !is_in_front(&self.slots) {
            self.slots = in_front(&self.slots);
        }
    }

    /// What the pending stores hold of the lanes of the word at a word address; `lanes` is a mask from 1 to 15.
    #[tactic(auto, unfolding(crate::specs::Covers::covered))]
    pub fn cover(&self, addr: u32, lanes: u8) -> Cover
        requires some { 0 < lanes }
        requires mask { lanes < 16 }
        ensures { result ≡ covered (pending self.now) addr lanes }
    {
        if self.all_found(addr, lanes) {
            Cover::Full(self.word_found(addr, lanes))
        } else if self.none_found(addr, lanes) {
            Cover::None
        } else {
            Cover::Part
        }
    }
    // The byte of the youngest pending store that holds one for the lane.
    fn found(&self, addr: u32, lane: u32) -> Option<u8>
        requires { lane < 4 }
        ensures { result ≡ found (pending self.now) addr lane }
    {
        let mut youngest = None;
        for slot in &self.slots {
            youngest = slot.held(addr, lane).or(youngest);
        }
        youngest
    }

    // Whether each lane of a mask is held.
    #[tactic(auto, unfolding(crate::specs::Covers::all_found))]
    fn all_found(&self, addr: u32, lanes: u8) -> bool
        ensures { result ≡ all_found (pending self.now) addr lanes }
    {
        self.is_found(addr, lanes, 0)
            && self.is_found(addr, lanes, 1)
            && self.is_found(addr, lanes, 2)
            && self.is_found(addr, lanes, 3)
    }

    // Whether no lane of a mask is held.
    #[tactic(auto, unfolding(crate::specs::Covers::none_found))]
    fn none_found(&self, addr: u32, lanes: u8) -> bool
        ensures { result ≡ none_found (pending self.now) addr lanes }
    {
        self.is_missing(addr, lanes, 0)
            && self.is_missing(addr, lanes, 1)
            && self.is_missing(addr, lanes, 2)
            && self.is_missing(addr, lanes, 3)
    }

    // Whether the lane isn't in the mask or is held.
    fn is_found(&self, addr: u32, lanes: u8, lane: u32) -> bool
        requires { lane < 4 }
        ensures { result ≡ is_found (pending self.now) addr lanes lane }
    {
        !has_lane(lanes, lane) || self.found(addr, lane).is_some()
    }

    // Whether the lane isn't in the mask or isn't held.
    fn is_missing(&self, addr: u32, lanes: u8, lane: u32) -> bool
        requires { lane < 4 }
        ensures { result ≡ is_missing (pending self.now) addr lanes lane }
    {
        !has_lane(lanes, lane) || self.found(addr, lane).is_none()
    }

    // The word of the lanes of a mask by the youngest stores that hold them, and 0 in the other lanes.
    #[tactic(auto, unfolding(crate::specs::Covers::word_found))]
    fn word_found(&self, addr: u32, lanes: u8) -> u32
        ensures { result ≡ word_found (pending self.now) addr lanes }
    {
        u32::from_le_bytes([
            self.byte_found(addr, lanes, 0),
            self.byte_found(addr, lanes, 1),
            self.byte_found(addr, lanes, 2),
            self.byte_found(addr, lanes, 3),
        ])
    }

    #[tactic(auto, unfolding(crate::specs::Covers::byte_found))]
    fn byte_found(&self, addr: u32, lanes: u8, lane: u32) -> u8
        requires { lane < 4 }
        ensures { result ≡ byte_found (pending self.now) addr lanes lane }
    {
        if has_lane(lanes, lane) {
            self.found(addr, lane).unwrap_or(0)
        } else {
            0
        }
    }
}

fn free_slots() -> [Pending; SLOTS]
    ensures { result ≡ packed [] }
{
    [free_slot(); SLOTS]
}

// Whether the pending stores stand in the first slots and all others are free. Only a strike makes it otherwise.
#[tactic(auto, using(crate::proofs::Packed::standing))]
fn is_in_front(slots: &[Pending; SLOTS]) -> bool
    requires { length slots.now ≡ SLOTS }
    ensures { IsTrue result → packed (pending slots.now) ≡ slots.now }
{
    stands(&slots[0], &slots[1])
        && stands(&slots[1], &slots[2])
        && stands(&slots[2], &slots[3])
        && stands(&slots[3], &free_slot())
}

// Whether a slot holds a store, or it is free and the one behind it holds none.
fn stands(slot: &Pending, behind: &Pending) -> bool
    ensures { IsTrue result → Stands is_pending no_entry slot.now (is_pending behind.now) }
{
    slot.mask != 0 || (behind.mask == 0 && *slot == free_slot())
}

// The pending stores moved to the first slots, in their order.
fn in_front(slots: &[Pending; SLOTS]) -> [Pending; SLOTS]
    requires { length slots.now ≡ SLOTS }
    ensures { result ≡ packed (pending slots.now) }
{
    let mut next = free_slots();
    let mut count = 0;
    for slot in slots {
        if slot.mask != 0 {
            next[count] = *slot;
            count += 1;
        }
    }
    next
}

// Each slot moved down by one.
fn moved_down(slots: &[Pending; SLOTS]) -> [Pending; SLOTS]
    requires { length slots.now ≡ SLOTS }
    ensures { result ≡ drop 1 slots.now ++ no_entry ∷ [] }
{
    [slots[1], slots[2], slots[3], free_slot()]
}
