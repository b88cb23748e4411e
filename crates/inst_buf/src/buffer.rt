// The four slots of the instruction buffer.

ghost use Rattle.std.specs.Prelude.{◌≡◌, ◌+◌, ◌<◌, ◌≤◌, IsTrue, true, [], ◌∷◌, ◌++◌, length, drop, slice_get};
ghost use Rattle.bit_field.specs.Slots.{Stands};
ghost use Rattle.inst_buf.specs.Entry.{no_entry};
ghost use Rattle.inst_buf.specs.Buffer.{entries, packed, slot_of};

use crate::slots::{SLOT_BITS, Slot, empty_slot};
use bit_field::{IB_BITS, Struck};
use std::marker::Model;

/// The number of slots.
pub const SLOTS: usize = 4;

/// The instruction buffer. Contracts see its four slots as a list, which may have empty slots between valid
/// ones, since a strike can make any. The bits of its slots stand one slot after another.
#[derive(Clone, Copy)]
pub struct InstBuf {
    slots: [Slot; SLOTS],
}

impl Model for InstBuf {
    ghost use Rattle.std.specs.Prelude.{◌≡◌, List, length};
    ghost use Rattle.inst_buf.specs.declared.buffer.TheConstants.{SLOTS};
    ghost use Rattle.inst_buf.specs.Entry.{Entry};

    ghost Value = { List Entry };

    ghost view = { λ x. x.slots };

    ghost invariant = { λ x. length x.slots ≡ SLOTS };

    ghost inverse = { λ xs. record { slots = xs } };
}

impl Struck for InstBuf {
    ghost use Rattle.inst_buf.specs.BufferBits as buffer_bits;

    ghost IsFit = { buffer_bits.IsFit };

    ghost bit_count = { λ _. buffer_bits.bit_count };

    ghost bit_of = { buffer_bits.bit_of };

    ghost flipped = { buffer_bits.flipped };

    fn bits(&self) -> u32 {
        IB_BITS
    }

    fn bit(&self, k: u32) -> bool {
        let slot = &self.slots[(k / SLOT_BITS) as usize];
        slot.bit(k % SLOT_BITS)
    }

    fn flip(&mut self, k: u32) {
        let slot = &mut self.slots[(k / SLOT_BITS) as usize];
        slot.flip(k % SLOT_BITS);
    }

    fn fits(&self) {
        for slot in &self.slots {
            slot.fits();
        }
    }

    fn laws(&self) {}
}

impl InstBuf {
    /// The empty buffer.
    pub fn new() -> InstBuf
        ensures { result ≡ packed [] }
    {
        InstBuf {
            slots: empty_slots(),
        }
    }

    /// Slot `k`, 0 to 3.
    pub fn slot(&self, k: u32) -> Slot
        requires { k < SLOTS }
        ensures { result ≡ slot_of self.now k }
    {
        self.slots[k as usize]
    }

    /// The number of valid slots.
    pub fn len(&self) -> u32
        ensures { result ≡ length (entries self.now) }
    {
        let mut count = 0;
        for slot in &self.slots {
            if slot.valid {
                count += 1;
            }
        }
        count
    }

    /// The first valid slot; `None` exactly where no slot is valid.
    pub fn head(&self) -> Option<Slot>
        ensures { result ≡ slice_get (entries self.now) 0 }
    {
        for slot in &self.slots {
            if slot.valid {
                return Some(*slot);
            }
        }
        None
    }

    /// Puts a valid slot behind the others.
    pub fn push(&mut self, s: Slot)
        requires room { length (entries self.old) < SLOTS }
        requires valid { s.valid ≡ true }
        ensures { self.new ≡ packed (entries self.old ++ s ∷ []) }
    {
        let count = self.len();
        self.ripple();
        self.slots[count as usize] = s;
    }

    /// Takes the first valid slot out; `None` exactly where no slot is valid.
    pub fn take(&mut self) -> Option<Slot>
        ensures first { result ≡ slice_get (entries self.old) 0 }
        ensures rest { self.new ≡ packed (drop 1 (entries self.old)) }
    {
        let first = self.head();
        self.drop_first();
        first
    }

    /// Takes the first valid slot out, where there is one, and puts a valid slot behind the others.
    pub fn take_and_push(&mut self, s: Slot)
        requires { s.valid ≡ true }
        ensures waiting { self.new ≡ packed (drop 1 (entries self.old) ++ s ∷ []) }
        ensures room { length (drop 1 (entries self.old)) < SLOTS }
    {
        self.fits();
        let remaining = self.len().saturating_sub(1);
        self.drop_first();
        self.slots[remaining as usize] = s;
    }

    // Takes the first valid slot out, where there is one.
    fn drop_first(&mut self)
        ensures { self.new ≡ packed (drop 1 (entries self.old)) }
    {
        self.ripple();
        self.slots = moved_down(&self.slots);
    }

    /// Moves the valid slots down in their order, and empties the others.
    pub fn ripple(&mut self)
        ensures { self.new ≡ packed (entries self.old) }
    {
        if !is_rippled(&self.slots) {
            self.slots = rippled(&self.slots);
        }
    }

    /// Empties every slot.
    pub fn clear(&mut self)
        ensures { self.new ≡ packed [] }
    {
        self.slots = empty_slots();
    }
}

fn empty_slots() -> [Slot; SLOTS]
    ensures { result ≡ packed [] }
{
    [empty_slot(); SLOTS]
}

// Whether the valid slots stand first and all others are empty. Only a strike makes it otherwise.
#[tactic(auto, using(crate::proofs::Packed::standing))]
fn is_rippled(slots: &[Slot; SLOTS]) -> bool
    requires { length slots.now ≡ SLOTS }
    ensures { IsTrue result → packed (entries slots.now) ≡ slots.now }
{
    stands(&slots[0], &slots[1])
        && stands(&slots[1], &slots[2])
        && stands(&slots[2], &slots[3])
        && stands(&slots[3], &empty_slot())
}

// Whether a slot is valid, or it is empty and the one behind it isn't valid.
fn stands(slot: &Slot, behind: &Slot) -> bool
    ensures { IsTrue result → Stands (λ e. e.valid) no_entry slot.now behind.now.valid }
{
    slot.valid || (!behind.valid && *slot == empty_slot())
}

fn rippled(slots: &[Slot; SLOTS]) -> [Slot; SLOTS]
    requires { length slots.now ≡ SLOTS }
    ensures { result ≡ packed (entries slots.now) }
{
    let mut next = empty_slots();
    let mut count = 0;
    for slot in slots {
        if slot.valid {
            next[count] = *slot;
            count += 1;
        }
    }
    next
}

fn moved_down(slots: &[Slot; SLOTS]) -> [Slot; SLOTS]
    requires { length slots.now ≡ SLOTS }
    ensures { result ≡ drop 1 slots.now ++ no_entry ∷ [] }
{
    [slots[1], slots[2], slots[3], empty_slot()]
}
