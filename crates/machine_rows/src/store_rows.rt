//! The bit numbers of the store buffer, the order of its stores, and what it has of a word.
ghost use Rattle.std.specs.Prelude.{◌≡◌, ◌<◌};

use crate::one_bit::field_of_bit;
use bit_field::Struck;
use store_buf::{Cover, PENDING_BITS, Pending, PendingField, StoreBuf};

/// Whether bit `k` of the slot alone is 1: mask 0 to 3, word address 4 to 33, value 34 to 65.
fn is_bit(slot: &Pending, k: u32) -> bool {
    u32::from(slot.mask) == field_of_bit(k, 0, 3)
        && slot.addr == field_of_bit(k, 4, 33)
        && slot.value == field_of_bit(k, 34, 65)
}

/// Whether bit `k` of the buffer alone is 1.
fn is_bit_of_buffer(buffer: &StoreBuf, k: u32) -> bool {
    is_bit(&buffer.slot(0), k)
        && is_bit(&buffer.slot(1), k.wrapping_sub(66))
        && is_bit(&buffer.slot(2), k.wrapping_sub(132))
        && is_bit(&buffer.slot(3), k.wrapping_sub(198))
}

#[test]
fn each_bit_is_in_its_field(rt: HostRuntime) {
    for k in 0..264u32 {
        let mut buffer = StoreBuf::new();
        buffer.flip(k);
        assert!(rt; buffer.bit(k) && is_bit_of_buffer(&buffer, k));
    }
}

/// A field of a slot, and its first and its last bit.
struct Row(PendingField, u32, u32);

static FIELDS: [Row; 3] = [
    Row(PendingField::Mask, 0, 3),
    Row(PendingField::Addr, 4, 33),
    Row(PendingField::Value, 34, 65),
];

fn is_field(row: &Row) -> bool {
    row.1 <= row.2
        && row.2 < PENDING_BITS
        && Pending::field_at(row.1) == (row.0, 0)
        && Pending::field_at(row.2) == (row.0, row.2 - row.1)
}

#[test]
fn a_slot_is_a_row_of_fields(rt: HostRuntime) {
    for row in &FIELDS {
        assert!(rt; is_field(row));
    }
}

fn store(mask: u8, addr: u32, value: u32) -> Pending
    requires mask { mask < 16 }
    requires addr { addr < 1024 }
    ensures { result.mask ≡ mask }
{
    Pending { mask, addr, value }
}

/// Whether a slot holds the whole word `addr` of the word at that address.
fn is_store(slot: &Pending, addr: u32) -> bool {
    slot.mask == 15 && slot.addr == addr && slot.value == addr
}

fn has_store(slot: Option<Pending>, addr: u32) -> bool {
    match slot {
        Some(slot) => is_store(&slot, addr),
        None => false,
    }
}

#[test]
fn stores_leave_in_order(rt: HostRuntime) {
    let mut buffer = StoreBuf::new();
    assert!(rt; buffer.oldest().is_none() && buffer.drain().is_none());
    for addr in 7..11 {
        assert!(rt; buffer.len() < 4);
        buffer.push(store(15, addr % 1024, addr));
    }
    assert!(rt; buffer.len() == 4);
    // strikes on the mask of slot 1 take the store to 8 out
    for k in 66..70 {
        buffer.flip(k);
    }
    assert!(rt; buffer.len() == 3);
    buffer.ripple();
    assert!(rt; is_store(&buffer.slot(1), 9));
    assert!(rt; has_store(buffer.oldest(), 7));
    assert!(rt; has_store(buffer.drain(), 7));
    assert!(rt; is_store(&buffer.slot(0), 9) && is_store(&buffer.slot(1), 10));
    assert!(rt; buffer.slot(2).value == 0 && buffer.bits() == 264);
    buffer.fits();
}

/// A store to put: its lanes, its word address and its value.
struct Stored(u8, u32, u32);

static STORED: [Stored; 4] = [
    Stored(0b1111, 5, 0x4433_2211),
    Stored(0b0011, 5, 0xDDCC_BBAA),
    Stored(0b0100, 6, 0x0066_0000),
    Stored(0b1000, 5, 0x7788_99FF),
];

/// What the buffer has of the lanes of a word.
struct Covered(u32, u8, Cover);

static COVERED: [Covered; 7] = [
    Covered(5, 0b1111, Cover::Full(0x7733_BBAA)),
    Covered(5, 0b0001, Cover::Full(0x0000_00AA)),
    Covered(5, 0b1100, Cover::Full(0x7733_0000)),
    Covered(6, 0b0100, Cover::Full(0x0066_0000)),
    Covered(6, 0b1100, Cover::Part),
    Covered(6, 0b0011, Cover::None),
    Covered(7, 0b1111, Cover::None),
];

fn is_covered(buffer: &StoreBuf, row: &Covered) -> bool {
    row.1 > 0 && row.1 < 16 && buffer.cover(row.0, row.1) == row.2
}

#[test]
fn the_youngest_store_covers(rt: HostRuntime) {
    let mut buffer = StoreBuf::new();
    for row in &STORED {
        assert!(rt; buffer.len() < 4);
        assert!(rt; row.0 > 0 && row.0 < 16);
        buffer.push(store(row.0, row.1 % 1024, row.2));
    }
    for row in &COVERED {
        assert!(rt; is_covered(&buffer, row));
    }
}
