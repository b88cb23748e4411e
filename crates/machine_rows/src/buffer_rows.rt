//! The bit numbers of the instruction buffer, and the order of its instructions.
use crate::one_bit::field_of_bit;
use bit_field::Struck;
use inst_buf::{InstBuf, SLOT_BITS, Slot, SlotField};

/// Whether bit `k` of the slot alone is 1: valid 0, fault 1, pc 2 to 31, word 32 to 63.
fn is_bit(slot: &Slot, k: u32) -> bool {
    slot.valid == (k == 0)
        && slot.fault == (k == 1)
        && slot.pc == field_of_bit(k, 2, 31)
        && slot.word == field_of_bit(k, 32, 63)
}

/// Whether bit `k` of the buffer alone is 1.
fn is_bit_of_buffer(buffer: &InstBuf, k: u32) -> bool {
    is_bit(&buffer.slot(0), k)
        && is_bit(&buffer.slot(1), k.wrapping_sub(64))
        && is_bit(&buffer.slot(2), k.wrapping_sub(128))
        && is_bit(&buffer.slot(3), k.wrapping_sub(192))
}

#[test]
fn each_bit_is_in_its_field(rt: HostRuntime) {
    for k in 0..256u32 {
        let mut buffer = InstBuf::new();
        buffer.flip(k);
        assert!(rt; buffer.bit(k) && is_bit_of_buffer(&buffer, k));
    }
}

/// A field of a slot, and its first and its last bit.
struct Row(SlotField, u32, u32);

static FIELDS: [Row; 4] = [
    Row(SlotField::Valid, 0, 0),
    Row(SlotField::Fault, 1, 1),
    Row(SlotField::Pc, 2, 31),
    Row(SlotField::Word, 32, 63),
];

fn is_field(row: &Row) -> bool {
    row.1 <= row.2
        && row.2 < SLOT_BITS
        && Slot::field_at(row.1) == (row.0, 0)
        && Slot::field_at(row.2) == (row.0, row.2 - row.1)
}

#[test]
fn a_slot_is_a_row_of_fields(rt: HostRuntime) {
    for row in &FIELDS {
        assert!(rt; is_field(row));
    }
}

fn fetched(pc: u32) -> Slot {
    Slot {
        valid: true,
        fault: false,
        pc: pc % 1024,
        word: 19,
    }
}

fn is_fetched(slot: &Slot, pc: u32) -> bool {
    slot.valid && !slot.fault && slot.pc == pc && slot.word == 19
}

fn has_fetched(slot: Option<Slot>, pc: u32) -> bool {
    match slot {
        Some(slot) => is_fetched(&slot, pc),
        None => false,
    }
}

#[test]
fn instructions_leave_in_order(rt: HostRuntime) {
    let mut buffer = InstBuf::new();
    assert!(rt; buffer.head().is_none() && buffer.take().is_none());
    for pc in 7..11 {
        let slot = fetched(pc);
        assert!(rt; buffer.len() < 4);
        assert!(rt; slot.valid);
        buffer.push(slot);
    }
    assert!(rt; buffer.len() == 4);
    // a strike on the valid bit of slot 1 takes the instruction at 8 out
    buffer.flip(64);
    assert!(rt; buffer.len() == 3);
    assert!(rt; has_fetched(buffer.head(), 7));
    assert!(rt; has_fetched(buffer.take(), 7));
    assert!(rt; is_fetched(&buffer.slot(0), 9));
    buffer.ripple();
    assert!(rt; is_fetched(&buffer.slot(1), 10) && buffer.slot(2).word == 0);
    buffer.clear();
    assert!(rt; buffer.len() == 0 && buffer.bits() == 256);
    buffer.fits();
}
