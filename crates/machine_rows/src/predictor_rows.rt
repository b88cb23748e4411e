//! The bit numbers of the predictor's two tables, and predictions.
use crate::one_bit::field_of_bit;
use bit_field::{Place, Struck, Structure};
use predictor::{BranchTarget, BranchTargetField, ENTRY_BITS, History, Predictor, Targets};

/// Whether the counter of bit `k` is 1 but for that bit, and the counter behind it is 1.
fn is_other_counter(history: &History, k: u32) -> bool {
    history.counter(k / 2) == (if k % 2 == 0 { 0 } else { 3 })
        && history.counter((k / 2).wrapping_add(1)) == 1
}

#[test]
fn each_bit_is_in_its_counter(rt: HostRuntime) {
    for k in 0..128u32 {
        let mut history = History::new();
        history.flip(k);
        assert!(rt; is_other_counter(&history, k));
    }
}

/// Whether bit `k` of the entry alone is 1: valid 0, tag 1 to 26, target 27 to 56.
fn is_bit(entry: &BranchTarget, k: u32) -> bool {
    entry.valid == (k == 0)
        && entry.tag == field_of_bit(k, 1, 26)
        && entry.target == field_of_bit(k, 27, 56)
}

/// Whether bit `k` of the targets is alone in its entry, and the entry behind it is empty.
fn is_bit_of_targets(targets: &Targets, k: u32) -> bool {
    is_bit(&targets.entry(k / 57), k % 57) && is_bit(&targets.entry((k / 57).wrapping_add(1)), 57)
}

#[test]
fn each_bit_is_in_its_field(rt: HostRuntime) {
    for k in 0..912u32 {
        let mut targets = Targets::new();
        targets.flip(k);
        assert!(rt; targets.bit(k) && is_bit_of_targets(&targets, k));
    }
}

/// A field of an entry, and its first and its last bit.
struct Row(BranchTargetField, u32, u32);

static FIELDS: [Row; 3] = [
    Row(BranchTargetField::Valid, 0, 0),
    Row(BranchTargetField::Tag, 1, 26),
    Row(BranchTargetField::Target, 27, 56),
];

fn is_field(row: &Row) -> bool {
    row.1 <= row.2
        && row.2 < ENTRY_BITS
        && BranchTarget::field_at(row.1) == (row.0, 0)
        && BranchTarget::field_at(row.2) == (row.0, row.2 - row.1)
}

#[test]
fn an_entry_is_a_row_of_fields(rt: HostRuntime) {
    for row in &FIELDS {
        assert!(rt; is_field(row));
    }
}

#[test]
fn a_branch_is_learnt(rt: HostRuntime) {
    let mut predictor = Predictor::new();
    assert!(rt; predictor.next(5) == 6 && predictor.next((1 << 30) - 1) == 0);
    // its counter goes from 1 to 2
    predictor.learn(5, true, 100);
    // another branch of the same entry is told by its tag
    assert!(rt; predictor.next(5) == 100 && predictor.next(21) == 22);
    // to 3, and stays there
    predictor.learn(5, true, 100);
    predictor.learn(5, true, 200);
    predictor.learn(5, false, 300);
    assert!(rt; predictor.next(5) == 200);
    predictor.learn(5, false, 300);
    assert!(rt; predictor.next(5) == 6);
}

#[test]
fn a_place_is_struck(rt: HostRuntime) {
    let mut predictor = Predictor::new();
    predictor.learn(5, true, 100);
    // bit 2 of the target of entry 5: 100 has it
    let place = Place {
        structure: Structure::Btb,
        bit: 57 * 5 + 27 + 2,
    };
    assert!(rt; predictor.bit(&place));
    predictor.flip(&place);
    assert!(rt; !predictor.bit(&place) && predictor.next(5) == 96);
    // the high bit of counter 5
    let counter = Place {
        structure: Structure::Bht,
        bit: 11,
    };
    predictor.flip(&counter);
    assert!(rt; predictor.next(5) == 6);
    predictor.fits();
}
