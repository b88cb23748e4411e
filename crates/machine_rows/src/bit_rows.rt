//! The names and the bits of the structures, as tables of the structures in docs/MACHINE.md; one bit of a number; fields and lanes.
use bit_field::{
    Field, Shape, Structure, bit_at, bits_in, bits_of, bytes_fit, field_at, flip_at_u8,
    flip_at_u32, has_lane, is_shape, lane_byte, plain_shape, structure_name, structure_named,
    tag_bits, words_fit,
};

/// The name of a structure, its bits in the plain shape, and its bits with 16 sets of one way.
struct Row(&'static str, Structure, u32, u32);

static LAYOUT: [Row; 16] = [
    Row("pc", Structure::Pc, 30, 30),
    Row("npc", Structure::Npc, 30, 30),
    Row("bht", Structure::Bht, 128, 128),
    Row("btb", Structure::Btb, 912, 912),
    Row("ib", Structure::Ib, 256, 256),
    Row("idex", Structure::IdEx, 153, 153),
    Row("exmem", Structure::ExMem, 79, 79),
    Row("memwb", Structure::MemWb, 37, 37),
    Row("rf", Structure::Rf, 992, 992),
    Row("sb", Structure::Sb, 264, 264),
    Row("port", Structure::Port, 6, 6),
    Row("cdata", Structure::CData, 8192, 2048),
    Row("ctag", Structure::CTag, 1472, 384),
    Row("cvalid", Structure::CValid, 64, 16),
    Row("cdirty", Structure::CDirty, 64, 16),
    Row("clru", Structure::CLru, 32, 0),
];

/// Whether a shape is one, and a structure has so many bits in it.
fn has_bits(structure: Structure, shape: &Shape, bits: u32) -> bool {
    is_shape(shape) && bits_in(structure, shape) == bits
}

fn is_laid_out(row: &Row) -> bool {
    let small = Shape {
        mib: 1,
        sets: 16,
        ways: 1,
    };
    structure_named(row.0) == Some(row.1)
        && structure_name(row.1) == row.0
        && bits_of(row.1) == row.2
        && has_bits(row.1, &plain_shape(), row.2)
        && has_bits(row.1, &small, row.3)
}

#[test]
fn structures_have_names_and_bits(rt: HostRuntime) {
    let mut plain_sum: u32 = 0;
    let mut small_sum: u32 = 0;
    for row in &LAYOUT {
        assert!(rt; is_laid_out(row));
        plain_sum = plain_sum.wrapping_add(row.2);
        small_sum = small_sum.wrapping_add(row.3);
    }
    assert!(rt; plain_sum == 12711);
    assert!(rt; small_sum == 5351);
}

fn is_no_name(name: &str) -> bool {
    structure_named(name).is_none()
}

#[test]
fn other_names_are_refused(rt: HostRuntime) {
    assert!(rt;
        is_no_name("")
            && is_no_name("PC")
            && is_no_name("pc ")
            && is_no_name("idex2")
            && is_no_name("cache")
    );
}

fn can_be(mib: u8, sets: u16, ways: u8) -> bool {
    is_shape(&Shape { mib, sets, ways })
}

#[test]
fn shapes_are_told_from_others(rt: HostRuntime) {
    assert!(rt; can_be(1, 32, 2) && can_be(16, 128, 4));
    assert!(rt; !can_be(0, 32, 2) && !can_be(17, 32, 2) && !can_be(1, 48, 2) && !can_be(1, 32, 3));
    let plain = plain_shape();
    assert!(rt; is_shape(&plain));
    assert!(rt; tag_bits(&plain) == 23);
}

#[test]
fn one_bit_is_flipped(rt: HostRuntime) {
    let mut word = 0b1010;
    flip_at_u32(&mut word, 4, 1);
    assert!(rt; word == 0b1000);
    flip_at_u32(&mut word, 32, 31);
    assert!(rt; bit_at(word, 31) && !bit_at(word, 30));
    let mut byte = 1;
    flip_at_u8(&mut byte, 8, 7);
    assert!(rt; byte == 129);
    bytes_fit(&[byte]);
    words_fit(&[word]);
}

/// Three fields of 1, 30 and 4 bits.
#[derive(Clone, Copy, PartialEq, Eq)]
enum Part {
    Flag,
    Address,
    Mask,
}

impl Field for Part {
    ghost use Rattle.std.specs.Prelude.{ℕ};
    ghost use Rattle.machine_rows.specs.declared.bit_rows.Part.TheVariants.{Flag, Address, Mask};

    ghost width_of = { elim [ Flag ↦ 1 | Address ↦ 30 | Mask ↦ 4 ] };

    fn width(self) -> u32 {
        match self {
            Part::Flag => 1,
            Part::Address => 30,
            Part::Mask => 4,
        }
    }
}

/// A bit, its field, and its place in the field.
struct Located(u32, Part, u32);

static LOCATED: [Located; 5] = [
    Located(0, Part::Flag, 0),
    Located(1, Part::Address, 0),
    Located(30, Part::Address, 29),
    Located(31, Part::Mask, 0),
    Located(34, Part::Mask, 3),
];

#[test]
fn bits_have_fields(rt: HostRuntime) {
    let parts = [Part::Flag, Part::Address, Part::Mask];
    for row in &LOCATED {
        assert!(rt; row.0 < 35);
        assert!(rt; field_at(&parts, row.0) == (row.1, row.2));
    }
}

#[test]
fn lanes_are_bytes(rt: HostRuntime) {
    assert!(rt; has_lane(0b0100, 2) && !has_lane(0b0100, 1));
    assert!(rt; lane_byte(0x0403_0201, 0) == 1 && lane_byte(0x0403_0201, 3) == 4);
}
