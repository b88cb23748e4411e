// Rows of strike_campaign: where some bits of the plain machine stand in the row of all of them, counted by hand, and that a campaign's
// text comes with ample memory.
ghost use Rattle.bit_field.specs.Shapes.{IsShape};

use bit_field::{Place, Shape, Structure, plain_shape};
use std::test::Fail;
use strike_campaign::{Cells, all_bits, campaign_text, place_at};

/// A number in the row of all bits, and the bit that stands there.
struct Row(u32, Structure, u32);

static ROWS: [Row; 9] = [
    Row(0, Structure::Pc, 0),
    Row(29, Structure::Pc, 29),
    Row(30, Structure::Npc, 0),
    Row(1100, Structure::Ib, 0),
    Row(1356, Structure::IdEx, 0),
    Row(1625, Structure::Rf, 0),
    Row(2887, Structure::CData, 0),
    Row(11079, Structure::CTag, 0),
    Row(12710, Structure::CLru, 31),
];

fn is_so(shape: &Shape, row: &Row) -> bool
    requires { IsShape shape.now }
{
    let Row(index, structure, bit) = row;
    let place = Place {
        structure: *structure,
        bit: *bit,
    };
    *index < all_bits(shape) && place_at(shape, *index) == place
}

#[test]
fn places_in_a_row(rt: HostRuntime) {
    let shape = plain_shape();
    for row in &ROWS {
        assert!(rt; is_so(&shape, row));
    }
}

static CELLS: Cells = Cells {
    unace_same: 5,
    unace_differs: 0,
    unace_noend: 0,
    ace_same: 3,
    ace_differs: 1,
    ace_noend: 2,
};

static IN_WORDS: &str = "\
strikes 11\n\
unace-same 5\n\
unace-differs 0\n\
unace-noend 0\n\
ace-same 3\n\
ace-differs 1\n\
ace-noend 2\n\
";

#[test]
fn a_campaign_in_words(rt: HostRuntime) -> Result<(), Fail> {
    assert!(rt; campaign_text(rt.alloc(), 11, &CELLS)?.as_str() == IN_WORDS);
    Ok(())
}
