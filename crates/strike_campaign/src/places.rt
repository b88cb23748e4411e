// All bits of a machine in a row: those of its structures one after another, in the order of a report.
ghost use Rattle.std.specs.Prelude.{◌≡◌, ◌<◌, ◌≤◌, ◌^◌, sum_by};
ghost use Rattle.bit_field.specs.Shapes.{IsPlaceIn, IsShape};
ghost use Rattle.ace_class.specs.Counts.{structures as report_order};
ghost use Rattle.strike_campaign.specs.Places.{IsPlaceAt, all_bits, width_in};

use ace_class::STRUCTURES;
use bit_field::{Place, Shape, Structure, bits_in};

fn bits_over(shape: &Shape, structures: &[Structure]) -> u32
    requires shape { IsShape shape.now }
    requires fits { sum_by (width_in shape.now) structures.now < 2 ^ 32 }
    ensures { result ≡ sum_by (width_in shape.now) structures.now }
{
    structures.iter().map(|s| bits_in(*s, shape)).sum()
}

/// The bits of all structures of a machine of this shape together.
#[tactic(auto, using(crate::proofs::Indices::all_bits_fit, crate::proofs::Indices::all_bits_sum, crate::proofs::Indices::some_bits))]
pub fn all_bits(shape: &Shape) -> u32
    requires { IsShape shape.now }
    ensures value { result ≡ all_bits shape.now }
    ensures some { 0 < result }
{
    bits_over(shape, &STRUCTURES)
}

fn place_in(shape: &Shape, structures: &[Structure], index: u32) -> Place
    requires shape { IsShape shape.now }
    requires order { structures.now ≡ report_order }
    requires index { index < all_bits shape.now }
    ensures { IsPlaceAt shape.now index result }
{
    let mut bit = index;
    for s in structures {
        let bits = bits_in(*s, shape);
        if bit < bits {
            return Place { structure: *s, bit };
        }
        bit -= bits;
    }
    unreachable!()
}

/// The place of the bit at an index, from 0 on, in the row of all bits of a machine of this shape.
#[tactic(auto, using(crate::proofs::Indices::inside))]
pub fn place_at(shape: &Shape, index: u32) -> Place
    requires shape { IsShape shape.now }
    requires index { index < all_bits shape.now }
    ensures at { IsPlaceAt shape.now index result }
    ensures inside { IsPlaceIn shape.now result }
{
    place_in(shape, &STRUCTURES, index)
}
