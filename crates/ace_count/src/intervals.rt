// The counts of one structure by intervals: of each bit from one cycle in which its class may change to the next.
ghost use Rattle.std.specs.Prelude.{◌<◌, ◌+◌, ◌^◌, ℕ, slice_index};
ghost use Rattle.bit_field.specs.Shapes.{IsPlaceIn};
ghost use Rattle.ace_count.specs.RunCounts.{HasClass, IsRowOf};
ghost use Rattle.ace_rules.specs.Tallies.{IsAdded};

use ace_class::CLASSES;
use ace_rules::Analysis;
use bit_field::{Place, Structure, bits_in};

/// Adds to a row the cycles in which the bit at a place has each class.
fn add_bit(a: &Analysis<'_>, place: &Place, row: &mut [u64; CLASSES])
    requires place { IsPlaceIn a.now.r.shape place.now }
    requires room { (n : ℕ) → slice_index row.old n + a.now.r.cycles < 2 ^ 64 }
    ensures { IsAdded (HasClass a.now place.now.structure place.now.bit) a.now.r.cycles row.old row.new }
{
    let cycles = a.recorded().cycles();
    let mut cycle = 0;
    while cycle < cycles {
        let class = a.class_of(place, cycle);
        let until = a.idle_until(place, cycle);
        row[usize::from(class.number())] += u64::from(until - cycle);
        cycle = until;
    }
}

/// The counts of one structure.
pub(crate) fn tally_by_intervals(a: &Analysis<'_>, structure: Structure) -> [u64; CLASSES]
    ensures { IsRowOf a.now structure result }
{
    a.recorded().is_record();
    let shape = a.recorded().shape();
    let mut row = [0; CLASSES];
    for bit in 0..bits_in(structure, &shape) {
        add_bit(a, &Place { structure, bit }, &mut row);
    }
    row
}
