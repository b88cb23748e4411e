// The counts of the cache's data, byte by byte: of the bits of each byte from one cycle in which a class may change to the next.
ghost use Rattle.std.specs.Prelude.{◌≤◌, ◌<◌, ◌+◌, ◌*◌, ◌^◌, ℕ, slice_index};
ghost use Rattle.bit_field.specs.Shapes.{bits_in};
ghost use Rattle.bit_field.specs.declared.places.Structure.TheVariants as structure;
ghost use Rattle.ace_count.specs.RunCounts.{HasClass, IsRowOf};
ghost use Rattle.ace_rules.specs.Tallies.{ArePairsAdded};

use ace_class::CLASSES;
use ace_rules::Analysis;
use bit_field::{Structure, bits_in};

/// Adds to a row how many pairs of a data bit of a byte of the cache and a cycle have each class.
fn add_byte(a: &Analysis<'_>, byte: u32, row: &mut [u64; CLASSES])
    requires byte { 8 * byte + 8 ≤ bits_in structure.CData a.now.r.shape }
    requires room { (n : ℕ) → slice_index row.old n + 8 * a.now.r.cycles < 2 ^ 64 }
    ensures { ArePairsAdded (λ k. HasClass a.now structure.CData (8 * byte + k)) 8 a.now.r.cycles row.old row.new }
{
    let cycles = a.recorded().cycles();
    let mut cycle = 0;
    while cycle < cycles {
        cycle = a.add_byte(byte, cycle, row);
    }
}

/// The counts of the cache's data.
pub(crate) fn tally_by_bytes(a: &Analysis<'_>) -> [u64; CLASSES]
    ensures { IsRowOf a.now structure.CData result }
{
    a.recorded().is_record();
    let shape = a.recorded().shape();
    let mut row = [0; CLASSES];
    for byte in 0..bits_in(Structure::CData, &shape) / 8 {
        add_byte(a, byte, &mut row);
    }
    row
}
