// The counts of a recorded run.
ghost use Rattle.std.specs.Prelude.{◌≡◌, length};
ghost use Rattle.ace_class.specs.Counts.{structures};
ghost use Rattle.ace_count.specs.RunCounts.{AreCounts, IsRowOf};

use crate::bytes::tally_by_bytes;
use crate::cycles::tally_by_cycles;
use crate::intervals::tally_by_intervals;
use ace_class::{CLASSES, Counts, STRUCTURES, order_law};
use ace_rules::Analysis;
use bit_field::Structure;

/// The counts of one structure: how many pairs of one of its bits and a cycle have each class, by the class's number.
fn tally(a: &Analysis<'_>, structure: Structure) -> [u64; CLASSES]
    ensures { IsRowOf a.now structure result }
{
    match structure {
        Structure::Ib
        | Structure::IdEx
        | Structure::ExMem
        | Structure::MemWb
        | Structure::Rf
        | Structure::Sb => tally_by_cycles(a, structure),
        Structure::CData => tally_by_bytes(a),
        _ => tally_by_intervals(a, structure),
    }
}

/// A row for each structure, nothing counted yet.
fn no_counts() -> [[u64; CLASSES]; STRUCTURES.len()]
    ensures { length result ≡ length structures }
{
    [[0; CLASSES]; STRUCTURES.len()]
}

/// How many pairs of a bit of the machine and a cycle of the run have each class, by structures. It takes no memory.
pub fn count(a: &Analysis<'_>) -> Counts
    ensures { AreCounts a.now result }
{
    order_law();
    a.recorded().is_record();
    let mut rows = no_counts();
    for (place, structure) in STRUCTURES.iter().enumerate() {
        rows[place] = tally(a, *structure);
    }
    Counts::new(a.recorded().shape(), a.recorded().cycles(), rows)
}
