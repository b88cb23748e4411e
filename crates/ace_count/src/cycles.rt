// The counts of one structure by cycles, where its bits change in many: of all its bits from one cycle with another note to the next.
ghost use Rattle.ace_count.specs.RunCounts.{IsRowOf};

use ace_class::CLASSES;
use ace_rules::Analysis;
use bit_field::Structure;

/// The counts of one structure.
pub(crate) fn tally_by_cycles(a: &Analysis<'_>, structure: Structure) -> [u64; CLASSES]
    ensures { IsRowOf a.now structure result }
{
    a.recorded().is_record();
    let cycles = a.recorded().cycles();
    let mut row = [0; CLASSES];
    let mut cycle = 0;
    while cycle < cycles {
        cycle = a.add_cycles(structure, cycle, &mut row);
    }
    row
}
