// A line of a map, and the order of lines.
ghost use Rattle.std.specs.Prelude.{◌≡◌, MatchOption, Some, option_map};
ghost use Rattle.std.specs.Option.{option_copied};
ghost use Rattle.class_map.specs.Lines as lines;

use bit_field::{Place, Structure};

/// That a bit is un-ACE in the cycles from `from` up to before `to`, by the rule of the number `rule`, 1 to 13.
#[derive(Clone, Copy)]
pub struct MapLine {
    pub place: Place,
    pub from: u32,
    pub to: u32,
    pub rule: u8,
}

// A structure's place in the order of a report, from 0 on.
pub(crate) fn order_of(structure: Structure) -> u8
    ensures { result ≡ lines.order_of structure }
{
    structure as u8
}

/// Whether a line comes after an earlier one: by structure, then by bit, then by cycle.
pub(crate) fn comes_after(earlier: &MapLine, line: &MapLine) -> bool
    ensures { result ≡ lines.comes_after earlier.now line.now }
{
    let (a, b) = (
        order_of(earlier.place.structure),
        order_of(line.place.structure),
    );
    if a != b {
        return a < b;
    }
    if earlier.place.bit != line.place.bit {
        return earlier.place.bit < line.place.bit;
    }
    earlier.to <= line.from
}

/// The same, where there may be no earlier line.
pub(crate) fn follows(before: &Option<MapLine>, line: &MapLine) -> bool
    ensures { result ≡ lines.follows before.now line.now }
{
    match before {
        None => true,
        Some(earlier) => comes_after(earlier, line),
    }
}
