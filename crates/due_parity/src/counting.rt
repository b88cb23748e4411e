// The pairs of a bit and a cycle by what becomes of a flip.
ghost use Rattle.std.specs.Prelude.{◌≡◌, ◌+◌, ◌*◌, ◌<◌, ◌≤◌, ◌-◌, ◌^◌};
ghost use Rattle.bit_field.specs.Shapes as shapes;
ghost use Rattle.bit_field.specs.Shapes.{IsPlaceIn, IsShape};
ghost use Rattle.ace_rules.specs.AceGroups.{AreAces};
ghost use Rattle.due_parity.specs.Due.{IsDue, place};
ghost use Rattle.due_parity.specs.Notes.{IsTable, group_count, group_touch_at, noted_below};
ghost use Rattle.due_parity.specs.Stretches as stretches;
ghost use Rattle.due_parity.specs.Stretches.{AreGroupDetected, CountsGroup, HasAcePairs};
ghost use Rattle.due_parity.specs.Touches.{IsProtected};

use crate::table::FateTable;
use crate::watched::Watched;
use ace_rules::{Aces, Analysis};
use bit_field::{Place, Shape, Structure};
use cyc_machine::REGISTERS;
use event_log::slot_count;

/// Of the pairs of a bit and a cycle, how many flips are detected and ACE, how many are detected and un-ACE, and how many are quiet.
#[derive(Clone, Copy, Debug, PartialEq, Eq)]
pub struct DueCounts {
    pub true_due: u64,
    pub false_due: u64,
    pub quiet: u64,
}

fn no_pairs() -> DueCounts
    ensures { result ≡ stretches.no_pairs }
{
    DueCounts {
        true_due: 0,
        false_due: 0,
        quiet: 0,
    }
}

/// The counts of two parts together.
fn plus(a: DueCounts, b: DueCounts) -> DueCounts
    requires { stretches.all_of a + stretches.all_of b < 2 ^ 64 }
    ensures { result ≡ stretches.plus a b }
{
    DueCounts {
        true_due: a.true_due + b.true_due,
        false_due: a.false_due + b.false_due,
        quiet: a.quiet + b.quiet,
    }
}

/// How many bits share a parity bit: those of a register, or those of a byte.
fn width(s: Structure) -> u32
    ensures { result ≡ stretches.width s }
{
    match s {
        Structure::Rf => 32,
        _ => 8,
    }
}

/// How many groups of bits with a parity bit a structure has.
fn group_count(s: Structure, shape: &Shape) -> u32
    requires shape { IsShape shape.now }
    requires protected { IsProtected s }
    ensures { result ≡ group_count s shape.now }
{
    match s {
        Structure::Rf => REGISTERS as u32,
        _ => 16 * slot_count(shape),
    }
}

/// The first bit of a group.
fn first_bit(s: Structure, group: u32, shape: &Shape) -> Place
    requires shape { IsShape shape.now }
    requires protected { IsProtected s }
    requires group { group < group_count s shape.now }
    ensures bit { result ≡ place s (stretches.width s * group) }
    ensures within { IsPlaceIn shape.now result }
{
    let _groups = group_count(s, shape);
    Place {
        structure: s,
        bit: width(s) * group,
    }
}

/// How many bits of a group are ACE in a cycle.
fn aces_of(a: &Analysis<'_>, s: Structure, group: u32, cycle: u32) -> Aces
    requires protected { IsProtected s }
    requires group { group < group_count s a.now.r.shape }
    requires cycle { cycle < a.now.r.cycles }
    ensures aces { AreAces a.now s (stretches.width s * group) (stretches.width s) cycle result }
    ensures after { cycle < result.until }
{
    match s {
        Structure::Rf => a.register_aces(group, cycle),
        _ => a.byte_aces(group, cycle),
    }
}

/// How many pairs of a bit of a group and a cycle from `from` up to before `until` are ACE.
fn ace_pairs(a: &Analysis<'_>, s: Structure, group: u32, from: u32, until: u32) -> u64
    requires protected { IsProtected s }
    requires group { group < group_count s a.now.r.shape }
    requires order { from ≤ until }
    requires within { until ≤ a.now.r.cycles }
    ensures count { HasAcePairs a.now s group from until result }
    ensures most { result ≤ stretches.width s * (until - from) }
{
    let mut pairs = 0;
    let mut t = from;
    while t < until {
        let aces = aces_of(a, s, group, t);
        let next = aces.until.min(until);
        pairs += u64::from(aces.bits) * u64::from(next - t);
        t = next;
    }
    pairs
}

/// The counts of a group in the cycles from `from` up to before `until`, where all flips in them are detected or none is.
fn stretch(
    a: &Analysis<'_>,
    s: Structure,
    group: u32,
    detected: bool,
    from: u32,
    until: u32,
) -> DueCounts
    requires protected { IsProtected s }
    requires group { group < group_count s a.now.r.shape }
    requires order { from ≤ until }
    requires within { until ≤ a.now.r.cycles }
    requires fates { AreGroupDetected a.now s group from until detected }
    ensures { CountsGroup a.now s group from until result }
{
    let all = u64::from(width(s)) * u64::from(until - from);
    if detected {
        let ace = ace_pairs(a, s, group, from, until);
        DueCounts {
            true_due: ace,
            false_due: all - ace,
            quiet: 0,
        }
    } else {
        DueCounts {
            true_due: 0,
            false_due: 0,
            quiet: all,
        }
    }
}

/// The counts of a group in all cycles, by the touches of the group.
fn group_counts(a: &Analysis<'_>, row: &Watched, s: Structure, group: u32) -> DueCounts
    requires protected { IsProtected s }
    requires group { group < group_count s a.now.r.shape }
    requires row { row.now ≡ noted_below (group_touch_at a.now.r.image a.now.r.shape s group) a.now.r.cycles }
    requires short { a.now.r.cycles ≤ 2 ^ 31 }
    ensures { CountsGroup a.now s group 0 a.now.r.cycles result }
{
    let mut counts = no_pairs();
    let mut from = 0;
    for note in row.notes() {
        let until = note.cycle + 1;
        counts = plus(counts, stretch(a, s, group, note.reads, from, until));
        from = until;
    }
    plus(
        counts,
        stretch(a, s, group, false, from, a.recorded().cycles()),
    )
}

/// The counts of a structure with parity over all its bits and all cycles of a run, by the table of the run: of the detected flips those
/// that are ACE and those that are un-ACE, and the flips that are quiet. The three add up to all pairs. It takes no memory.
pub fn due(a: &Analysis<'_>, table: &FateTable, s: Structure) -> DueCounts
    requires table { IsTable a.now.r table.now }
    requires protected { IsProtected s }
    ensures counts { IsDue a.now s result }
    ensures all { result.true_due + result.false_due + result.quiet ≡ shapes.bits_in s a.now.r.shape * a.now.r.cycles }
{
    let recorded = a.recorded();
    recorded.is_record();
    let shape = recorded.shape();
    let mut counts = no_pairs();
    for group in 0..group_count(s, &shape) {
        let row = table.row(&first_bit(s, group, &shape));
        counts = plus(counts, group_counts(a, row, s, group));
    }
    counts
}
