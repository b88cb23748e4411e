// The best set of structures.
ghost use Rattle.std.specs.Prelude.{◌≡◌, ◌↔◌, ◌<◌, ◌^◌, IsTrue, filter, sum_by};
ghost use Rattle.bit_field.specs.declared.places.Structure.{Structure};
ghost use Rattle.ace_class.specs.Counts.{ace_of, bits_of, place_of};
ghost use Rattle.harden_plan.specs.Plans.{IsBestBelow, IsPlan, better_of, covered, is_member};

use ace_class::{Counts, STRUCTURES};
use bit_field::{Structure, bit_at};

/// The number of sets of structures. A set is told by its number, below this one: bit k of it is 1 where the structure at place k,
/// from 0 on, of `STRUCTURES` is a member.
pub const SETS: u32 = 65_536;

/// A set of structures to protect.
#[derive(Clone, Copy)]
pub struct Plan {
    /// The number of the set.
    pub set: u32,
    /// The bits of its members.
    pub bits: u32,
    /// How many pairs of a bit of its members and a cycle are ACE.
    pub ace: u64,
}

fn place(s: Structure) -> u32
    ensures value { result ≡ place_of s }
    ensures within { result < 16 }
{
    s as u32
}

/// Whether a structure is a member of a set.
pub fn is_member(set: u32, s: Structure) -> bool
    ensures { result ≡ is_member set s }
{
    bit_at(set, place(s))
}

fn bits_over(counts: &Counts, set: u32, structures: &[Structure]) -> u32
    requires { sum_by (bits_of counts.now) (filter (is_member set) structures.now) < 2 ^ 32 }
    ensures { result ≡ sum_by (bits_of counts.now) (filter (is_member set) structures.now) }
{
    structures
        .iter()
        .filter(|s| is_member(set, **s))
        .map(|s| counts.bits(*s))
        .sum()
}

fn ace_over(counts: &Counts, set: u32, structures: &[Structure]) -> u64
    requires { sum_by (ace_of counts.now) (filter (is_member set) structures.now) < 2 ^ 64 }
    ensures { result ≡ sum_by (ace_of counts.now) (filter (is_member set) structures.now) }
{
    structures
        .iter()
        .filter(|s| is_member(set, **s))
        .map(|s| counts.ace(*s))
        .sum()
}

/// The set of this number with its bits and its ACE pairs.
#[tactic(auto, using(crate::proofs::Sizes::bits_fit, crate::proofs::Sizes::ace_fits))]
fn plan_of(counts: &Counts, set: u32) -> Plan
    ensures { result ≡ covered counts.now set }
{
    counts.is_counted();
    Plan {
        set,
        bits: bits_over(counts, set, &STRUCTURES),
        ace: ace_over(counts, set, &STRUCTURES),
    }
}

/// The better of the best plan so far and the plan of a set of greater number.
fn better(best: Plan, next: Plan, bits: u32) -> Plan
    ensures { result ≡ better_of bits best next }
{
    if next.bits <= bits && best.ace < next.ace {
        next
    } else {
        best
    }
}

/// The best set of structures of at most `bits` bits: no other such set has more ACE pairs, and none of lesser number has as many. It
/// takes no memory.
pub fn best(counts: &Counts, bits: u32) -> Plan
    ensures { IsPlan counts.now bits result }
{
    let mut best = plan_of(counts, 0);
    for set in 1..SETS {
        best = better(best, plan_of(counts, set), bits);
    }
    best
}
