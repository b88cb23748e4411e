// The counts of a run.

ghost use Rattle.std.specs.Prelude.{◌≡◌, ◌≤◌, ◌<◌, ◌*◌, ◌^◌};
ghost use Rattle.ace_class.specs.Classes.{rules};
ghost use Rattle.ace_class.specs.Counts.{parts, place_of, structures};

use crate::class::{CLASSES, Class, RULES, Rule};
use bit_field::{Shape, Structure, bits_in};
use std::marker::Model;

/// The cycles of the longest run that is counted.
pub const MOST_CYCLES: u32 = 1_000_000;

/// What a whole counts as, where a part of it is given in parts per million.
pub const MILLION: u64 = 1_000_000;

/// The structures of the machine, in the order of a report.
pub const STRUCTURES: [Structure; 16] = [
    Structure::Pc,
    Structure::Npc,
    Structure::Bht,
    Structure::Btb,
    Structure::Ib,
    Structure::IdEx,
    Structure::ExMem,
    Structure::MemWb,
    Structure::Rf,
    Structure::Sb,
    Structure::Port,
    Structure::CData,
    Structure::CTag,
    Structure::CValid,
    Structure::CDirty,
    Structure::CLru,
];

/// Changes nothing; says that the structures and the rules stand in the order of a report.
pub fn order_law()
    ensures structures { STRUCTURES ≡ structures }
    ensures rules { RULES ≡ rules }
{}

/// For each structure, how many pairs of one of its bits and a cycle of the run have each class (the counts behind an
/// architectural vulnerability factor; Mukherjee et al., MICRO 2003). Each pair has one class, so the counts of a structure
/// add up to its bits times the cycles.
#[derive(Drop)]
pub struct Counts {
    shape: Shape,
    cycles: u32,
    rows: [[u64; CLASSES]; 16],
}

impl Model for Counts {
    ghost use Rattle.ace_class.specs.Counts.{Counted, IsCounted};

    ghost Value = { Counted };

    ghost view = { λ c. record { shape = c.shape; cycles = c.cycles; rows = c.rows } };

    ghost invariant = { λ c. IsCounted (record { shape = c.shape; cycles = c.cycles; rows = c.rows }) };
}

fn place(s: Structure) -> usize
    ensures { result ≡ place_of s }
{
    s as usize
}

/// Parts per million, rounded down, and 0 of nothing.
fn parts_per_million(part: u64, whole: u64) -> u32
    requires part { part ≤ whole }
    requires fits { whole * MILLION < 2 ^ 64 }
    ensures { result ≡ parts part whole }
{
    match whole {
        0 => 0,
        _ => (part * MILLION / whole) as u32,
    }
}

impl Counts {
    ghost use Rattle.std.specs.Prelude.{◌≡◌, sum_by};
    ghost use Rattle.bit_field.specs.declared.shapes.Shape.{Shape};
    ghost use Rattle.ace_class.specs.Counts.{Counted, IsCounted, ace_of, bits_of, count_of, pairs_of, ppm_of, total_bits, total_of, total_ppm};

    /// The counts of a run of `cycles` cycles, 1 to `MOST_CYCLES`, on a machine of that shape. The rows stand in the order of
    /// `STRUCTURES`; a row has the number of pairs of each class in the order of `Class::number`.
    pub fn new(shape: Shape, cycles: u32, rows: [[u64; CLASSES]; 16]) -> Counts
        requires { IsCounted (let counted : Counted = record { shape = shape; cycles = cycles; rows = rows } in counted) }
        ensures { result ≡ record { shape = shape; cycles = cycles; rows = rows } }
    {
        Counts {
            shape,
            cycles,
            rows,
        }
    }

    /// The shape of the machine that ran.
    pub fn shape(&self) -> Shape
        ensures { result ≡ self.now.shape }
    {
        self.shape
    }

    /// The cycles of the run, 1 to `MOST_CYCLES`.
    pub fn cycles(&self) -> u32
        ensures { result ≡ self.now.cycles }
    {
        self.cycles
    }

    /// Changes nothing; says that each pair of a bit and a cycle is counted in one class.
    pub fn is_counted(&self)
        ensures { IsCounted self.now }
    {
        let _cycles = self.cycles;
    }

    /// The bits of a structure.
    pub fn bits(&self, s: Structure) -> u32
        ensures value { result ≡ bits_of self.now s }
        ensures most { result ≤ 65536 }
    {
        bits_in(s, &self.shape)
    }

    // The pairs of a bit of a structure and a cycle.
    fn pairs(&self, s: Structure) -> u64
        ensures value { result ≡ pairs_of self.now s }
        ensures fits { result * MILLION < 2 ^ 64 }
    {
        u64::from(self.bits(s)) * u64::from(self.cycles)
    }

    // How many of these pairs have the class.
    #[tactic(auto, using(crate::proofs::Sizes::count_most))]
    fn count(&self, s: Structure, class: &Class) -> u64
        ensures value { result ≡ count_of self.now s class.now }
        ensures most { result ≤ pairs_of self.now s }
    {
        self.rows[place(s)][usize::from(class.number())]
    }

    /// How many pairs of a bit of the structure and a cycle are ACE.
    pub fn ace(&self, s: Structure) -> u64
        ensures value { result ≡ ace_of self.now s }
        ensures most { result ≤ pairs_of self.now s }
    {
        self.count(s, &Class::Ace)
    }

    /// How many pairs of a bit of the structure and a cycle are un-ACE by this rule.
    pub fn rule(&self, s: Structure, rule: &Rule) -> u64
        ensures value { result ≡ count_of self.now s (Class.UnAce rule.now) }
        ensures most { result ≤ pairs_of self.now s }
    {
        self.count(s, &Class::UnAce(*rule))
    }

    /// The ACE pairs among all pairs of the structure, in parts per million, rounded down; 0 where it has no bits.
    pub fn ppm(&self, s: Structure) -> u32
        ensures { result ≡ ppm_of self.now s }
    {
        parts_per_million(self.ace(s), self.pairs(s))
    }

    fn bits_over(&self, structures: &[Structure]) -> u32
        requires { sum_by (bits_of self.now) structures.now < 2 ^ 32 }
        ensures { result ≡ sum_by (bits_of self.now) structures.now }
    {
        structures.iter().map(|s| self.bits(*s)).sum()
    }

    fn count_over(&self, structures: &[Structure], class: &Class) -> u64
        requires { sum_by (λ s. count_of self.now s class.now) structures.now < 2 ^ 64 }
        ensures { result ≡ sum_by (λ s. count_of self.now s class.now) structures.now }
    {
        structures.iter().map(|s| self.count(*s, class)).sum()
    }

    /// The bits of all structures together.
    #[tactic(auto, using(crate::proofs::Sizes::total_bits_most, crate::proofs::Sizes::total_bits_fits))]
    pub fn total_bits(&self) -> u32
        ensures value { result ≡ total_bits self.now }
        ensures most { result ≤ 1048576 }
    {
        let _cycles = self.cycles;
        self.bits_over(&STRUCTURES)
    }

    #[tactic(auto, using(crate::proofs::Sizes::total_pairs_most))]
    fn total_pairs(&self) -> u64
        ensures value { result ≡ total_bits self.now * self.now.cycles }
        ensures fits { result * MILLION < 2 ^ 64 }
    {
        let _cycles = self.cycles;
        u64::from(self.total_bits()) * u64::from(self.cycles)
    }

    #[tactic(auto, using(crate::proofs::Sizes::total_most, crate::proofs::Sizes::total_fits))]
    fn total(&self, class: &Class) -> u64
        ensures value { result ≡ total_of self.now class.now }
        ensures most { result ≤ total_bits self.now * self.now.cycles }
    {
        let _cycles = self.cycles;
        self.count_over(&STRUCTURES, class)
    }

    /// The ACE pairs of all structures together.
    pub fn total_ace(&self) -> u64
        ensures value { result ≡ total_of self.now Class.Ace }
        ensures most { result ≤ total_bits self.now * self.now.cycles }
    {
        self.total(&Class::Ace)
    }

    /// The pairs of all structures together that are un-ACE by this rule.
    pub fn total_rule(&self, rule: &Rule) -> u64
        ensures value { result ≡ total_of self.now (Class.UnAce rule.now) }
        ensures most { result ≤ total_bits self.now * self.now.cycles }
    {
        self.total(&Class::UnAce(*rule))
    }

    /// The ACE pairs among all pairs, in parts per million, rounded down.
    pub fn total_ppm(&self) -> u32
        ensures { result ≡ total_ppm self.now }
    {
        parts_per_million(self.total_ace(), self.total_pairs())
    }
}
