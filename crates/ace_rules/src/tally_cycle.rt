// How many bits of a structure have each class in a cycle.
ghost use Rattle.std.specs.Prelude.{◌≡◌, ◌+◌, ◌-◌, ◌*◌, ◌^◌, ◌<◌, ◌≤◌, ℕ, length, slice_index};
ghost use Rattle.bit_field.specs.Shapes.{bits_in};
ghost use Rattle.ace_rules.specs.Notes.{moment};
ghost use Rattle.ace_rules.specs.Tallies.{ArePairsAdded, HasClass, IsAdded};

use crate::analysis::Analysis;
use crate::classes::note_at;
use crate::note::Note;
use crate::still::still_until;
use crate::tally_decoded::add_decoded;
use crate::tally_fetched::add_fetched;
use crate::tally_latches::{add_executed, add_result};
use crate::tally_pending::add_pending;
use crate::tally_registers::add_registers;
use ace_class::CLASSES;
use bit_field::{Place, Structure, bits_in};

/// Adds a row, so many times, to another.
fn add_row(more: &[u64; CLASSES], times: u32, row: &mut [u64; CLASSES])
    requires { (n : ℕ) → slice_index row.old n + times * slice_index more.now n < 2 ^ 64 }
    ensures full { length row.new ≡ length row.old }
    ensures counts { (n : ℕ) → slice_index row.new n ≡ slice_index row.old n + times * slice_index more.now n }
{
    for class in 0..CLASSES {
        row[class] += u64::from(times) * more[class];
    }
}

impl Analysis<'_> {
    /// Adds to a row the bits of a structure in a stretch, one by one.
    fn add_stretch(
        &self,
        structure: Structure,
        cycle: u32,
        first: u32,
        count: u32,
        row: &mut [u64; CLASSES],
    )
        requires cycle { cycle < self.now.r.cycles }
        requires bits { first + count ≤ bits_in structure self.now.r.shape }
        requires small { first + count < 2 ^ 32 }
        requires room { (n : ℕ) → slice_index row.old n + count < 2 ^ 64 }
        ensures { IsAdded (λ k. HasClass (moment self.now cycle) structure (first + k)) count row.old row.new }
    {
        for bit in 0..count {
            let place = Place {
                structure,
                bit: first + bit,
            };
            let class = self.class_of(&place, cycle);
            row[usize::from(class.number())] += 1;
        }
    }

    /// Adds to a row all bits of a structure, one by one.
    fn add_bits(&self, structure: Structure, cycle: u32, row: &mut [u64; CLASSES])
        requires cycle { cycle < self.now.r.cycles }
        requires room { (n : ℕ) → slice_index row.old n + bits_in structure self.now.r.shape < 2 ^ 64 }
        ensures { IsAdded (HasClass (moment self.now cycle) structure) (bits_in structure self.now.r.shape) row.old row.new }
    {
        self.recorded.is_record();
        let shape = self.recorded.shape();
        self.add_stretch(structure, cycle, 0, bits_in(structure, &shape), row);
    }

    /// Adds to a row how many bits of a structure have each class in a cycle, and in each up to before the result: a cycle above it, at
    /// most the number of cycles. Where the note says all that the classes go by, that is the next cycle which has another one.
    fn add_here(&self, structure: Structure, cycle: u32, row: &mut [u64; CLASSES]) -> u32
        requires cycle { cycle < self.now.r.cycles }
        requires room { (n : ℕ) → slice_index row.old n + bits_in structure self.now.r.shape < 2 ^ 64 }
        ensures after { cycle < result }
        ensures within { result ≤ self.now.r.cycles }
        ensures added { (t : ℕ) → cycle ≤ t → t < result → IsAdded (HasClass (moment self.now t) structure) (bits_in structure self.now.r.shape) row.old row.new }
    {
        let notes: &[Note] = &self.notes;
        let words: &[u32] = &self.words;
        let needs = &self.needs;
        let note = note_at(notes, cycle);
        let quiet = self.quiet <= cycle;
        let until = still_until(notes, self.quiet, cycle);
        match structure {
            Structure::IdEx => add_decoded(note, quiet, row),
            Structure::ExMem => add_executed(note, quiet, row),
            Structure::MemWb => add_result(note, quiet, row),
            Structure::Rf => add_registers(note, needs, quiet, row),
            Structure::Ib => add_fetched(note, words, quiet, row),
            Structure::Sb => add_pending(note, needs, self.recorded.image(), quiet, row),
            _ => {
                self.add_bits(structure, cycle, row);
                return cycle + 1;
            }
        }
        until
    }

    /// Adds to a row, whose numbers have room for that, how many pairs of a bit of a structure and a cycle have each class, in the
    /// cycles from `cycle` up to before the result, which is above it, at most the number of cycles of the run. It takes no memory.
    pub fn add_cycles(&self, structure: Structure, cycle: u32, row: &mut [u64; CLASSES]) -> u32
        requires cycle { cycle < self.now.r.cycles }
        requires room { (n : ℕ) → slice_index row.old n + bits_in structure self.now.r.shape * (self.now.r.cycles - cycle) < 2 ^ 64 }
        ensures after { cycle < result }
        ensures within { result ≤ self.now.r.cycles }
        ensures added { ArePairsAdded (λ k t. HasClass (moment self.now (cycle + t)) structure k) (bits_in structure self.now.r.shape) (result - cycle) row.old row.new }
    {
        let mut here = [0; CLASSES];
        let until = self.add_here(structure, cycle, &mut here);
        add_row(&here, until - cycle, row);
        until
    }
}
