// How many data bits of a byte of a line slot have each class in a stretch of cycles.
ghost use Rattle.std.specs.Prelude.{◌≡◌, ◌+◌, ◌*◌, ◌^◌, ◌<◌, ◌==◌, ℕ, [], ◌∷◌, length, slice_index};
ghost use Rattle.ace_class.specs.Classes.{class_number};
ghost use Rattle.ace_rules.specs.RuleMasks.{first_of};
ghost use Rattle.ace_rules.specs.Sums.{count_below};

use crate::analysis::Analysis;
use crate::classes::note_at;
use crate::line_bytes::{ByteStay, byte_stay};
use crate::note::Note;
use crate::tally::RuleMask;
use crate::tally_pending::BYTE_MASK;
use ace_class::CLASSES;

/// Adds to a row, so many times, how many bits of a byte a rule takes, and how many it leaves, which are ACE.
fn add_times(found: RuleMask, times: u32, row: &mut [u64; CLASSES])
    requires { (n : ℕ) → slice_index row.old n + times * 8 < 2 ^ 64 }
    ensures full { length row.new ≡ length row.old }
    ensures counts { (n : ℕ) → slice_index row.new n ≡ slice_index row.old n + times * count_below 8 (λ k. class_number (first_of (found ∷ []) k) == n) }
{
    let taken = BYTE_MASK & found.mask;
    let left = BYTE_MASK ^ taken;
    row[usize::from(found.rule.number())] += u64::from(times) * u64::from(taken.count_ones());
    row[0] += u64::from(times) * u64::from(left.count_ones());
}

impl Analysis<'_> {
    ghost use Rattle.std.specs.Prelude.{◌-◌, ◌≤◌};
    ghost use Rattle.bit_field.specs.Shapes.{bits_in};
    ghost use Rattle.bit_field.specs.declared.places.Structure.TheVariants as structure;
    ghost use Rattle.ace_rules.specs.Notes.{moment};
    ghost use Rattle.ace_rules.specs.Tallies.{ArePairsAdded, HasClass};

    /// The classes of the data bits of a byte of the cache in a cycle, and a cycle above it, at most the number of cycles, up to before which
    /// they surely stay.
    pub(crate) fn byte_in(&self, byte: u32, cycle: u32) -> ByteStay
        requires byte { 8 * byte + 8 ≤ bits_in structure.CData self.now.r.shape }
        requires cycle { cycle < self.now.r.cycles }
        ensures after { cycle < result.until }
        ensures within { result.until ≤ self.now.r.cycles }
        ensures stays { (k t : ℕ) → k < 8 → cycle ≤ t → t < result.until → HasClass (moment self.now t) structure.CData (8 * byte + k) (first_of (result.found ∷ []) k) }
    {
        let notes: &[Note] = &self.notes;
        let note = note_at(notes, cycle);
        let shape = self.recorded.shape();
        let ByteStay { found, until } = byte_stay(
            notes,
            note,
            self.quiet,
            &self.needs,
            &self.life,
            &self.slots,
            &shape,
            byte,
            cycle,
        );
        ByteStay {
            found,
            until: until.max(cycle + 1).min(self.recorded.cycles()),
        }
    }

    /// Adds to a row, whose numbers have room for that, how many pairs of a data bit of a byte of the cache and a cycle have each class, in
    /// the cycles from `cycle` up to before the result: in these each of the bits keeps its class. Byte b is byte b % 16 of slot b / 16. The
    /// result is above `cycle`, at most the number of cycles of the run. It takes no memory.
    pub fn add_byte(&self, byte: u32, cycle: u32, row: &mut [u64; CLASSES]) -> u32
        requires byte { 8 * byte + 8 ≤ bits_in structure.CData self.now.r.shape }
        requires cycle { cycle < self.now.r.cycles }
        requires room { (n : ℕ) → slice_index row.old n + 8 * (self.now.r.cycles - cycle) < 2 ^ 64 }
        ensures after { cycle < result }
        ensures within { result ≤ self.now.r.cycles }
        ensures added { ArePairsAdded (λ k t. HasClass (moment self.now (cycle + t)) structure.CData (8 * byte + k)) 8 (result - cycle) row.old row.new }
    {
        let ByteStay { found, until } = self.byte_in(byte, cycle);
        add_times(found, until - cycle, row);
        until
    }
}
