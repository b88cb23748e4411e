// How many bits of a register, or of a byte of the cache, are ACE.
ghost use Rattle.std.specs.Prelude.{◌≡◌, ◌+◌, ◌-◌, ◌*◌, ◌<◌, ◌≤◌, [], ◌∷◌, not, if◌then◌else◌};
ghost use Rattle.need_pass.specs.Tables.{reg_need};
ghost use Rattle.ace_rules.specs.AceGroups.{is_ace};
ghost use Rattle.ace_rules.specs.FirstRules.{class_by};
ghost use Rattle.ace_rules.specs.PipelineTests as asked;
ghost use Rattle.ace_rules.specs.RuleMasks.{first_of};
ghost use Rattle.ace_rules.specs.Sums.{count_below};

use crate::analysis::Analysis;
use crate::classes::note_at;
use crate::line_bytes::ByteStay;
use crate::note::Note;
use crate::registers::{decoded, is_overwritten};
use crate::tally::RuleMask;
use crate::tally_pending::BYTE_MASK;
use need_pass::NeedTable;

/// How many bits of a group are ACE, and a cycle up to before which each bit of the group keeps its class.
#[derive(Clone, Copy, Debug, PartialEq, Eq)]
pub struct Aces {
    pub bits: u32,
    pub until: u32,
}

/// The bits of register `r` of which the rule of dead registers doesn't hold.
fn ace_mask(note: &Note, needs: &NeedTable, quiet: bool, r: u8) -> u32
    requires instruction { asked.decoded_by note.now ≤ needs.now.count }
    requires above { 0 < r }
    requires below { r < 32 }
    ensures { result ≡ (if not quiet then 4294967295 else if asked.is_overwritten note.now r then 0 else reg_need needs.now r (asked.decoded_by note.now)) }
{
    if !quiet {
        u32::MAX
    } else if is_overwritten(note, r) {
        0
    } else {
        needs.reg_need(r, decoded(note, needs))
    }
}

/// How many bits of register `r` are ACE.
fn aces_of_register(note: &Note, needs: &NeedTable, quiet: bool, r: u8) -> u32
    requires instruction { asked.decoded_by note.now ≤ needs.now.count }
    requires above { 0 < r }
    requires below { r < 32 }
    ensures { result ≡ count_below 32 (λ j. is_ace (class_by (asked.register_tests needs.now note.now quiet (32 * (r - 1) + j)))) }
{
    ace_mask(note, needs, quiet, r).count_ones()
}

/// How many bits of a byte a rule leaves, which are ACE.
#[tactic(auto, using(crate::proofs::LeftBits::left_counted))]
fn aces_beside(found: RuleMask) -> u32
    ensures { result ≡ count_below 8 (λ k. is_ace (first_of (found ∷ []) k)) }
{
    (BYTE_MASK ^ (BYTE_MASK & found.mask)).count_ones()
}

impl Analysis<'_> {
    ghost use Rattle.std.specs.Prelude.{◌<◌, ◌*◌};
    ghost use Rattle.bit_field.specs.Shapes.{slots as slot_count};
    ghost use Rattle.bit_field.specs.declared.places.Structure.TheVariants as structure;
    ghost use Rattle.cyc_machine.specs.declared.registers.TheConstants.{REGISTERS};
    ghost use Rattle.ace_rules.specs.AceGroups.{AreAces};

    /// How many bits of a register are ACE in a cycle of the run: group `group` of the register file is register `group` + 1. It takes no
    /// memory.
    pub fn register_aces(&self, group: u32, cycle: u32) -> Aces
        requires group { group < REGISTERS }
        requires cycle { cycle < self.now.r.cycles }
        ensures aces { AreAces self.now structure.Rf (32 * group) 32 cycle result }
        ensures after { cycle < result.until }
    {
        let note = note_at(&self.notes, cycle);
        let quiet = self.quiet <= cycle;
        Aces {
            bits: aces_of_register(note, &self.needs, quiet, group as u8 + 1),
            until: cycle + 1,
        }
    }

    /// How many bits of a byte of the cache's data are ACE in a cycle of the run: group `group` of the data is byte `group` % 16 of slot
    /// `group` / 16. It takes no memory.
    pub fn byte_aces(&self, group: u32, cycle: u32) -> Aces
        requires group { group < 16 * slot_count self.now.r.shape }
        requires cycle { cycle < self.now.r.cycles }
        ensures aces { AreAces self.now structure.CData (8 * group) 8 cycle result }
        ensures after { cycle < result.until }
    {
        let ByteStay { found, until } = self.byte_in(group, cycle);
        Aces {
            bits: aces_beside(found),
            until,
        }
    }
}
