// A run beside the recorded one, cycle by cycle.
ghost use Rattle.std.specs.Prelude.{◌≡◌, ◌↔◌, ◌+◌, ◌≤◌, ◌<◌, ◌^◌, ◌++◌, ◌∷◌, [], IsTrue, false, length, take};
ghost use Rattle.cyc_machine.specs.Cycle as cycles;
ghost use Rattle.flip_replay.specs.Comparison.{IsCompared, IsFollowed, IsJudged, with_put};

use avf_base::{End, Steps};
use cyc_machine::Machine;
use run_record::{Recorded, Verdict};
use std::sync::ledger::Ledger;

/// How many bytes the run has put, each of them the recorded one.
#[derive(Drop)]
pub struct Comparison {
    pub matched: usize,
}

impl Comparison {
    /// One more cycle of the machine, which is cycle `cycle` from reset. Answers the verdict where this cycle settles it.
    pub fn step<L: Ledger>(
        &mut self,
        machine: &mut Machine<'_>,
        recorded: &Recorded<'_>,
        cycle: u32,
        steps: &mut Steps<L>,
    ) -> Option<Verdict>
        requires running { machine.old.ended ≡ false }
        requires number { machine.old.cycle < 2 ^ 31 }
        requires cycle { cycle < 2 ^ 31 }
        requires matched { self.old.matched ≤ length recorded.now.output }
        ensures state { machine.new ≡ cycles.cycle machine.old }
        ensures judged { IsCompared recorded.now machine.old cycle self.old.matched self.new.matched result }
        ensures steps { steps.new ≡ steps.old + 1 }
    {
        let report = machine.step(steps);
        if !self.follow(report.put, recorded) {
            return Some(Verdict::Differs(cycle));
        }
        self.judge_end(report.end, recorded, cycle)
    }

    // Whether a byte that is put is the recorded one that is next. Then it is counted.
    fn follow(&mut self, put: Option<u8>, recorded: &Recorded<'_>) -> bool
        requires { self.old.matched ≤ length recorded.now.output }
        ensures { IsFollowed recorded.now (with_put recorded.now self.old.matched put) self.new.matched result }
    {
        match put {
            None => true,
            Some(byte) if is_next(recorded.output(), self.matched, byte) => {
                self.matched += 1;
                true
            }
            Some(_) => false,
        }
    }

    // The verdict where the run ends in this cycle.
    fn judge_end(&self, end: Option<End>, recorded: &Recorded<'_>, cycle: u32) -> Option<Verdict>
        requires cycle { cycle < 2 ^ 31 }
        requires matched { self.now.matched ≤ length recorded.now.output }
        ensures { IsJudged recorded.now (take self.now.matched recorded.now.output) end cycle self.now.matched result }
    {
        let end = end?;
        if end == recorded.end() && self.matched == recorded.output().len() {
            Some(Verdict::Same(cycle + 1))
        } else {
            Some(Verdict::Differs(cycle))
        }
    }
}

// Whether the byte is the one at this place.
fn is_next(output: &[u8], at: usize, byte: u8) -> bool
    requires { at ≤ length output.now }
    ensures { IsTrue result ↔ (take at output.now ++ byte ∷ [] ≡ take (at + 1) output.now) }
{
    at < output.len() && output[at] == byte
}
