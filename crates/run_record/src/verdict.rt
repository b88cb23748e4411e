// What a run that is flipped is beside the recorded one.
ghost use Rattle.std.specs.Prelude.{ℕ};
ghost use Rattle.cyc_machine.specs.State.{State};
ghost use Rattle.run_record.specs.Run.{RecordedRun};
ghost use Rattle.run_record.specs.Verdict.{HasOneVerdict};

/// What a run with one bit flipped is beside the recorded one. Cycles are counted from reset, and compared up to a bound.
#[derive(Clone, Copy, Debug, PartialEq, Eq)]
pub enum Verdict {
    /// It has this many cycles, and the recorded output and end.
    Same(u32),
    /// The first byte of its output or end that is unlike comes in this cycle.
    Differs(u32),
    /// Neither comes before the bound, which is this cycle.
    NoEnd(u32),
}

/// Changes nothing; says that exactly one verdict holds of each run that goes on from any state in place of the recorded one.
pub fn verdict_law()
    ensures { (r : RecordedRun) → (t : ℕ) → (u : State) → HasOneVerdict r t u }
{}
