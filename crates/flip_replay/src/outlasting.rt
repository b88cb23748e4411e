// How long a machine lasts with any of its bits flipped.
ghost use Rattle.std.specs.Prelude.{◌≡◌, ◌+◌, ◌<◌, ◌^◌, All, false, if◌then◌else◌};
ghost use Rattle.cyc_machine.specs.Cycle as cycles;
ghost use Rattle.cyc_machine.specs.Strikes.{InRange};
ghost use Rattle.flip_replay.specs.Lasting.{Outlasts, struck};

use avf_base::{End, Steps};
use bit_field::Place;
use cyc_machine::Machine;
use std::sync::ledger::Ledger;

/// How long a machine lasted.
#[derive(Clone, Copy, PartialEq, Eq)]
pub struct Outlasted {
    /// The number of cycles that it made, the ending one included.
    pub cycles: u32,
    /// The number of instructions that were retired in them.
    pub completed: u32,
    /// The end that came, if one did.
    pub end: Option<End>,
}

/// Flips the bits at the places in their order, and lets the machine make `cycles` cycles, or fewer where its run ends. The machine
/// hasn't ended, the places are bits of it, and the number of its last cycle is below 2^31. Where no end comes it has completed an
/// instruction in every `CYCLES_PER_INSTRUCTION` cycles: no number of flips stops it. Nothing is said of its output.
pub fn outlast<L: Ledger>(
    mut machine: Machine<'_>,
    places: &[Place],
    cycles: u32,
    steps: &mut Steps<L>,
) -> Outlasted
    requires going { machine.ended ≡ false }
    requires places { All (InRange machine) places.now }
    requires number { machine.cycle + cycles < 2 ^ 31 }
    ensures outlasts { Outlasts (struck machine.entry places.now) cycles result }
    ensures steps { steps.new ≡ steps.old + result.cycles }
{
    strike(&mut machine, places);
    machine.is_machine();
    let mut completed = 0;
    for made in 0..cycles {
        if let Some(end) = run_cycle(&mut machine, &mut completed, steps) {
            return Outlasted {
                cycles: made + 1,
                completed,
                end: Some(end),
            };
        }
    }
    Outlasted {
        cycles,
        completed,
        end: None,
    }
}

// Flips the bits at the places in their order.
fn strike(machine: &mut Machine<'_>, places: &[Place])
    requires places { All (InRange machine.old) places.now }
    ensures state { machine.new ≡ struck machine.old places.now }
    ensures going { machine.new.ended ≡ machine.old.ended }
    ensures number { machine.new.cycle ≡ machine.old.cycle }
{
    for place in places {
        machine.flip(place);
    }
}

// One more cycle, which may complete an instruction. Answers the end that it brings.
fn run_cycle<L: Ledger>(
    machine: &mut Machine<'_>,
    completed: &mut u32,
    steps: &mut Steps<L>,
) -> Option<End>
    requires going { machine.old.ended ≡ false }
    requires number { machine.old.cycle < 2 ^ 31 }
    requires few { completed.old < 2 ^ 31 }
    ensures state { machine.new ≡ cycles.cycle machine.old }
    ensures end { result ≡ cycles.end_in machine.old }
    ensures completed { completed.new ≡ (if cycles.retires machine.old then completed.old + 1 else completed.old) }
    ensures steps { steps.new ≡ steps.old + 1 }
{
    let report = machine.step(steps);
    if report.retired {
        *completed += 1;
    }
    report.end
}
