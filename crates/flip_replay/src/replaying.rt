// The verdict on a flipped bit.
ghost use Rattle.std.specs.Prelude.{◌≡◌, ◌+◌, ◌*◌, ◌≤◌, ◌<◌, ◌^◌, false, length};
ghost use Rattle.bit_field.specs.Shapes.{IsPlaceIn};
ghost use Rattle.cyc_machine.specs.Run.{RunsFor, output_after, state_after};
ghost use Rattle.cyc_machine.specs.State.{reset};
ghost use Rattle.run_record.specs.Verdict.{IsVerdict, bound, flipped};

use crate::comparison::Comparison;
use avf_base::Steps;
use bit_field::Place;
use cyc_machine::{CYCLES_PER_INSTRUCTION, Machine};
use run_record::{Recorded, Verdict};
use std::sync::ledger::Ledger;

/// What the recorded run becomes with one bit flipped before cycle `cycle`, which is below its number of cycles. The machine is
/// one at reset on the recorded image and shape, and the place is a bit of it. It makes the cycles before that one, is flipped, and
/// goes on until a byte that it puts or its end is unlike the recorded one, or it has ended alike, or it has made
/// `CYCLES_PER_INSTRUCTION` cycles for each recorded instruction and for 8 more.
pub fn replay<L: Ledger>(
    mut machine: Machine<'_>,
    recorded: &Recorded<'_>,
    place: &Place,
    cycle: u32,
    steps: &mut Steps<L>,
) -> Verdict
    requires reset { machine ≡ reset recorded.now.image recorded.now.shape }
    requires place { IsPlaceIn recorded.now.shape place.now }
    requires cycle { cycle < recorded.now.cycles }
    ensures verdict { IsVerdict recorded.now cycle (flipped recorded.now cycle place.now) result }
    ensures steps { steps.new ≤ steps.old + bound recorded.now cycle }
{
    recorded.is_record();
    let matched = run_to(&mut machine, cycle, steps);
    machine.flip(place);
    let mut comparison = Comparison { matched };
    let bound = cycle + CYCLES_PER_INSTRUCTION * (recorded.instructions() + 8);
    for now in cycle..bound {
        if let Some(verdict) = comparison.step(&mut machine, recorded, now, steps) {
            return verdict;
        }
    }
    Verdict::NoEnd(bound)
}

// Makes so many cycles, in which no end comes. Answers how many bytes they put.
fn run_to<L: Ledger>(machine: &mut Machine<'_>, cycles: u32, steps: &mut Steps<L>) -> usize
    requires going { machine.old.ended ≡ false }
    requires running { RunsFor cycles machine.old }
    requires number { machine.old.cycle + cycles < 2 ^ 31 }
    ensures state { machine.new ≡ state_after cycles machine.old }
    ensures going { machine.new.ended ≡ false }
    ensures put { result ≡ length (output_after cycles machine.old) }
    ensures steps { steps.new ≡ steps.old + cycles }
{
    let mut put = 0;
    for _cycle in 0..cycles {
        if machine.step(steps).put.is_some() {
            put += 1;
        }
    }
    put
}
