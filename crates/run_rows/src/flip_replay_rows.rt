// Rows of flip_replay: the verdicts and the lasting of small programs, with ample memory, worked out by hand from docs/MACHINE.md.
ghost use Rattle.std.specs.Prelude.{◌≡◌, ◌<◌, All, IsTrue};
ghost use Rattle.cyc_machine.specs.Strikes.{InRange};

use crate::runs::image_of;
use avf_base::{End, Steps, counter};
use bit_field::{EX_MEM_BITS, ID_EX_BITS, PORT_BITS, Place, Structure, bits_in};
use cyc_machine::Machine;
use elf_fixture::THREE;
use flip_replay::{Outlasted, Verdict, outlast, replay};
use run_log::{Recorded, record};
use std::alloc::Global;
use std::fs::Files;
use std::marker::Brand;
use std::process::Abort;
use std::sync::ledger::{Blank, Ledger};
use std::test::Fail;

// a0 = 7, a7 = 93, ECALL, and behind it an instruction that jumps to itself
static BEFORE_A_LOOP: [u32; 4] = [0x0070_0513, 0x05D0_0893, 0x0000_0073, 0x0000_006F];

// an instruction that jumps to itself
static LOOP: [u32; 1] = [0x0000_006F];

/// A bit, the cycle in which it is flipped, and the verdict.
struct Flip(Structure, u32, u32, Verdict);

static THREE_FLIPPED: [Flip; 4] = [
    Flip(Structure::Pc, 0, 0, Verdict::Same(9)),
    Flip(Structure::Pc, 0, 5, Verdict::Same(6)),
    Flip(Structure::IdEx, 152, 2, Verdict::Same(22)),
    Flip(Structure::Npc, 0, 0, Verdict::Differs(7)),
];

static LOOP_REACHED: [Flip; 1] = [Flip(Structure::Npc, 1, 3, Verdict::NoEnd(2819))];

fn is_so<L: Ledger>(
    alloc: Global,
    recorded: &Recorded<'_>,
    flip: &Flip,
    steps: &mut Steps<L>,
) -> Result<bool, Fail> {
    let Flip(structure, bit, cycle, verdict) = flip;
    recorded.is_record();
    let shape = recorded.shape();
    if *bit >= bits_in(*structure, &shape) || *cycle >= recorded.cycles() {
        return Ok(false);
    }
    let place = Place {
        structure: *structure,
        bit: *bit,
    };
    let machine = Machine::shaped(alloc, recorded.image(), &shape)?;
    Ok(replay(machine, recorded, &place, *cycle, steps) == *verdict)
}

fn check_flips<L: Ledger>(
    rt: &impl Abort,
    alloc: Global,
    words: &[u32],
    flips: &[Flip],
    steps: &mut Steps<L>,
) -> Result<(), Fail> {
    let image = image_of(alloc, words)?;
    assert!(rt; image.ram().len() == 1_048_576);
    let recorded = record(alloc, &image, 100, steps)?;
    for flip in flips {
        assert!(rt; is_so(alloc, &recorded, flip, steps)?);
    }
    Ok(())
}

fn are_in_range(machine: &Machine<'_>, places: &[Place]) -> bool
    ensures { IsTrue result → All (InRange machine.now) places.now }
{
    places.iter().all(|place| machine.in_range(place))
}

fn lasting<L: Ledger>(
    rt: &impl Abort,
    alloc: Global,
    words: &[u32],
    places: &[Place],
    cycles: u32,
    steps: &mut Steps<L>,
) -> Result<Outlasted, Fail> {
    let image = image_of(alloc, words)?;
    let machine = Machine::new(alloc, &image)?;
    assert!(rt; !machine.ended());
    assert!(rt; machine.cycle() == 0 && cycles < 1_000_000);
    assert!(rt; are_in_range(&machine, places));
    Ok(outlast(machine, places, cycles, steps))
}

const NPC: Place = Place {
    structure: Structure::Npc,
    bit: 0,
};

/// The bits that are flipped, how many cycles are asked for, and how long the machine lasts.
struct Lasts(&'static [Place], u32, Outlasted);

static THREE_LASTS: [Lasts; 3] = [
    Lasts(
        &[],
        6,
        Outlasted {
            cycles: 6,
            completed: 3,
            end: Some(End::Exit(7)),
        },
    ),
    Lasts(
        &[],
        5,
        Outlasted {
            cycles: 5,
            completed: 2,
            end: None,
        },
    ),
    Lasts(
        &[NPC, NPC],
        6,
        Outlasted {
            cycles: 6,
            completed: 3,
            end: Some(End::Exit(7)),
        },
    ),
];

/// All bits of two latches and of the port.
fn latch_bits(alloc: Global) -> Result<Vec<Place>, Fail> {
    let mut places = Vec::new(alloc);
    for (structure, bits) in [
        (Structure::IdEx, ID_EX_BITS),
        (Structure::Port, PORT_BITS),
        (Structure::ExMem, EX_MEM_BITS),
    ] {
        for bit in 0..bits {
            places.push(Place { structure, bit })?;
        }
    }
    Ok(places)
}

fn check_lasting<L: Ledger>(
    rt: &impl Abort,
    alloc: Global,
    steps: &mut Steps<L>,
) -> Result<(), Fail> {
    for Lasts(places, cycles, lasts) in &THREE_LASTS {
        assert!(rt; lasting(rt, alloc, &THREE, places, *cycles, steps)? == *lasts);
    }
    let found = lasting(rt, alloc, &LOOP, &latch_bits(alloc)?, 1000, steps)?;
    assert!(rt; found.end.is_some() || found.completed >= 3);
    Ok(())
}

fn check_all<R: Abort + Files, L: Ledger>(rt: &R, alloc: Global, blank: Blank) -> Result<(), Fail>
    requires name { blank.name ≡ L.name }
    requires parts { blank.parts ≡ L.parts }
    requires some { 0 < L.parts }
{
    let mut steps = counter::<R, L>(rt, blank);
    check_flips(rt, alloc, &THREE, &THREE_FLIPPED, &mut steps)?;
    check_flips(rt, alloc, &BEFORE_A_LOOP, &LOOP_REACHED, &mut steps)?;
    check_lasting(rt, alloc, &mut steps)
}

#[test]
fn flipped_runs(rt: HostRuntime) -> Result<(), Fail> {
    check_all::<HostRuntime, Brand>(&rt, rt.alloc(), Blank::new(1))
}
