// Rows of fates under parity: what becomes of a flip of a bit of the cache's data.
use crate::cycle_rows::{BESIDE, CONFLICT};
use ace_class::Class;
use ace_rules::Analysis;
use avf_base::{OutOfMemory, Steps};
use bit_field::{Place, Structure};
use due_parity::{Fate, watch};
use elf_fixture::flat;
use elf_load::{Image, load};
use run_log::record;
use std::alloc::Global;
use std::sync::ledger::Ledger;

// The size of RAM in bytes, on the plain shape.
const RAM: usize = 0x10_0000;

// More cycles than each of the runs has.
const BUDGET: u32 = 100;

// The words of a flat image, a bit of the cache's data and a cycle; the fate of the flip, and whether the bit is ACE, so that a flip
// that is detected is detected truly.
struct Flip(&'static [u32], u32, u32, Fate, bool);

static FLIPS: [Flip; 5] = [
    Flip(&CONFLICT, 0, 12, Fate::Quiet, false),
    Flip(&CONFLICT, 0, 13, Fate::Detected(13), true),
    Flip(&CONFLICT, 0, 14, Fate::Quiet, false),
    Flip(&BESIDE, 0, 20, Fate::Detected(43), true),
    Flip(&BESIDE, 8, 20, Fate::Detected(43), false),
];

// Whether the fate of the flip, and the class of the bit, are those of the row.
fn is_so<L: Ledger>(
    alloc: Global,
    analysis: &Analysis<'_>,
    flip: &Flip,
    steps: &mut Steps<L>,
) -> Result<bool, OutOfMemory> {
    let Flip(_, bit, cycle, fate, ace) = flip;
    let place = Place {
        structure: Structure::CData,
        bit: *bit,
    };
    if !analysis.in_range(&place, *cycle) {
        return Ok(false);
    }
    let table = watch(alloc, analysis, steps)?;
    let is_ace = analysis.class_of(&place, *cycle) == Class::Ace;
    Ok(table.fate(analysis, &place, *cycle) == *fate && is_ace == *ace)
}

// Whether a row holds in the run of its image.
fn run_holds<L: Ledger, M: Ledger>(
    alloc: Global,
    image: &Image,
    flip: &Flip,
    steps: &mut Steps<L>,
    applies: &mut Steps<M>,
) -> Result<bool, OutOfMemory> {
    if image.ram().len() != RAM {
        return Ok(false);
    }
    let Ok(run) = record(alloc, image, BUDGET, steps) else {
        return Ok(false);
    };
    let analysis = Analysis::new(alloc, run, steps, applies)?;
    is_so(alloc, &analysis, flip, steps)
}

fn holds<L: Ledger, M: Ledger>(
    alloc: Global,
    flip: &Flip,
    steps: &mut Steps<L>,
    applies: &mut Steps<M>,
) -> Result<bool, OutOfMemory> {
    let file = flat(alloc, flip.0)?;
    match load(alloc, &file, 0x10_0000) {
        Ok(image) => run_holds(alloc, &image, flip, steps, applies),
        Err(_) => Ok(false),
    }
}

// Whether these rows hold.
pub fn fates_hold<L: Ledger, M: Ledger>(
    alloc: Global,
    steps: &mut Steps<L>,
    applies: &mut Steps<M>,
) -> Result<bool, OutOfMemory> {
    for flip in &FLIPS {
        if !holds(alloc, flip, steps, applies)? {
            return Ok(false);
        }
    }
    Ok(true)
}
