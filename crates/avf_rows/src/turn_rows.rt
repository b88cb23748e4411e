// Rows over a shelf and a sink of which one call fails: the first, the second and so on, until none of those that a command makes.
use crate::faults::{CALM, Faults, Given, ROOM, call};
use avf_base::{OutOfMemory, Steps};
use std::alloc::Global;
use std::sync::ledger::Ledger;

// A map of the run of the image.
const MAP: &[u8] = b"avf-map 1\ncycles 6\ninstructions 3\npc 0 0 6 U1\n";

// More calls than any command of the rows makes.
const MANY: u32 = 1000;

// The words, how many reads they make, and how many bytes a write takes at most.
struct Turn(&'static str, u32, u32);

static TURNS: [Turn; 14] = [
    Turn("run a.elf 6", 2, 4),
    Turn("dead a.elf 6", 2, 4),
    Turn("report a.elf 6", 2, 4),
    Turn("csv a.elf 6", 2, 4),
    Turn("plan a.elf 6 262", 2, 4),
    Turn("campaign a.elf 6 1 8", 2, 4),
    Turn("due a.elf 6 both", 2, 4),
    Turn("map a.elf 6", 2, 256),
    Turn("check a.elf 6 a.map", 4, 4),
    Turn("query a.elf 6 ib 32 1", 2, 4),
    Turn("flip a.elf 100 pc 0 0", 2, 4),
    Turn("with 1 16 1 run a.elf 6", 2, 4),
    Turn("bench 1 1", 0, 4),
    Turn("asm a.s", 2, 4),
];

// Whether the status is 3 and nothing is written where read k fails, and not so where no read has the number k.
fn read_holds<L: Ledger, M: Ledger>(
    alloc: Global,
    turn: &Turn,
    k: u32,
    steps: &mut Steps<L>,
    applies: &mut Steps<M>,
) -> Result<bool, OutOfMemory> {
    let faults = Faults {
        reads: &[k],
        out: &[],
        err: &[],
        most: ROOM,
    };
    let given = call(alloc, turn.0, MAP, &faults, steps, applies)?;
    let fails = k <= turn.1;
    let status = if fails { 3 } else { 0 };
    Ok(given.status == status && given.out.kept().is_empty() == fails)
}

// Fails each read in turn.
fn reads_hold<L: Ledger, M: Ledger>(
    alloc: Global,
    turn: &Turn,
    steps: &mut Steps<L>,
    applies: &mut Steps<M>,
) -> Result<bool, OutOfMemory> {
    for k in 1..turn.1.saturating_add(2) {
        if !read_holds(alloc, turn, k, steps, applies)? {
            return Ok(false);
        }
    }
    Ok(true)
}

// Whether the status is 7 and the text was written up to so many bytes, or it is 0 where there are no more.
fn is_cut(given: &Given, text: &[u8], before: usize) -> bool {
    let status = if before < text.len() { 7 } else { 0 };
    let kept = given.out.kept();
    given.status == status && kept.len() == before.min(text.len()) && text.starts_with(kept)
}

// What a call gives where write k fails.
fn failing_write<L: Ledger, M: Ledger>(
    alloc: Global,
    turn: &Turn,
    k: u32,
    steps: &mut Steps<L>,
    applies: &mut Steps<M>,
) -> Result<Given, OutOfMemory> {
    let faults = Faults {
        reads: &[],
        out: &[k],
        err: &[],
        most: turn.2,
    };
    call(alloc, turn.0, MAP, &faults, steps, applies)
}

// Fails each write in turn, until there are no more.
fn writes_hold<L: Ledger, M: Ledger>(
    alloc: Global,
    turn: &Turn,
    steps: &mut Steps<L>,
    applies: &mut Steps<M>,
) -> Result<bool, OutOfMemory> {
    let whole = call(alloc, turn.0, MAP, &CALM, steps, applies)?;
    let text = whole.out.kept();
    for k in 1..MANY {
        let before = (k - 1).saturating_mul(turn.2) as usize;
        let given = failing_write(alloc, turn, k, steps, applies)?;
        let is_right = is_cut(&given, text, before);
        if !is_right || given.status == 0 {
            return Ok(is_right);
        }
    }
    Ok(false)
}

// Whether these rows hold.
pub fn turns_hold<L: Ledger, M: Ledger>(
    alloc: Global,
    steps: &mut Steps<L>,
    applies: &mut Steps<M>,
) -> Result<bool, OutOfMemory> {
    for turn in &TURNS {
        if !reads_hold(alloc, turn, steps, applies)? || !writes_hold(alloc, turn, steps, applies)? {
            return Ok(false);
        }
    }
    Ok(true)
}
