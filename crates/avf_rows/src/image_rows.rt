// Rows of `run` by the file that it is given.
use crate::images::{changed, filled, two_headers};
use crate::rows::{Due, Row, gives};
use avf_base::{OutOfMemory, Steps};
use elf_fixture::{THREE, flat};
use std::alloc::Global;
use std::sync::ledger::Ledger;

// Bytes of the flat image of three words, of 96 bytes, with new values, and what `run` then tells.
struct Changed(&'static [(usize, u8)], &'static str);

static CHANGES: [Changed; 20] = [
    Changed(&[(0, 0)], "avf: bad image 2\n"),
    Changed(&[(4, 2)], "avf: bad image 3\n"),
    Changed(&[(16, 3)], "avf: bad image 4\n"),
    Changed(&[(18, 0xF4)], "avf: bad image 5\n"),
    Changed(&[(36, 1)], "avf: bad image 6\n"),
    Changed(&[(36, 1), (52, 3)], "avf: bad image 6\n"),
    Changed(&[(42, 33)], "avf: bad image 7\n"),
    Changed(&[(28, 0xFF)], "avf: bad image 8\n"),
    Changed(&[(52, 3)], "avf: bad image 9\n"),
    Changed(&[(68, 13)], "avf: bad image 10\n"),
    Changed(&[(72, 11)], "avf: bad image 10\n"),
    Changed(&[(52, 0)], "avf: bad image 11\n"),
    Changed(&[(68, 0), (72, 0)], "avf: bad image 11\n"),
    Changed(&[(74, 0x10)], "avf: bad image 11\n"),
    Changed(&[(62, 0xFF), (63, 0xFF)], "avf: bad image 11\n"),
    Changed(&[(63, 0xFF)], "avf: bad image 12\n"),
    Changed(&[(76, 4)], "avf: bad image 12\n"),
    Changed(&[(26, 2)], "avf: bad image 12\n"),
    Changed(&[(24, 2)], "avf: bad image 12\n"),
    Changed(&[(44, 2)], "avf: bad image 8\n"),
];

// A length, and what `run` tells of a file that is so long.
struct Length(usize, &'static str);

// The first bytes of that image.
static FRONTS: [Length; 6] = [
    Length(0, "avf: bad image 1\n"),
    Length(51, "avf: bad image 1\n"),
    Length(52, "avf: bad image 8\n"),
    Length(83, "avf: bad image 8\n"),
    Length(84, "avf: bad image 10\n"),
    Length(95, "avf: bad image 10\n"),
];

// Zero bytes.
static ZEROS: [Length; 3] = [
    Length(52, "avf: bad image 2\n"),
    Length(16_777_216, "avf: bad image 2\n"),
    Length(16_777_217, "avf: bad image 13\n"),
];

// Whether `run` refuses this file so.
fn is_refused<L: Ledger, M: Ledger>(
    alloc: Global,
    file: &[u8],
    told: &'static str,
    steps: &mut Steps<L>,
    applies: &mut Steps<M>,
) -> Result<bool, OutOfMemory> {
    let row = Row(&[], "run a.elf 6", 4, Due::Whole(told));
    gives(alloc, file, &row, steps, applies)
}

// Whether `run` refuses that image so, with these bytes changed.
fn change_holds<L: Ledger, M: Ledger>(
    alloc: Global,
    row: &Changed,
    steps: &mut Steps<L>,
    applies: &mut Steps<M>,
) -> Result<bool, OutOfMemory> {
    let Changed(bytes, told) = row;
    let file = changed(alloc, bytes)?;
    is_refused(alloc, &file, told, steps, applies)
}

// Whether `run` refuses the first bytes of that image so.
fn front_holds<L: Ledger, M: Ledger>(
    alloc: Global,
    row: &Length,
    steps: &mut Steps<L>,
    applies: &mut Steps<M>,
) -> Result<bool, OutOfMemory> {
    let Length(len, told) = row;
    let file = flat(alloc, &THREE)?;
    let front = file.get(..*len).unwrap_or(&[]);
    is_refused(alloc, front, told, steps, applies)
}

// Whether `run` refuses so many zero bytes so.
fn zeros_hold<L: Ledger, M: Ledger>(
    alloc: Global,
    row: &Length,
    steps: &mut Steps<L>,
    applies: &mut Steps<M>,
) -> Result<bool, OutOfMemory> {
    let Length(len, told) = row;
    let file = filled(alloc, 0, *len)?;
    is_refused(alloc, &file, told, steps, applies)
}

// Whether the program header twice is refused, and a header of another kind beside it is not.
fn headers_hold<L: Ledger, M: Ledger>(
    alloc: Global,
    steps: &mut Steps<L>,
    applies: &mut Steps<M>,
) -> Result<bool, OutOfMemory> {
    let twice = two_headers(alloc, [1, 1])?;
    if !is_refused(alloc, &twice, "avf: bad image 11\n", steps, applies)? {
        return Ok(false);
    }
    let noted = two_headers(alloc, [1, 0x6474E551])?;
    let ended = Due::Whole("output -\nend exit 7\ninstructions 3\n");
    gives(
        alloc,
        &noted,
        &Row(&[], "run a.elf 6", 0, ended),
        steps,
        applies,
    )
}

// Whether the rows of changed bytes hold.
pub fn changes_hold<L: Ledger, M: Ledger>(
    alloc: Global,
    steps: &mut Steps<L>,
    applies: &mut Steps<M>,
) -> Result<bool, OutOfMemory> {
    for row in &CHANGES {
        if !change_holds(alloc, row, steps, applies)? {
            return Ok(false);
        }
    }
    Ok(true)
}

// Whether the rows by the length of the file hold.
pub fn lengths_hold<L: Ledger, M: Ledger>(
    alloc: Global,
    steps: &mut Steps<L>,
    applies: &mut Steps<M>,
) -> Result<bool, OutOfMemory> {
    for row in &FRONTS {
        if !front_holds(alloc, row, steps, applies)? {
            return Ok(false);
        }
    }
    for row in &ZEROS {
        if !zeros_hold(alloc, row, steps, applies)? {
            return Ok(false);
        }
    }
    headers_hold(alloc, steps, applies)
}
