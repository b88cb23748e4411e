// Rows over files in memory that never fail.
ghost use Rattle.std.specs.Prelude.{IfOk};
ghost use Rattle.avf_tool.specs.Ends.{IsNoFault};

use avf_base::{OutOfMemory, PlainShelf, PlainSink, Steps};
use avf_tool::run_tool;
use elf_fixture::flat;
use std::alloc::{AllocError, Global};
use std::sync::ledger::Ledger;

// Room for the largest text of a row, in bytes.
const ROOM: u32 = 0x10_0000;

// What a text is to be.
#[derive(Clone, Copy)]
pub enum Due {
    Whole(&'static str),
    // It has this somewhere.
    Part(&'static str),
    // It ends so.
    End(&'static str),
}

// The words of a flat image, the words of a command over it, the status, and the text that is due: on `out` for status 0, else on `err`.
#[derive(Clone, Copy)]
pub struct Row(pub &'static [u32], pub &'static str, pub u8, pub Due);

// The words of a line, one space apart.
pub fn words(alloc: Global, line: &str) -> Result<Vec<String>, AllocError> {
    let mut words = Vec::new(alloc);
    for word in line.split(' ') {
        words.push(String::from_str(alloc, word)?)?;
    }
    Ok(words)
}

// What a call of the tool gave.
#[derive(Drop)]
pub struct Given {
    pub status: u8,
    pub out: PlainSink,
    pub err: PlainSink,
}

// A shelf on which this file has two names.
fn shelf_of(alloc: Global, file: &[u8]) -> Result<PlainShelf, OutOfMemory> {
    let mut shelf = PlainShelf::new(alloc);
    shelf.put("a.elf", file)?;
    shelf.put("a.s", file)?;
    Ok(shelf)
}

// The words of a line over a file. The shelf and the sinks never fail, so no status tells of a fault.
pub fn call<L: Ledger, M: Ledger>(
    alloc: Global,
    line: &str,
    file: &[u8],
    steps: &mut Steps<L>,
    applies: &mut Steps<M>,
) -> Result<Given, OutOfMemory>
    ensures { IfOk result (λ given. IsNoFault given.status) }
{
    let words = words(alloc, line)?;
    let mut shelf = shelf_of(alloc, file)?;
    let mut out = PlainSink::new(alloc, ROOM)?;
    let mut err = PlainSink::new(alloc, 4096)?;
    let status = run_tool(
        alloc, &words, &mut shelf, &mut out, &mut err, steps, applies,
    );
    Ok(Given { status, out, err })
}

// Whether the piece stands somewhere in the text.
fn has_piece(text: &[u8], piece: &[u8]) -> bool {
    for at in 0..text.len() {
        let (_, rest) = text.split_at(at);
        if rest.starts_with(piece) {
            return true;
        }
    }
    false
}

fn is_due(text: &[u8], due: &Due) -> bool {
    match due {
        Due::Whole(whole) => text == whole.as_bytes(),
        Due::Part(part) => has_piece(text, part.as_bytes()),
        Due::End(end) => text.ends_with(end.as_bytes()),
    }
}

// Whether a call gave what a row says.
fn is_given(given: &Given, row: &Row) -> bool {
    let Row(_, _, status, due) = row;
    if given.status != *status {
        return false;
    }
    let (told, silent) = if *status == 0 {
        (&given.out, &given.err)
    } else {
        (&given.err, &given.out)
    };
    silent.kept().is_empty() && is_due(told.kept(), due)
}

// Whether the command of a row gives over this file what the row says.
pub fn gives<L: Ledger, M: Ledger>(
    alloc: Global,
    file: &[u8],
    row: &Row,
    steps: &mut Steps<L>,
    applies: &mut Steps<M>,
) -> Result<bool, OutOfMemory> {
    let given = call(alloc, row.1, file, steps, applies)?;
    Ok(is_given(&given, row))
}

// Whether the command of a row gives over its own image what the row says.
fn holds<L: Ledger, M: Ledger>(
    alloc: Global,
    row: &Row,
    steps: &mut Steps<L>,
    applies: &mut Steps<M>,
) -> Result<bool, OutOfMemory> {
    let file = flat(alloc, row.0)?;
    gives(alloc, &file, row, steps, applies)
}

// The number of the first row that doesn't hold, from 1 on, and 0 where all do.
pub fn first_wrong<L: Ledger, M: Ledger>(
    alloc: Global,
    rows: &[Row],
    steps: &mut Steps<L>,
    applies: &mut Steps<M>,
) -> Result<u32, OutOfMemory> {
    let mut number: u32 = 0;
    for row in rows {
        number = number.saturating_add(1);
        if !holds(alloc, row, steps, applies)? {
            return Ok(number);
        }
    }
    Ok(0)
}
