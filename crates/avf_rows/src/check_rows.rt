// Rows of `check`: maps of the flat image of three words.
use crate::faults::{CALM, Faults, ROOM, call, is_given};
use avf_base::{OutOfMemory, Steps};
use std::alloc::Global;
use std::sync::ledger::Ledger;

// The map of one line.
const ONE: &str = "avf-map 1\ncycles 6\ninstructions 3\npc 0 0 6 U1\n";

// A map by hand, the status of its check, and what it tells.
struct Map(&'static str, u8, &'static str);

static MAPS: [Map; 11] = [
    Map("avf-map 1\ncycles 6\ninstructions 3\n", 0, "accepted 0\n"),
    Map(ONE, 0, "accepted 6\n"),
    Map(
        "avf-map 1\ncycles 6\ninstructions 3\nnpc 0 5 6 U1\n",
        10,
        "avf: bad map 4 5\n",
    ),
    Map(
        "avf-map 1\ncycles 6\ninstructions 3\npc 0 0 7 U1\n",
        10,
        "avf: bad map 4 3\n",
    ),
    Map(
        "avf-map 1\ncycles 6\ninstructions 3\npc 1 0 6 U1\npc 0 0 6 U1\n",
        10,
        "avf: bad map 5 4\n",
    ),
    Map(
        "avf-map 1\ncycles 7\ninstructions 3\npc 0 0 6 U1\n",
        10,
        "avf: bad map 2 2\n",
    ),
    Map("", 10, "avf: bad map 1 1\n"),
    Map(
        "avf-map 1\ncycles 6\ninstructions 3\npc 0",
        10,
        "avf: bad map 4 1\n",
    ),
    // A line of 64 bytes, whose first word is no name, and one of 65 bytes.
    Map(
        "avf-map 1\ncycles 6\ninstructions 3\nppppppppppppppppppppppppppppppppppppppppppppppppppppppp 0 0 6 U1\n",
        10,
        "avf: bad map 4 3\n",
    ),
    Map(
        "avf-map 1\ncycles 6\ninstructions 3\npppppppppppppppppppppppppppppppppppppppppppppppppppppppp 0 0 6 U1\n",
        10,
        "avf: bad map 4 1\n",
    ),
    // 64 bytes without a space.
    Map(
        "avf-map 1\ncycles 6\ninstructions 3\npppppppppppppppppppppppppppppppppppppppppppppppppppppppppppppppp\n",
        10,
        "avf: bad map 4 1\n",
    ),
];

// The words over a map, which reads fail, the status, and what is told.
#[derive(Clone, Copy)]
struct Check(&'static str, &'static [u32], u8, &'static str);

// Over the map of one line: the image is read by two reads, the second of which gives no byte, and then the map by two.
static ORDERS: [Check; 13] = [
    Check("check a.elf 6 a.map", &[1], 3, "avf: read fault\n"),
    Check("check a.elf 6 a.map", &[2], 3, "avf: read fault\n"),
    Check("check a.elf 6 a.map", &[3], 3, "avf: read fault\n"),
    Check("check a.elf 6 a.map", &[4], 3, "avf: read fault\n"),
    Check("check a.elf 6 a.map", &[5], 0, "accepted 6\n"),
    Check("check a.elf 6 b.map", &[], 3, "avf: read fault\n"),
    Check("check a.map 6 b.map", &[], 4, "avf: bad image 1\n"),
    Check("check a.elf 5 b.map", &[], 5, "avf: no end\n"),
    Check("check a.elf 6 a.elf", &[], 10, "avf: bad map 1 1\n"),
    Check("check a.elf 0 a.map", &[], 2, "avf: usage\n"),
    Check("check a.elf 6 ", &[], 2, "avf: usage\n"),
    Check("check a.elf 6", &[], 2, "avf: usage\n"),
    Check("check a.elf 6 a.map a.map", &[], 2, "avf: usage\n"),
];

// Over the map that `map` writes: on its own machine, on one with a smaller cache, and where a read in its middle fails.
static OWN: [Check; 3] = [
    Check("check a.elf 6 a.map", &[], 0, "accepted 75798\n"),
    Check(
        "with 1 16 1 check a.elf 6 a.map",
        &[],
        10,
        "avf: bad map 5477 3\n",
    ),
    Check("check a.elf 6 a.map", &[30], 3, "avf: read fault\n"),
];

fn holds<L: Ledger, M: Ledger>(
    alloc: Global,
    map: &[u8],
    row: &Check,
    steps: &mut Steps<L>,
    applies: &mut Steps<M>,
) -> Result<bool, OutOfMemory> {
    let Check(line, reads, status, told) = row;
    let faults = Faults {
        reads,
        out: &[],
        err: &[],
        most: ROOM,
    };
    let given = call(alloc, line, map, &faults, steps, applies)?;
    let (out, err) = if *status == 0 {
        (*told, "")
    } else {
        ("", *told)
    };
    Ok(is_given(&given, *status, out, err))
}

// Whether rows over one map hold.
fn all_hold<L: Ledger, M: Ledger>(
    alloc: Global,
    map: &[u8],
    rows: &[Check],
    steps: &mut Steps<L>,
    applies: &mut Steps<M>,
) -> Result<bool, OutOfMemory> {
    for row in rows {
        if !holds(alloc, map, row, steps, applies)? {
            return Ok(false);
        }
    }
    Ok(true)
}

// Whether the rows of maps by hand hold.
fn maps_hold<L: Ledger, M: Ledger>(
    alloc: Global,
    steps: &mut Steps<L>,
    applies: &mut Steps<M>,
) -> Result<bool, OutOfMemory> {
    for Map(map, status, told) in &MAPS {
        let row = Check("check a.elf 6 a.map", &[], *status, told);
        if !holds(alloc, map.as_bytes(), &row, steps, applies)? {
            return Ok(false);
        }
    }
    Ok(true)
}

// Whether the rows over the map that `map` writes hold.
fn own_hold<L: Ledger, M: Ledger>(
    alloc: Global,
    steps: &mut Steps<L>,
    applies: &mut Steps<M>,
) -> Result<bool, OutOfMemory> {
    let given = call(alloc, "map a.elf 6", b"", &CALM, steps, applies)?;
    all_hold(alloc, given.out.kept(), &OWN, steps, applies)
}

// Whether these rows hold.
pub fn checks_hold<L: Ledger, M: Ledger>(
    alloc: Global,
    steps: &mut Steps<L>,
    applies: &mut Steps<M>,
) -> Result<bool, OutOfMemory> {
    Ok(
        maps_hold(alloc, steps, applies)?
            && own_hold(alloc, steps, applies)?
            && all_hold(alloc, ONE.as_bytes(), &ORDERS, steps, applies)?,
    )
}
