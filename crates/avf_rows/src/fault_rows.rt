// Rows over a shelf and sinks whose calls fail.
use crate::faults::{Faults, call, is_given};
use avf_base::{OutOfMemory, Steps};
use std::alloc::Global;
use std::sync::ledger::Ledger;

// The words; which reads fail, and which writes of `out`, of 4 bytes each, and of `err`; the status, and what `out` and `err` then hold.
struct Failing {
    line: &'static str,
    faults: Faults<'static>,
    status: u8,
    out: &'static str,
    err: &'static str,
}

// The file is read by two reads, the second of which gives no byte.
static FAILING: [Failing; 11] = [
    Failing {
        line: "run a.elf 6",
        faults: Faults {
            reads: &[1],
            out: &[],
            err: &[],
            most: 4,
        },
        status: 3,
        out: "",
        err: "avf: read fault\n",
    },
    Failing {
        line: "run a.elf 6",
        faults: Faults {
            reads: &[2],
            out: &[],
            err: &[],
            most: 4,
        },
        status: 3,
        out: "",
        err: "avf: read fault\n",
    },
    Failing {
        line: "run a.elf 6",
        faults: Faults {
            reads: &[3],
            out: &[],
            err: &[],
            most: 4,
        },
        status: 0,
        out: "output -\nend exit 7\ninstructions 3\n",
        err: "",
    },
    Failing {
        line: "run b.elf 6",
        faults: Faults {
            reads: &[],
            out: &[],
            err: &[],
            most: 4,
        },
        status: 3,
        out: "",
        err: "avf: read fault\n",
    },
    Failing {
        line: "run a.elf 6",
        faults: Faults {
            reads: &[],
            out: &[3],
            err: &[],
            most: 4,
        },
        status: 7,
        out: "output -",
        err: "avf: write fault\n",
    },
    Failing {
        line: "run a.elf 6",
        faults: Faults {
            reads: &[],
            out: &[1],
            err: &[1],
            most: 4,
        },
        status: 7,
        out: "",
        err: "",
    },
    Failing {
        line: "run a.elf 5",
        faults: Faults {
            reads: &[],
            out: &[],
            err: &[1],
            most: 4,
        },
        status: 5,
        out: "",
        err: "",
    },
    Failing {
        line: "run a.elf 0",
        faults: Faults {
            reads: &[1],
            out: &[1],
            err: &[1],
            most: 4,
        },
        status: 2,
        out: "",
        err: "",
    },
    Failing {
        line: "run b.elf 6",
        faults: Faults {
            reads: &[],
            out: &[],
            err: &[1],
            most: 4,
        },
        status: 3,
        out: "",
        err: "",
    },
    Failing {
        line: "asm b.s",
        faults: Faults {
            reads: &[],
            out: &[],
            err: &[],
            most: 4,
        },
        status: 3,
        out: "",
        err: "avf: read fault\n",
    },
    Failing {
        line: "asm a.elf",
        faults: Faults {
            reads: &[],
            out: &[],
            err: &[],
            most: 4,
        },
        status: 9,
        out: "",
        err: "avf: bad source 1 1\n",
    },
];

fn holds<L: Ledger, M: Ledger>(
    alloc: Global,
    row: &Failing,
    steps: &mut Steps<L>,
    applies: &mut Steps<M>,
) -> Result<bool, OutOfMemory> {
    let given = call(alloc, row.line, b"", &row.faults, steps, applies)?;
    Ok(is_given(&given, row.status, row.out, row.err))
}

// Whether these rows hold.
pub fn faults_hold<L: Ledger, M: Ledger>(
    alloc: Global,
    steps: &mut Steps<L>,
    applies: &mut Steps<M>,
) -> Result<bool, OutOfMemory> {
    for row in &FAILING {
        if !holds(alloc, row, steps, applies)? {
            return Ok(false);
        }
    }
    Ok(true)
}
