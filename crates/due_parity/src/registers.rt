// The registers that one cycle touches.
ghost use Rattle.std.specs.Prelude.{◌≡◌, ◌<◌, ◌+◌, ◌||◌, not, OnOk, None, length, is_some, slice_get, if◌then◌else◌};
ghost use Rattle.inst_buf.specs.Buffer.{entries};
ghost use Rattle.cyc_machine.specs.Pipeline as pipeline;
ghost use Rattle.due_parity.specs.Rows.{IsNotedIn};
ghost use Rattle.due_parity.specs.Touches as touches;

use crate::touch::Touch;
use crate::watched::Watched;
use avf_base::OutOfMemory;
use cyc_machine::{CycleReport, Machine, REGISTERS};
use inst_buf::Slot;
use rv_table::{FETCH_FAULT_CODE, Op, decode};

/// What is seen of ID before a cycle.
#[derive(Clone, Copy)]
pub struct Decoding {
    /// The register that MEM/WB writes, 0 for none.
    pub rd: u8,
    /// Whether ID/EX is empty.
    pub idle: bool,
    /// The first instruction that waits.
    pub head: Option<Slot>,
}

/// What is seen of ID in a machine.
pub fn decoding_of(machine: &Machine<'_>) -> Decoding
    ensures rd { result.rd ≡ machine.now.w.rd }
    ensures idle { result.idle ≡ not machine.now.d.valid }
    ensures head { result.head ≡ slice_get (entries machine.now.buffer) 0 }
{
    Decoding {
        rd: machine.mem_wb().rd,
        idle: !machine.id_ex().valid,
        head: machine.inst_buf().head(),
    }
}

/// The operation of an entry: that of its word, but for the code where its fetch failed.
fn op_of_entry(entry: &Slot) -> Op
    ensures { result ≡ pipeline.op_of_entry entry.now }
{
    let op = decode(entry.word);
    let code = if entry.fault {
        FETCH_FAULT_CODE
    } else {
        op.code
    };
    Op { code, ..op }
}

/// Whether ID takes an instruction: where ID/EX is empty, or what it held has left.
fn takes(idle: bool, issued: Option<u32>) -> bool
    ensures { result ≡ (idle || is_some issued) }
{
    idle || issued.is_some()
}

/// The operation that ID takes in a cycle that is reported so.
pub fn op_taken(decoding: &Decoding, report: &CycleReport) -> Option<Op>
    ensures { result ≡ touches.op_taken (if decoding.now.idle || is_some report.now.issued then decoding.now.head else None) }
{
    if takes(decoding.idle, report.issued) {
        op_of_head(decoding.head)
    } else {
        None
    }
}

fn op_of_head(head: Option<Slot>) -> Option<Op>
    ensures { result ≡ touches.op_taken head }
{
    match head {
        Some(entry) => Some(op_of_entry(&entry)),
        None => None,
    }
}

/// Whether an operation has a register as an operand.
fn names(r: u8, op: Option<Op>) -> bool
    ensures { result ≡ touches.op_names r op }
{
    match op {
        Some(op) => op.rs1 == r || op.rs2 == r,
        None => false,
    }
}

/// What a cycle does to register `r`, where MEM/WB writes register `rd` and ID takes `op`.
fn register_touch(r: u8, rd: u8, op: Option<Op>) -> Touch
    ensures { result ≡ touches.register_touch_by r rd op }
{
    if rd == r {
        Touch::Renewed
    } else if names(r, op) {
        Touch::ReadOut
    } else {
        Touch::Untouched
    }
}

/// Notes a touch of a group in its row.
pub fn note(rows: &mut [Watched], group: usize, cycle: u32, touch: Touch) -> Result<(), OutOfMemory>
    requires { group < length rows.old }
    ensures { OnOk result (IsNotedIn (λ g. touch) cycle group (group + 1) rows.old rows.new) }
{
    rows[group].note(cycle, touch)
}

/// Notes what a cycle does to the registers, where MEM/WB writes register `rd` and ID takes `op`.
pub fn note_registers(
    rows: &mut [Watched],
    cycle: u32,
    rd: u8,
    op: Option<Op>,
) -> Result<(), OutOfMemory>
    requires { length rows.old ≡ REGISTERS }
    ensures { OnOk result (IsNotedIn (λ g. touches.register_touch_by (g + 1) rd op) cycle 0 REGISTERS rows.old rows.new) }
{
    for group in 0..REGISTERS {
        let r = group as u8 + 1;
        note(rows, group, cycle, register_touch(r, rd, op))?;
    }
    Ok(())
}
