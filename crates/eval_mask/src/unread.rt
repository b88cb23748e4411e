// Which fields of ID/EX the instruction doesn't read.
ghost use Rattle.std.specs.Prelude.{◌≡◌};
ghost use Rattle.eval_mask.specs.Unread as spec;

use crate::completing::Write;
use pipe_latch::{IdEx, MemWb};
use rv_table::{Operation, operation_of};

fn reads_a(operation: Operation) -> bool
    ensures { result ≡ spec.reads_a operation }
{
    matches!(
        operation,
        Operation::Jalr
            | Operation::Branch(_)
            | Operation::Load(_)
            | Operation::Store(_)
            | Operation::AluImmediate(_)
            | Operation::Alu(_)
            | Operation::Ecall
    )
}

fn reads_b(operation: Operation) -> bool
    ensures { result ≡ spec.reads_b operation }
{
    matches!(
        operation,
        Operation::Branch(_) | Operation::Store(_) | Operation::Alu(_) | Operation::Ecall
    )
}

fn reads_immediate(operation: Operation) -> bool
    ensures { result ≡ spec.reads_immediate operation }
{
    matches!(
        operation,
        Operation::Lui
            | Operation::Auipc
            | Operation::Jal
            | Operation::Jalr
            | Operation::Branch(_)
            | Operation::Load(_)
            | Operation::Store(_)
            | Operation::AluImmediate(_)
    )
}

/// Whether the register that it names is one that it writes.
pub fn writes_register(operation: Operation) -> bool
    ensures { result ≡ spec.writes_register operation }
{
    matches!(
        operation,
        Operation::Lui
            | Operation::Auipc
            | Operation::Jal
            | Operation::Jalr
            | Operation::Load(_)
            | Operation::AluImmediate(_)
            | Operation::Alu(_)
            | Operation::ReadCounter(_)
    )
}

/// Whether EX/MEM, which writes `below`, or MEM/WB hands in the operand of register `rs`.
fn is_forwarded(below: &Write, w: &MemWb, rs: u8) -> bool
    ensures { result ≡ spec.is_forwarded below.now w.now rs }
{
    rs != 0 && (rs == below.rd || rs == w.rd)
}

/// Whether what ID/EX does is the same with any value of its first operand.
pub fn is_a_unread(w: &MemWb, d: &IdEx, below: &Write) -> bool
    ensures { result ≡ spec.is_a_unread w.now d.now below.now }
{
    !reads_a(operation_of(d.op)) || is_forwarded(below, w, d.rs1)
}

/// Whether it is with any value of its second.
pub fn is_b_unread(w: &MemWb, d: &IdEx, below: &Write) -> bool
    ensures { result ≡ spec.is_b_unread w.now d.now below.now }
{
    !reads_b(operation_of(d.op)) || is_forwarded(below, w, d.rs2)
}

/// Whether it is with any immediate.
pub fn is_immediate_unread(d: &IdEx) -> bool
    ensures { result ≡ spec.is_immediate_unread d.now }
{
    !reads_immediate(operation_of(d.op))
}
