// What an instruction computes of its operands.
ghost use Rattle.std.specs.Prelude.{◌≡◌};
ghost use Rattle.rv_table.specs.Actions.{taken, target, value};

use crate::{Op, Operation, alu, holds, operation_of};

/// What an instruction computes. `value` is the result or the byte address accessed, 0 where there is neither;
/// `target` is the byte address where a taken branch or jump goes, aligned or not, and the address plus 4 for all else.
#[derive(Clone, Copy)]
pub struct Computed {
    pub value: u32,
    pub target: u32,
    pub taken: bool,
}

/// What an instruction computes of the values a of rs1 and b of rs2, at byte address `pc`. For a counter read b is the
/// counter. Tells nothing of traps.
pub fn compute(op: &Op, a: u32, b: u32, pc: u32) -> Computed
    ensures value { result.value ≡ value op.now pc a b }
    ensures target { result.target ≡ target op.now pc a b }
    ensures taken { result.taken ≡ taken op.now a b }
{
    Computed {
        value: value_of(op, a, b, pc),
        target: target_of(op, a, b, pc),
        taken: is_taken(op, a, b),
    }
}

#[tactic(auto, unfolding(crate::specs::Actions::value_by))]
/// The result or the byte address accessed, 0 where there is neither.
fn value_of(op: &Op, a: u32, b: u32, pc: u32) -> u32
    ensures { result ≡ value op.now pc a b }
{
    match operation_of(op.code) {
        Operation::Lui => op.imm,
        Operation::Auipc => pc.wrapping_add(op.imm),
        Operation::Jal | Operation::Jalr => pc.wrapping_add(4),
        Operation::Load(_) | Operation::Store(_) => a.wrapping_add(op.imm),
        Operation::AluImmediate(kind) => alu(kind, a, op.imm),
        Operation::Alu(kind) => alu(kind, a, b),
        Operation::ReadCounter(_) => b,
        _ => 0,
    }
}

#[tactic(auto, unfolding(crate::specs::Actions::taken_by))]
/// Whether it is a jump or a branch whose comparison holds.
fn is_taken(op: &Op, a: u32, b: u32) -> bool
    ensures { result ≡ taken op.now a b }
{
    match operation_of(op.code) {
        Operation::Jal | Operation::Jalr => true,
        Operation::Branch(kind) => holds(kind, a, b),
        _ => false,
    }
}

#[tactic(auto, unfolding(crate::specs::Actions::target_by))]
/// Where a taken branch or jump goes, the address plus 4 for all else.
fn target_of(op: &Op, a: u32, b: u32, pc: u32) -> u32
    ensures { result ≡ target op.now pc a b }
{
    match operation_of(op.code) {
        Operation::Jal => pc.wrapping_add(op.imm),
        Operation::Jalr => a.wrapping_add(op.imm) / 2 * 2,
        Operation::Branch(kind) if holds(kind, a, b) => pc.wrapping_add(op.imm),
        _ => pc.wrapping_add(4),
    }
}
