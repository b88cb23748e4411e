// Forwarding: what the results in EX/MEM and MEM/WB make of a value held for a register.
ghost use Rattle.std.specs.Prelude.{◌≡◌, ◌↔◌};
ghost use Rattle.pipe_latch.specs.Forwarding as spec;
ghost use Rattle.pipe_latch.specs.LatchedActions.{action_of};

use crate::{ExMem, MemWb};
use rv_table::Action;

/// An operand in EX: its value, or that a load must be waited for.
#[derive(Clone, Copy, PartialEq, Eq)]
pub enum Forwarded {
    Value(u32),
    Wait,
}

#[tactic(auto, using(crate::proofs::Operands::waits_exactly))]
/// The operand of register `rs` with the held value: EX/MEM is younger than MEM/WB, a load in EX/MEM must be waited for,
/// and register 0 is never forwarded.
pub fn operand(rs: u8, held: u32, m: &ExMem, w: &MemWb) -> Forwarded
    ensures operand { result ≡ spec.operand (action_of m.now) w.now rs held }
    ensures waits { (result ≡ Forwarded.Wait) ↔ spec.IsAwaited m.now rs }
{
    bypass(&m.action(), w, rs, held)
}

#[tactic(auto, unfolding(crate::specs::Forwarding::operand, crate::specs::Forwarding::late))]
/// The operand of register `rs` with the held value, where EX/MEM does `m`.
pub fn bypass(m: &Action, w: &MemWb, rs: u8, held: u32) -> Forwarded
    ensures { result ≡ spec.operand m.now w.now rs held }
{
    if rs == 0 {
        return Forwarded::Value(held);
    }
    match *m {
        Action::Loads { rd, .. } if rd == rs => Forwarded::Wait,
        Action::Writes { rd, value } if rd == rs => Forwarded::Value(value),
        _ => Forwarded::Value(late(rs, held, w)),
    }
}

#[tactic(auto, unfolding(crate::specs::Forwarding::late))]
/// The late value of register `rs`: what MEM/WB holds for it, else the value held so far.
pub fn late(rs: u8, held: u32, w: &MemWb) -> u32
    ensures { result ≡ spec.late w.now rs held }
{
    if rs != 0 && rs == w.rd { w.value } else { held }
}
