// Execution: what EX makes of the instruction in ID/EX.
ghost use Rattle.std.specs.Prelude.{◌≡◌, ◌/◌, ◌^◌, ◌<◌, true, IfSome};
ghost use Rattle.elf_load.specs.Image.{executable, word_in_ram};
ghost use Rattle.rv_table.specs.Accesses.{store_size};
ghost use Rattle.rv_table.specs.Actions.{action, judged, some_executable};
ghost use Rattle.pipe_latch.specs.Execution as spec;

use crate::{ExMem, IdEx, latch_for};
use elf_load::Image;
use rv_table::{Action, Op, Operation, StoreKind, asked, compute, next_address, operation_of};

/// What an instruction that leaves EX gives: the latch for the memory stage, the word address that comes next, and what
/// the predictor learns, which is whether a branch or jump was taken and the word address that it went to.
#[derive(Clone, Copy)]
pub struct Executed {
    pub latch: ExMem,
    pub next: u32,
    pub learn: Option<(bool, u32)>,
}

/// Executes the instruction in ID/EX, whatever the latch holds, with the operands a and b. For a counter read b is the
/// counter. A code without an instruction traps as ILLEGAL. The predictor learns of branches, JAL and JALR that don't
/// trap.
pub fn execute(d: &IdEx, a: u32, b: u32, image: &Image) -> Executed
    ensures latch { result.latch ≡ spec.executed image.now d.now a b }
    ensures next { result.next ≡ spec.next_of d.now a b }
    ensures learn { result.learn ≡ spec.learned d.now a b }

    ensures next_within { result.next < 2 ^ 30 }
    ensures learn_within { IfSome result.learn (λ target. target.1 < 2 ^ 30) }
{
    Executed {
        latch: latched(d, a, b, image),
        next: next_of(d, a, b),
        learn: learned(d, a, b),
    }
}

#[tactic(auto, unfolding(crate::specs::Execution::next_of))]
fn next_of(d: &IdEx, a: u32, b: u32) -> u32
    ensures next { result ≡ spec.next_of d.now a b }
    ensures within { result < 2 ^ 30 }
{
    next_address(&d.instruction(), d.pc, a, b)
}

#[tactic(auto, unfolding(crate::specs::Execution::learned))]
fn learned(d: &IdEx, a: u32, b: u32) -> Option<(bool, u32)>
    ensures learn { result ≡ spec.learned d.now a b }
    ensures within { IfSome result (λ target. target.1 < 2 ^ 30) }
{
    let op = d.instruction();
    let computed = compute(&op, a, b, 4 * d.pc);
    let misses = computed.taken && computed.target % 4 != 0;
    if is_branch_or_jump(operation_of(op.code)) && !misses {
        Some((computed.taken, next_of(d, a, b)))
    } else {
        None
    }
}

fn is_branch_or_jump(operation: Operation) -> bool
    ensures { result ≡ spec.is_branch_or_jump operation }
{
    matches!(
        operation,
        Operation::Jal | Operation::Jalr | Operation::Branch(_)
    )
}

#[tactic(auto, unfolding(crate::specs::Execution::executed), using(crate::proofs::Actions::action_register, crate::proofs::Actions::action_trap))]
fn latched(d: &IdEx, a: u32, b: u32, image: &Image) -> ExMem
    ensures { result ≡ spec.executed image.now d.now a b }
{
    latch_for(&action_of(&d.instruction(), d.pc, a, b, image))
}

#[tactic(auto, unfolding(rv_table::specs::Actions::action))]
/// What the instruction asks for and is allowed.
fn action_of(op: &Op, pc: u32, a: u32, b: u32, image: &Image) -> Action
    requires { pc < 2 ^ 30 }
    ensures { result ≡ action (word_in_ram image.now) (executable image.now) op.now pc a b }
{
    judged_by_image(asked(op, pc, a, b), image)
}

#[tactic(auto, unfolding(rv_table::specs::Actions::judged, rv_table::specs::Actions::judged_by), using(crate::proofs::Judged::any_executable_some))]
/// What memory makes of an action.
fn judged_by_image(action: Action, image: &Image) -> Action
    ensures { result ≡ judged (word_in_ram image.now) (executable image.now) action }
{
    match action {
        Action::Loads { address, .. } => action.judged(image.word_in_ram(address / 4), false),
        Action::Stores { kind, address, .. } => {
            let in_ram = image.word_in_ram(address / 4);
            action.judged(in_ram, in_ram && overwrites_code(kind, address, image))
        }
        _ => action,
    }
}

#[tactic(auto, using(crate::proofs::Judged::any_executable_some, crate::proofs::Judged::room_above))]
/// Whether a store in RAM writes an executable byte.
fn overwrites_code(kind: StoreKind, address: u32, image: &Image) -> bool
    requires { word_in_ram image.now (address / 4) ≡ true }
    ensures { result ≡ some_executable (executable image.now) address (store_size kind) }
{
    image.is_image();
    image.any_executable(address, kind.size())
}
