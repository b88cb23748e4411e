// EX: what becomes of ID/EX, and what its instruction leaves behind.
ghost use Rattle.std.specs.Prelude.{◌≡◌, ◌<◌, ◌^◌, ℕ, Bool};
ghost use Rattle.std.specs.Option.{ForSome};
ghost use Rattle.cyc_machine.specs.Pipeline as pipeline;

use crate::fate::Fate;
use elf_load::Image;
use pipe_latch::{ExMem, Executed, Forwarded, IdEx, MemWb, bypass, execute};
use predictor::Predictor;
use rv_table::{Action, is_counter, with_counter};

// What becomes of ID/EX; `m` is what EX/MEM does. `mem_goes` says whether EX/MEM leaves in this cycle.
#[tactic(auto, unfolding(crate::specs::Pipeline::fate_of))]
pub fn fate_of(d: &IdEx, npc: u32, m: &Action, w: &MemWb, mem_goes: bool) -> Fate
    ensures { result ≡ pipeline.fate_of d.now npc m.now w.now mem_goes }
{
    if !d.valid {
        Fate::Absent
    } else if d.pc != npc {
        Fate::Dropped
    } else if d.count == 0 && mem_goes {
        goes_with(bypass(m, w, d.rs1, d.a), operand_b(d, m, w))
    } else {
        Fate::Stays
    }
}

fn goes_with(a: Forwarded, b: Forwarded) -> Fate
    ensures { result ≡ pipeline.goes_with a b }
{
    match a {
        Forwarded::Value(a) => match b {
            Forwarded::Value(b) => Fate::Goes { a, b },
            Forwarded::Wait => Fate::Stays,
        },
        Forwarded::Wait => Fate::Stays,
    }
}

// Operand b, for which a counter read never waits.
#[tactic(auto, unfolding(crate::specs::Pipeline::operand_b))]
fn operand_b(d: &IdEx, m: &Action, w: &MemWb) -> Forwarded
    ensures { result ≡ pipeline.operand_b d.now m.now w.now }
{
    if is_counter(&d.instruction()) {
        Forwarded::Value(0)
    } else {
        bypass(m, w, d.rs2, d.b)
    }
}

/// The numbers that a counter read gives: that of this cycle, and the count of instructions that left EX before it.
#[derive(Clone, Copy)]
pub struct Counts {
    pub cycle: u32,
    pub issued: u32,
}

/// What EX leaves behind in a cycle.
#[derive(Clone, Copy)]
pub struct Issue {
    pub executed: ExMem,
    pub npc: u32,
    pub lesson: Option<(bool, u32)>,
    pub issued: u32,
}

// What EX leaves behind.
#[tactic(auto, unfolding(crate::specs::Pipeline::executed_after, crate::specs::Pipeline::npc_after, crate::specs::Pipeline::lesson, crate::specs::Pipeline::issued_after, crate::specs::Pipeline::counted))]
pub fn leave_execution(
    image: &Image,
    fate: &Fate,
    mem_goes: bool,
    d: &IdEx,
    now: Counts,
    npc: u32,
    m: &ExMem,
) -> Issue
    requires { npc < 2 ^ 30 }
    ensures executed { result.executed ≡ pipeline.executed_after image.now fate.now mem_goes d.now now.cycle now.issued m.now }
    ensures npc { result.npc ≡ pipeline.npc_after fate.now d.now now.cycle now.issued npc }
    ensures lesson { result.lesson ≡ pipeline.lesson fate.now d.now now.cycle now.issued }
    ensures issued { result.issued ≡ pipeline.issued_after fate.now now.issued }
    ensures within { result.npc < 2 ^ 30 }
    ensures target { ForSome result.lesson (λ lesson. lesson.1 < 2 ^ 30) }
{
    match fate {
        Fate::Goes { a, b } => {
            let b = with_counter(&d.instruction(), now.cycle, now.issued, *b);
            let Executed { latch, next, learn } = execute(d, *a, b, image);
            Issue {
                executed: latch,
                npc: next,
                lesson: learn,
                issued: now.issued.wrapping_add(1),
            }
        }
        _ => Issue {
            executed: if mem_goes { ExMem::empty() } else { *m },
            npc,
            lesson: None,
            issued: now.issued,
        },
    }
}

// The predictor learns of the branch or jump at `pc`.
pub fn train(predictor: &mut Predictor, lesson: Option<(bool, u32)>, pc: u32)
    requires pc { pc < 2 ^ 30 }
    requires target { ForSome lesson (λ lesson. lesson.1 < 2 ^ 30) }
    ensures { predictor.new ≡ pipeline.trained_by lesson pc predictor.old }
{
    if let Some((taken, target)) = lesson {
        predictor.learn(pc, taken, target);
    }
}
