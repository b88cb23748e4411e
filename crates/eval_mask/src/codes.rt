// Bits of the code of a completed ID/EX.
ghost use Rattle.std.specs.Prelude.{◌≡◌, ◌↔◌, ◌+◌, ◌<◌, ◌≤◌, IsTrue, true};
ghost use Rattle.pipe_latch.specs.DecodedBits as bits;
ghost use Rattle.eval_mask.specs.Cases.{IsCase};
ghost use Rattle.eval_mask.specs.LatchMasks.{IsDecodedMasked};
ghost use Rattle.eval_mask.specs.OtherDoings.{IsFacts};

use crate::cases::Case;
use crate::completing::doing_with;
use crate::inputs::Facts;
use crate::needed::is_doing_masked;
use bit_field::flip_at_u8;
use need_pass::NeedTable;
use pipe_latch::{ExMem, IdEx, MemWb};
use rv_isa::Arch;
use rv_table::is_clocked;

/// ID/EX with bit `k` of its code flipped.
#[tactic(auto, using(crate::proofs::Fields::op_flipped))]
fn with_code(d: &IdEx, k: u32) -> IdEx
    requires { k < 6 }
    ensures { result ≡ bits.flipped d.now (31 + k) }
{
    let mut op = d.op;
    flip_at_u8(&mut op, 6, k);
    IdEx { op, ..*d }
}

/// Whether bit `k` of the code is masked, where ID/EX is completed.
#[tactic(auto, using(crate::proofs::Doings::own_left))]
pub fn code_bit(
    w: &MemWb,
    m: &ExMem,
    d: &IdEx,
    arch: &Arch<'_>,
    needs: &NeedTable,
    case: &Case,
    facts: Facts,
    k: u32,
) -> bool
    requires within { case.now.first_after ≤ needs.now.count }
    requires case { IsCase needs.now arch.now w.now m.now d.now case.now }
    requires on_path { case.now.on_path ≡ true }
    requires reached { case.now.reached ≡ true }
    requires facts { IsFacts needs.now arch.now d.now case.now facts }
    requires bit { k < 6 }
    ensures { IsTrue result ↔ IsDecodedMasked needs.now arch.now (record { w = w.now; m = m.now; d = d.now }) case.now.oldest.value case.now.npc case.now.issued (31 + k) }
{
    let other = with_code(d, k);
    if is_clocked(&other.instruction()) {
        return false;
    }
    let doing = doing_with(&other, case.a, case.held, case.issued, arch.image());
    is_doing_masked(arch, needs, case, facts, &doing)
}
