//! The bytes of instructions in a text part.
ghost use Rattle.std.specs.Prelude.{◌≡◌, ◌++◌, IsTrue, OnOk};
ghost use Rattle.elf_write.specs.Code.{IsCoded, op_bytes};
ghost use Rattle.rv_table.specs.WellFormed.{well_formed};

use crate::headers::put_word;
use rv_table::{Op, encode};
use std::alloc::AllocError;

/// Puts an instruction behind a text part.
#[tactic(auto, unfolding(crate::specs::Code::op_bytes))]
pub fn put_op(text_part: &mut Vec<u8>, op: &Op) -> Result<(), AllocError>
    requires { IsTrue (well_formed op.now) }
    ensures bytes { OnOk result (text_part.new.items ≡ text_part.old.items ++ op_bytes op.now) }
    ensures coded { OnOk result (IsCoded op.now) }
{
    put_word(text_part, encode(op))
}
