// Bits of what a completed ID/EX reads: its operands and its immediate.
ghost use Rattle.std.specs.Prelude.{◌≡◌, ◌↔◌, ◌+◌, ◌*◌, ◌/◌, ◌<◌, ◌≤◌, ℕ, IsTrue, false, true};
ghost use Rattle.rv_table.specs.Operations.{operation_of};
ghost use Rattle.pipe_latch.specs.DecodedBits as bits;
ghost use Rattle.eval_mask.specs.Aftermaths.{doing_with, operand_after};
ghost use Rattle.rv_table.specs.Arithmetic.{sum32};
ghost use Rattle.eval_mask.specs.Cases.{IsCase};
ghost use Rattle.eval_mask.specs.Compared.{IsKnown, SameWhere, covers, need_at};
ghost use Rattle.eval_mask.specs.LatchMasks.{IsDecodedMasked};
ghost use Rattle.bit_field.specs.Layouts.{flip};
ghost use Rattle.eval_mask.specs.Unread.{DoesTheSame};
ghost use Rattle.eval_mask.specs.OtherDoings.{DoesAlike, IsFacts, IsLike, NeedsOwn, first_bit};

use crate::cases::Case;
use crate::compare::same_word;
use crate::completing::{Store, Write, doing_with, operand_after};
use crate::needed::{is_doing_masked, is_idle, is_quiet};
use bit_field::{Struck, flip_at_u8, flip_at_u32};
use need_pass::NeedTable;
use pipe_latch::{ExMem, IdEx, MemWb};
use rv_isa::Arch;
use rv_table::{Operation, alu, operation_of};

/// What ID/EX reads besides its code and the numbers of registers.
#[derive(Clone, Copy)]
pub enum Input {
    A,
    B,
    Immediate,
}

/// What is worked out once of ID/EX, for all its bits.
#[derive(Clone, Copy)]
pub struct Facts {
    pub operation: Operation,
    /// Whether what ID/EX changes is known to be needed.
    pub needed: bool,
    /// Whether it is known not to be.
    pub idle: bool,
}

/// What is worked out once of ID/EX.
pub fn facts_of(arch: &Arch<'_>, needs: &NeedTable, case: &Case, d: &IdEx) -> Facts
    requires within { case.now.first_after ≤ needs.now.count }
    requires known { IsKnown needs.now case.now.first_after case.now.known }
    ensures { IsFacts needs.now arch.now d.now case.now result }
{
    let idle = is_idle(arch, needs, case);
    Facts {
        operation: operation_of(d.op),
        needed: !idle && is_quiet(case),
        idle,
    }
}

/// The first bit of what ID/EX reads.
pub fn first_bit(input: Input) -> u32
    ensures { result ≡ first_bit input }
{
    match input {
        Input::A => 52,
        Input::B => 84,
        Input::Immediate => 116,
    }
}

/// ID/EX with bit `k` of what it reads flipped.
fn with_flip(d: &IdEx, input: Input, k: u32) -> IdEx
    requires { k < 32 }
    ensures { result ≡ bits.flipped d.now (first_bit input + k) }
{
    match input {
        Input::A => with_a(d, k),
        Input::B => with_b(d, k),
        Input::Immediate => with_immediate(d, k),
    }
}

#[tactic(auto, using(crate::proofs::Fields::a_flipped))]
fn with_a(d: &IdEx, k: u32) -> IdEx
    requires { k < 32 }
    ensures { result ≡ bits.flipped d.now (52 + k) }
{
    let mut a = d.a;
    flip_at_u32(&mut a, 32, k);
    IdEx { a, ..*d }
}

#[tactic(auto, using(crate::proofs::Fields::b_flipped))]
fn with_b(d: &IdEx, k: u32) -> IdEx
    requires { k < 32 }
    ensures { result ≡ bits.flipped d.now (84 + k) }
{
    let mut b = d.b;
    flip_at_u32(&mut b, 32, k);
    IdEx { b, ..*d }
}

#[tactic(auto, using(crate::proofs::Fields::immediate_flipped))]
fn with_immediate(d: &IdEx, k: u32) -> IdEx
    requires { k < 32 }
    ensures { result ≡ bits.flipped d.now (116 + k) }
{
    let mut imm = d.imm;
    flip_at_u32(&mut imm, 32, k);
    IdEx { imm, ..*d }
}

/// Whether another value in the register that ID/EX writes is the same where it is needed.
fn is_value_alike(case: &Case, value: u32) -> bool
    ensures { IsTrue result ↔ SameWhere 32 case.now.known.above.mask value case.now.own.above.write.value }
{
    same_word(case.known.above.mask, value, case.own.above.write.value)
}

/// The immediate.
pub fn immediate_of(d: &IdEx) -> u32
    ensures { result ≡ d.now.imm }
{
    d.imm
}

/// The immediate added to the byte address.
fn address_of(d: &IdEx) -> u32
    ensures { result ≡ sum32 (4 * d.now.pc) d.now.imm }
{
    (4 * d.pc).wrapping_add(d.imm)
}

/// The first operand, once EX/MEM has written `below` and MEM/WB what it holds.
fn first_operand(below: &Write, w: &MemWb, d: &IdEx) -> u32
    ensures { result ≡ operand_after below.now w.now d.now.rs1 d.now.a }
{
    operand_after(below, w, d.rs1, d.a)
}

/// The second.
fn second_operand(below: &Write, w: &MemWb, d: &IdEx) -> u32
    ensures { result ≡ operand_after below.now w.now d.now.rs2 d.now.b }
{
    operand_after(below, w, d.rs2, d.b)
}

/// A byte address from operand a on.
fn address_from(a: u32, d: &IdEx) -> u32
    ensures { result ≡ sum32 a d.now.imm }
{
    a.wrapping_add(d.imm)
}

/// Whether a byte address is in another word than a store.
fn is_elsewhere(store: &Option<Store>, address: u32) -> bool
    ensures { IsTrue result → (p : ℕ) → covers store.now p ≡ true → p / 4 ≡ address / 4 → ⊥ }
{
    match *store {
        Some(store) => address / 4 != store.address / 4,
        None => true,
    }
}

/// Whether the same is left, where it is needed, by a latch that differs from ID/EX in what it reads alone, with operands a and `held`.
#[tactic(auto, using(crate::proofs::ReadInputs::plain_alikes))]
fn is_alike(
    arch: &Arch<'_>,
    needs: &NeedTable,
    case: &Case,
    facts: Facts,
    other: &IdEx,
    a: u32,
    held: u32,
) -> bool
    requires within { case.now.first_after ≤ needs.now.count }
    requires need { case.now.known.above.mask ≡ need_at needs.now case.now.own.above.write.rd case.now.first_after }
    requires known { IsKnown needs.now case.now.first_after case.now.known }
    requires like { IsLike arch.now case.now other.now }
    requires facts { IsFacts needs.now arch.now other.now case.now facts }
    ensures { IsTrue result ↔ DoesAlike needs.now arch.now case.now (doing_with arch.now.image other.now case.now.issued a held) }
{
    match facts.operation {
        Operation::Lui => is_value_alike(case, immediate_of(other)),
        Operation::Auipc => is_value_alike(case, address_of(other)),
        Operation::AluImmediate(kind) => {
            is_value_alike(case, alu(kind, a, immediate_of(other)))
        },
        Operation::Alu(kind) => is_value_alike(case, alu(kind, a, held)),
        Operation::Store(_)
            if facts.needed && is_elsewhere(&case.own.above.store, address_from(a, other)) => false,
        _ => {
            let doing = doing_with(other, a, held, case.issued, arch.image());
            is_doing_masked(arch, needs, case, facts, &doing)
        }
    }
}

/// Whether a bit of what a completed ID/EX reads is masked, where `other` is ID/EX with that bit flipped.
pub fn is_input_masked(
    w: &MemWb,
    m: &ExMem,
    d: &IdEx,
    arch: &Arch<'_>,
    needs: &NeedTable,
    case: &Case,
    facts: Facts,
    other: &IdEx,
) -> bool
    requires within { case.now.first_after ≤ needs.now.count }
    requires case { IsCase needs.now arch.now w.now m.now d.now case.now }
    requires on_path { case.now.on_path ≡ true }
    requires reached { case.now.reached ≡ true }
    requires unread { case.now.reads_clock ≡ false }
    requires facts { IsFacts needs.now arch.now d.now case.now facts }
    requires op { other.now.op ≡ d.now.op }
    requires rd { other.now.rd ≡ d.now.rd }
    requires pc { other.now.pc ≡ d.now.pc }
    ensures { (k : ℕ) → 31 ≤ k → k < 148 → other.now ≡ bits.flipped d.now k → IsTrue result ↔ IsDecodedMasked needs.now arch.now (record { w = w.now; m = m.now; d = d.now }) case.now.oldest.value case.now.npc case.now.issued k }
{
    let below = &case.own.below.write;
    let a = first_operand(below, w, other);
    let held = second_operand(below, w, other);
    is_alike(arch, needs, case, facts, other, a, held)
}

/// Whether bit `k` of one of ID/EX's inputs is masked, where ID/EX is completed.
pub fn input_bit(
    w: &MemWb,
    m: &ExMem,
    d: &IdEx,
    arch: &Arch<'_>,
    needs: &NeedTable,
    case: &Case,
    facts: Facts,
    input: Input,
    k: u32,
) -> bool
    requires within { case.now.first_after ≤ needs.now.count }
    requires case { IsCase needs.now arch.now w.now m.now d.now case.now }
    requires on_path { case.now.on_path ≡ true }
    requires reached { case.now.reached ≡ true }
    requires unread { case.now.reads_clock ≡ false }
    requires facts { IsFacts needs.now arch.now d.now case.now facts }
    requires bit { k < 32 }
    ensures { IsTrue result ↔ IsDecodedMasked needs.now arch.now (record { w = w.now; m = m.now; d = d.now }) case.now.oldest.value case.now.npc case.now.issued (first_bit input + k) }
{
    let other = with_flip(d, input, k);
    is_input_masked(w, m, d, arch, needs, case, facts, &other)
}

/// The first operand under the number of its register with bit `k` flipped.
fn first_under(below: &Write, w: &MemWb, d: &IdEx, k: u32) -> u32
    requires { k < 5 }
    ensures { result ≡ operand_after below.now w.now (flip d.now.rs1 k) d.now.a }
{
    let mut number = d.rs1;
    flip_at_u8(&mut number, 5, k);
    operand_after(below, w, number, d.a)
}

/// The second.
fn second_under(below: &Write, w: &MemWb, d: &IdEx, k: u32) -> u32
    requires { k < 5 }
    ensures { result ≡ operand_after below.now w.now (flip d.now.rs2 k) d.now.b }
{
    let mut number = d.rs2;
    flip_at_u8(&mut number, 5, k);
    operand_after(below, w, number, d.b)
}

/// Whether ID/EX with bit `k` flipped, one of its two numbers of registers that it reads, has the operands of the case.
#[tactic(auto, using(crate::proofs::Numbers::first_kept_at, crate::proofs::Numbers::second_kept_at))]
fn keeps_operands(case: &Case, w: &MemWb, d: &IdEx, k: u32) -> bool
    requires a { case.now.a ≡ operand_after case.now.own.below.write w.now d.now.rs1 d.now.a }
    requires held { case.now.held ≡ operand_after case.now.own.below.write w.now d.now.rs2 d.now.b }
    requires from { 42 ≤ k }
    requires to { k < 52 }
    ensures { IsTrue result → DoesTheSame w.now case.now.own.below.write d.now (bits.flipped d.now k) }
{
    let below = &case.own.below.write;
    if k < 47 {
        return first_under(below, w, d, k - 42) == case.a;
    }
    second_under(below, w, d, k - 47) == case.held
}

/// Whether bit `k` of ID/EX, one of its two numbers of registers that it reads, is masked, where ID/EX is completed.
pub fn number_bit(
    w: &MemWb,
    m: &ExMem,
    d: &IdEx,
    arch: &Arch<'_>,
    needs: &NeedTable,
    case: &Case,
    facts: Facts,
    k: u32,
) -> bool
    requires within { case.now.first_after ≤ needs.now.count }
    requires case { IsCase needs.now arch.now w.now m.now d.now case.now }
    requires on_path { case.now.on_path ≡ true }
    requires reached { case.now.reached ≡ true }
    requires unread { case.now.reads_clock ≡ false }
    requires facts { IsFacts needs.now arch.now d.now case.now facts }
    requires from { 42 ≤ k }
    requires to { k < 52 }
    ensures { IsTrue result ↔ IsDecodedMasked needs.now arch.now (record { w = w.now; m = m.now; d = d.now }) case.now.oldest.value case.now.npc case.now.issued k }
{
    if keeps_operands(case, w, d, k) {
        return true;
    }
    let mut other = *d;
    other.flip(k);
    is_input_masked(w, m, d, arch, needs, case, facts, &other)
}
