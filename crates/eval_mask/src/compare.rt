// Whether two aftermaths agree where it is needed.
ghost use Rattle.std.specs.Prelude.{◌≡◌, ◌↔◌, ◌+◌, ◌^◌, ◌<◌, ◌≤◌, ℕ, IsTrue, Some, slice_index};
ghost use Rattle.need_pass.specs.Tables.{byte_need, reg_need};
ghost use Rattle.rv_isa.specs.Architecture.{state_of};
ghost use Rattle.eval_mask.specs.Aftermaths.{memory_after, output_after, registers_after, state_after, written};
ghost use Rattle.eval_mask.specs.Agreement.{Agree};
ghost use Rattle.eval_mask.specs.Compared as spec;
ghost use Rattle.eval_mask.specs.Compared.{IsKnown, SameByte, SameBytes, SameCovered, SameNext, SameRegister, SameRegisters, SameRun, SameStored, SameWhere, SameWritten, covers, first_of, second_of};

use crate::completing::{Aftermath, Store, Write, register_over};
use avf_base::End;
use need_pass::NeedTable;
use rv_isa::Arch;
use rv_table::StoreKind;

/// The needed bits of a register.
#[derive(Clone, Copy)]
pub struct RegisterNeed {
    pub r: u8,
    pub mask: u32,
}

/// The needs of the registers that MEM/WB, EX/MEM and ID/EX write.
#[derive(Clone, Copy)]
pub struct Known {
    pub first: RegisterNeed,
    pub below: RegisterNeed,
    pub above: RegisterNeed,
}

/// Whether two words are the same in the bits of a mask.
pub fn same_word(mask: u32, a: u32, b: u32) -> bool
    ensures { IsTrue result ↔ SameWhere 32 mask a b }
{
    mask & (a ^ b) == 0
}

fn same_bits(mask: u8, a: u8, b: u8) -> bool
    ensures { IsTrue result ↔ SameWhere 8 mask a b }
{
    mask & (a ^ b) == 0
}

/// The needed bits of register `r`, none of a number that names none.
fn need_at(needs: &NeedTable, r: u8, at: u32) -> u32
    requires { at ≤ needs.now.count }
    ensures { result ≡ spec.need_at needs.now r at }
{
    if 0 < r && r < 32 {
        needs.reg_need(r, at)
    } else {
        0
    }
}

fn look_up(needs: &NeedTable, r: u8, at: u32) -> RegisterNeed
    requires { at ≤ needs.now.count }
    ensures register { result.r ≡ r }
    ensures mask { result.mask ≡ spec.need_at needs.now r at }
{
    RegisterNeed {
        r,
        mask: need_at(needs, r, at),
    }
}

/// The needs, before instruction `at`, of the registers that are written.
pub fn known_needs(needs: &NeedTable, at: u32, left: &Aftermath) -> Known
    requires { at ≤ needs.now.count }
    ensures known { IsKnown needs.now at result }
    ensures first { result.first.mask ≡ spec.need_at needs.now left.now.first.rd at }
    ensures below { result.below.mask ≡ spec.need_at needs.now left.now.below.write.rd at }
    ensures above { result.above.mask ≡ spec.need_at needs.now left.now.above.write.rd at }
{
    Known {
        first: look_up(needs, left.first.rd, at),
        below: look_up(needs, left.below.write.rd, at),
        above: look_up(needs, left.above.write.rd, at),
    }
}

/// The needed bits of register `r`, looked up only where they aren't known.
#[tactic(auto, using(crate::proofs::Differences::known_mask))]
fn reg_need(needs: &NeedTable, at: u32, known: &Known, r: u8) -> u32
    requires above { 0 < r }
    requires below { r < 32 }
    requires at { at ≤ needs.now.count }
    requires known { IsKnown needs.now at known.now }
    ensures { result ≡ reg_need needs.now r at }
{
    if r == known.above.r {
        return known.above.mask;
    }
    if r == known.below.r {
        return known.below.mask;
    }
    if r == known.first.r {
        return known.first.mask;
    }
    needs.reg_need(r, at)
}

/// Whether two values of register `r` are the same where it is needed. Need is asked only where they differ.
#[tactic(auto, using(crate::proofs::Differences::same_all))]
pub fn same_values(needs: &NeedTable, at: u32, known: &Known, r: u8, a: u32, b: u32) -> bool
    requires above { 0 < r }
    requires below { r < 32 }
    requires at { at ≤ needs.now.count }
    requires known { IsKnown needs.now at known.now }
    ensures { IsTrue result ↔ SameWhere 32 (reg_need needs.now r at) a b }
{
    a == b || same_word(reg_need(needs, at, known, r), a, b)
}

/// Whether two values of the byte at a byte address are the same where it is needed.
#[tactic(auto, using(crate::proofs::Differences::same_all))]
pub fn same_byte_values(needs: &NeedTable, at: u32, address: u32, a: u8, b: u8) -> bool
    requires { at ≤ needs.now.count }
    ensures { IsTrue result ↔ SameWhere 8 (byte_need needs.now address at) a b }
{
    a == b || same_bits(needs.byte_need(address, at), a, b)
}

/// Whether register `r` is the same where it is needed. Register 0 is never needed.
fn same_register(
    arch: &Arch<'_>,
    oldest: &Write,
    needs: &NeedTable,
    at: u32,
    known: &Known,
    left: &Aftermath,
    other: &Aftermath,
    r: u8,
) -> bool
    requires at { at ≤ needs.now.count }
    requires known { IsKnown needs.now at known.now }
    ensures { IsTrue result ↔ SameRegister needs.now at (registers_after left.now (written oldest.now (slice_index arch.now.registers))) (registers_after other.now (written oldest.now (slice_index arch.now.registers))) r }
{
    if r == 0 || r > 31 {
        return true;
    }
    let before = register_over(oldest, r, arch.reg(r));
    same_values(
        needs,
        at,
        known,
        r,
        left.register(r, before),
        other.register(r, before),
    )
}

fn same_write(a: &Write, b: &Write) -> bool
    ensures { IsTrue result ↔ (a.now ≡ b.now) }
{
    *a == *b
}

/// Whether two writes, one of each aftermath, are the same, or the registers that they write are the same where they are needed.
#[tactic(auto, using(crate::proofs::Differences::registers_told))]
fn same_written(
    arch: &Arch<'_>,
    oldest: &Write,
    needs: &NeedTable,
    at: u32,
    known: &Known,
    left: &Aftermath,
    other: &Aftermath,
    a: &Write,
    b: &Write,
) -> bool
    requires at { at ≤ needs.now.count }
    requires known { IsKnown needs.now at known.now }
    ensures same { IsTrue result → SameWritten needs.now at (registers_after left.now (written oldest.now (slice_index arch.now.registers))) (registers_after other.now (written oldest.now (slice_index arch.now.registers))) a.now b.now }
    ensures all { SameRegisters needs.now at (registers_after left.now (written oldest.now (slice_index arch.now.registers))) (registers_after other.now (written oldest.now (slice_index arch.now.registers))) → IsTrue result }
{
    same_write(a, b)
        || same_register(arch, oldest, needs, at, known, left, other, a.rd)
            && same_register(arch, oldest, needs, at, known, left, other, b.rd)
}

/// Whether all registers are the same where they are needed. Only a register that is written differently can differ.
#[tactic(auto, using(crate::proofs::Differences::all_registers))]
fn same_registers(
    arch: &Arch<'_>,
    oldest: &Write,
    needs: &NeedTable,
    at: u32,
    known: &Known,
    left: &Aftermath,
    other: &Aftermath,
) -> bool
    requires at { at ≤ needs.now.count }
    requires known { IsKnown needs.now at known.now }
    ensures { IsTrue result ↔ SameRegisters needs.now at (registers_after left.now (written oldest.now (slice_index arch.now.registers))) (registers_after other.now (written oldest.now (slice_index arch.now.registers))) }
{
    same_written(
        arch,
        oldest,
        needs,
        at,
        known,
        left,
        other,
        &left.above.write,
        &other.above.write,
    ) && same_written(
        arch,
        oldest,
        needs,
        at,
        known,
        left,
        other,
        &left.below.write,
        &other.below.write,
    ) && same_written(
        arch,
        oldest,
        needs,
        at,
        known,
        left,
        other,
        &left.first,
        &other.first,
    )
}

/// Whether the byte at a byte address is the same where it is needed.
fn same_byte(
    arch: &Arch<'_>,
    needs: &NeedTable,
    at: u32,
    left: &Aftermath,
    other: &Aftermath,
    address: u32,
) -> bool
    requires { at ≤ needs.now.count }
    ensures { IsTrue result ↔ SameByte needs.now at (memory_after left.now (state_of arch.now).memory) (memory_after other.now (state_of arch.now).memory) address }
{
    let before = arch.byte(address);
    same_byte_values(
        needs,
        at,
        address,
        left.byte(address, before),
        other.byte(address, before),
    )
}

/// The same for two bytes from an address on.
#[tactic(auto, using(crate::proofs::Differences::two))]
fn same_two(
    arch: &Arch<'_>,
    needs: &NeedTable,
    at: u32,
    left: &Aftermath,
    other: &Aftermath,
    from: u32,
) -> bool
    requires at { at ≤ needs.now.count }
    requires room { from + 2 ≤ 2 ^ 32 }
    ensures { IsTrue result ↔ SameRun needs.now at (memory_after left.now (state_of arch.now).memory) (memory_after other.now (state_of arch.now).memory) from 2 }
{
    same_byte(arch, needs, at, left, other, from)
        && same_byte(arch, needs, at, left, other, from + 1)
}

/// And for four.
#[tactic(auto, using(crate::proofs::Differences::four))]
fn same_four(
    arch: &Arch<'_>,
    needs: &NeedTable,
    at: u32,
    left: &Aftermath,
    other: &Aftermath,
    from: u32,
) -> bool
    requires at { at ≤ needs.now.count }
    requires room { from + 4 ≤ 2 ^ 32 }
    ensures { IsTrue result ↔ SameRun needs.now at (memory_after left.now (state_of arch.now).memory) (memory_after other.now (state_of arch.now).memory) from 4 }
{
    same_two(arch, needs, at, left, other, from) && same_two(arch, needs, at, left, other, from + 2)
}

fn same_stored(
    arch: &Arch<'_>,
    needs: &NeedTable,
    at: u32,
    left: &Aftermath,
    other: &Aftermath,
    store: &Store,
) -> bool
    requires { at ≤ needs.now.count }
    ensures { IsTrue result ↔ SameCovered needs.now at (memory_after left.now (state_of arch.now).memory) (memory_after other.now (state_of arch.now).memory) (Some store.now) }
{
    match store.kind {
        StoreKind::Sb => same_byte(arch, needs, at, left, other, store.address),
        StoreKind::Sh => same_two(arch, needs, at, left, other, store.address / 2 * 2),
        StoreKind::Sw => same_four(arch, needs, at, left, other, store.address / 4 * 4),
    }
}

/// Whether the bytes of a store are the same where they are needed.
fn same_covered(
    arch: &Arch<'_>,
    needs: &NeedTable,
    at: u32,
    left: &Aftermath,
    other: &Aftermath,
    store: &Option<Store>,
) -> bool
    requires { at ≤ needs.now.count }
    ensures { IsTrue result ↔ SameCovered needs.now at (memory_after left.now (state_of arch.now).memory) (memory_after other.now (state_of arch.now).memory) store.now }
{
    match store {
        Some(store) => same_stored(arch, needs, at, left, other, store),
        None => true,
    }
}

/// Whether two stores, or none, are the same.
pub fn same_store(a: &Option<Store>, b: &Option<Store>) -> bool
    ensures { IsTrue result ↔ (a.now ≡ b.now) }
{
    *a == *b
}

/// Whether two stores write the same bytes, or neither is one.
fn same_place(a: &Option<Store>, b: &Option<Store>) -> bool
    ensures { IsTrue result → (p : ℕ) → covers a.now p ≡ covers b.now p }
{
    match (*a, *b) {
        (Some(a), Some(b)) => a.kind == b.kind && a.address == b.address,
        (None, None) => true,
        _ => false,
    }
}

/// Whether two stores, one of each aftermath, are the same, or the bytes that they write are the same where they are needed.
#[tactic(auto, using(crate::proofs::Differences::bytes_told))]
pub fn same_overwritten(
    arch: &Arch<'_>,
    needs: &NeedTable,
    at: u32,
    left: &Aftermath,
    other: &Aftermath,
    a: &Option<Store>,
    b: &Option<Store>,
) -> bool
    requires { at ≤ needs.now.count }
    ensures same { IsTrue result → SameStored needs.now at (memory_after left.now (state_of arch.now).memory) (memory_after other.now (state_of arch.now).memory) a.now b.now }
    ensures all { SameBytes needs.now at (memory_after left.now (state_of arch.now).memory) (memory_after other.now (state_of arch.now).memory) → IsTrue result }
{
    same_store(a, b)
        || same_covered(arch, needs, at, left, other, b)
            && (same_place(a, b) || same_covered(arch, needs, at, left, other, a))
}

/// Whether all bytes are the same where they are needed. Only a byte that is stored differently can differ.
#[tactic(auto, using(crate::proofs::Differences::all_bytes))]
fn same_bytes(
    arch: &Arch<'_>,
    needs: &NeedTable,
    at: u32,
    left: &Aftermath,
    other: &Aftermath,
) -> bool
    requires { at ≤ needs.now.count }
    ensures { IsTrue result ↔ SameBytes needs.now at (memory_after left.now (state_of arch.now).memory) (memory_after other.now (state_of arch.now).memory) }
{
    same_overwritten(
        arch,
        needs,
        at,
        left,
        other,
        &left.below.store,
        &other.below.store,
    ) && same_overwritten(
        arch,
        needs,
        at,
        left,
        other,
        &left.above.store,
        &other.above.store,
    )
}

pub fn same_end(a: Option<End>, b: Option<End>) -> bool
    ensures { IsTrue result ↔ (a ≡ b) }
{
    a == b
}

fn same_put(a: Option<u8>, b: Option<u8>) -> bool
    ensures { IsTrue result ↔ (a ≡ b) }
{
    a == b
}

/// The first byte that was put.
fn first_put(left: &Aftermath) -> Option<u8>
    ensures { result ≡ first_of left.now.below.put left.now.above.put }
{
    match left.below.put {
        Some(byte) => Some(byte),
        None => left.above.put,
    }
}

/// The second.
fn second_put(left: &Aftermath) -> Option<u8>
    ensures { result ≡ second_of left.now.below.put left.now.above.put }
{
    match left.below.put {
        Some(_) => left.above.put,
        None => None,
    }
}

/// Whether two aftermaths have put the same bytes, whichever part of them put them.
#[tactic(auto, using(crate::proofs::Puts::output_exactly))]
fn same_output(left: &Aftermath, other: &Aftermath) -> bool
    ensures { IsTrue result ↔ (output_after left.now ≡ output_after other.now) }
{
    same_put(first_put(left), first_put(other)) && same_put(second_put(left), second_put(other))
}

/// Whether two aftermaths that haven't ended go on alike.
fn same_next(
    arch: &Arch<'_>,
    oldest: &Write,
    needs: &NeedTable,
    at: u32,
    known: &Known,
    left: &Aftermath,
    other: &Aftermath,
) -> bool
    requires at { at ≤ needs.now.count }
    requires known { IsKnown needs.now at known.now }
    ensures { IsTrue result ↔ SameNext needs.now at (written oldest.now (slice_index arch.now.registers)) (state_of arch.now).memory left.now other.now }
{
    left.pc == other.pc
        && same_registers(arch, oldest, needs, at, known, left, other)
        && same_bytes(arch, needs, at, left, other)
}

/// Whether what two aftermaths leave of the registers, with a write under theirs, and memory of `arch` agrees, for all that is needed
/// before instruction `at`.
#[tactic(auto, using(crate::proofs::Agreeing::agreement))]
pub fn agree(
    arch: &Arch<'_>,
    oldest: &Write,
    needs: &NeedTable,
    at: u32,
    known: &Known,
    left: &Aftermath,
    other: &Aftermath,
) -> bool
    requires at { at ≤ needs.now.count }
    requires known { IsKnown needs.now at known.now }
    ensures { IsTrue result ↔ Agree needs.now at (state_after left.now (written oldest.now (slice_index arch.now.registers)) (state_of arch.now).memory) (state_after other.now (written oldest.now (slice_index arch.now.registers)) (state_of arch.now).memory) }
{
    if !same_output(left, other) || !same_end(left.end, other.end) {
        return false;
    }
    left.end.is_some() || same_next(arch, oldest, needs, at, known, left, other)
}
