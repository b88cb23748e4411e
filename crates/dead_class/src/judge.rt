// The class of one instruction.
ghost use Rattle.dead_class.specs.Classes as classes;
ghost use Rattle.dead_class.specs.Readers.{class_from};
ghost use Rattle.rv_isa.specs.Effects.{IsRetired};
ghost use Rattle.rv_table.specs.Operations as operations;
ghost use Rattle.std.specs.Prelude.{length, ◌≡◌};

use crate::bytes::bytes_readers;
use crate::class::DeadClass;
use crate::readers::Readers;
use rv_isa::Retired;
use rv_table::{Operation, operation_of};
use std::collections::BTreeMap;

/// Whether the operation is no NOP even where it writes no register.
fn acts(code: u8) -> bool
    ensures { result ≡ classes.acts (operations.operation_of code) }
{
    matches!(
        operation_of(code),
        Operation::Load(_)
            | Operation::Store(_)
            | Operation::Branch(_)
            | Operation::Jal
            | Operation::Jalr
            | Operation::Ecall
            | Operation::Ebreak
    )
}

fn jumps(code: u8) -> bool
    ensures { result ≡ classes.jumps (operations.operation_of code) }
{
    matches!(operation_of(code), Operation::Jal | Operation::Jalr)
}

/// Whether it does nothing but go on.
fn is_nop(entry: &Retired) -> bool
    ensures { result ≡ classes.is_nop entry.now }
{
    !acts(entry.op.code) && entry.effect.end.is_none() && entry.effect.write.is_none()
}

/// Whether what it leaves behind can be dead.
fn may_die(entry: &Retired) -> bool
    ensures { result ≡ classes.may_die entry.now }
{
    !jumps(entry.op.code) && entry.effect.end.is_none()
}

/// The class of an instruction, from the readers of the values after it.
pub fn class_after(
    entry: &Retired,
    registers: &[Readers],
    bytes: &BTreeMap<u64, Readers>,
) -> DeadClass
    requires count { length registers.now ≡ 32 }
    requires retired { IsRetired entry.now }
    ensures { result ≡ class_from entry.now registers.now bytes.now.entries }
{
    if is_nop(entry) {
        return DeadClass::Nop;
    }
    if !may_die(entry) {
        return DeadClass::Needed;
    }
    if let Some((rd, _)) = entry.effect.write {
        return registers[rd as usize].class(DeadClass::FddReg, DeadClass::TddReg);
    }
    match entry.effect.store {
        Some((addr, size, _)) => {
            bytes_readers(bytes, addr, size).class(DeadClass::FddMem, DeadClass::TddMem)
        }
        None => DeadClass::Needed,
    }
}
