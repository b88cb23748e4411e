//! The bit numbers of the latches, operands, the actions that a latch holds, and execution.
ghost use Rattle.std.specs.Prelude.{◌<◌};

use crate::one_bit::field_of_bit;
use bit_field::Struck;
use elf_fixture::flat;
use elf_load::{Image, load};
use pipe_latch::{
    ExMem, ExMemField, Forwarded, IdEx, IdExField, MemWb, MemWbField, execute, latch_for, late,
    operand,
};
use rv_table::{Action, LoadKind, StoreKind};
use std::alloc::Global;
use std::test::Fail;

/// A field of ID/EX, and its first and its last bit.
struct OfIdEx(IdExField, u32, u32);

static ID_EX: [OfIdEx; 10] = [
    OfIdEx(IdExField::Valid, 0, 0),
    OfIdEx(IdExField::Pc, 1, 30),
    OfIdEx(IdExField::Op, 31, 36),
    OfIdEx(IdExField::Rd, 37, 41),
    OfIdEx(IdExField::Rs1, 42, 46),
    OfIdEx(IdExField::Rs2, 47, 51),
    OfIdEx(IdExField::A, 52, 83),
    OfIdEx(IdExField::B, 84, 115),
    OfIdEx(IdExField::Imm, 116, 147),
    OfIdEx(IdExField::Count, 148, 152),
];

/// Whether bit `k` of the latch alone is 1.
fn is_bit_of_id_ex(d: &IdEx, k: u32) -> bool {
    d.valid == (k == 0)
        && d.pc == field_of_bit(k, 1, 30)
        && u32::from(d.op) == field_of_bit(k, 31, 36)
        && u32::from(d.rd) == field_of_bit(k, 37, 41)
        && u32::from(d.rs1) == field_of_bit(k, 42, 46)
        && u32::from(d.rs2) == field_of_bit(k, 47, 51)
        && d.a == field_of_bit(k, 52, 83)
        && d.b == field_of_bit(k, 84, 115)
        && d.imm == field_of_bit(k, 116, 147)
        && u32::from(d.count) == field_of_bit(k, 148, 152)
}

#[test]
fn id_ex_bits(rt: HostRuntime) {
    for row in &ID_EX {
        for k in row.1..=row.2 {
            let mut d = IdEx::empty();
            assert!(rt; k < d.bits());
            d.flip(k);
            assert!(rt; IdEx::field_at(k) == (row.0, k - row.1));
            assert!(rt; d.bit(k) && is_bit_of_id_ex(&d, k));
        }
    }
}

/// A field of EX/MEM, and its first and its last bit.
struct OfExMem(ExMemField, u32, u32);

static EX_MEM: [OfExMem; 6] = [
    OfExMem(ExMemField::Valid, 0, 0),
    OfExMem(ExMemField::Kind, 1, 5),
    OfExMem(ExMemField::Rd, 6, 10),
    OfExMem(ExMemField::X, 11, 42),
    OfExMem(ExMemField::Y, 43, 74),
    OfExMem(ExMemField::Cause, 75, 78),
];

/// Whether bit `k` of the latch alone is 1.
fn is_bit_of_ex_mem(m: &ExMem, k: u32) -> bool {
    m.valid == (k == 0)
        && u32::from(m.kind) == field_of_bit(k, 1, 5)
        && u32::from(m.rd) == field_of_bit(k, 6, 10)
        && m.x == field_of_bit(k, 11, 42)
        && m.y == field_of_bit(k, 43, 74)
        && u32::from(m.cause) == field_of_bit(k, 75, 78)
}

#[test]
fn ex_mem_bits(rt: HostRuntime) {
    for row in &EX_MEM {
        for k in row.1..=row.2 {
            let mut m = ExMem::empty();
            assert!(rt; k < m.bits());
            m.flip(k);
            assert!(rt; ExMem::field_at(k) == (row.0, k - row.1));
            assert!(rt; m.bit(k) && is_bit_of_ex_mem(&m, k));
        }
    }
}

/// A field of MEM/WB, and its first and its last bit.
struct OfMemWb(MemWbField, u32, u32);

static MEM_WB: [OfMemWb; 2] = [
    OfMemWb(MemWbField::Rd, 0, 4),
    OfMemWb(MemWbField::Value, 5, 36),
];

/// Whether bit `k` of the latch alone is 1.
fn is_bit_of_mem_wb(w: &MemWb, k: u32) -> bool {
    u32::from(w.rd) == field_of_bit(k, 0, 4) && w.value == field_of_bit(k, 5, 36)
}

#[test]
fn mem_wb_bits(rt: HostRuntime) {
    for row in &MEM_WB {
        for k in row.1..=row.2 {
            let mut w = MemWb::empty();
            assert!(rt; k < w.bits());
            w.flip(k);
            assert!(rt; MemWb::field_at(k) == (row.0, k - row.1));
            assert!(rt; w.bit(k) && is_bit_of_mem_wb(&w, k));
        }
    }
}

/// What stands in the memory stage.
fn in_memory(valid: bool, kind: u8, rd: u8) -> ExMem
    requires kind { kind < 32 }
    requires rd { rd < 32 }
{
    ExMem {
        valid,
        kind,
        rd,
        x: 100,
        y: 200,
        cause: 3,
    }
}

/// Whether EX/MEM is occupied, its kind and its register; a register, and its operand where 50 is in MEM/WB for register 5 and 7 is
/// held.
struct Operand(bool, u8, u8, u8, Forwarded);

static OPERANDS: [Operand; 10] = [
    // register 0 is never forwarded
    Operand(true, 0, 0, 0, Forwarded::Value(7)),
    Operand(true, 3, 0, 0, Forwarded::Value(7)),
    // M is younger than W
    Operand(true, 0, 5, 5, Forwarded::Value(100)),
    Operand(true, 31, 5, 5, Forwarded::Value(100)),
    // a load of the register
    Operand(true, 1, 5, 5, Forwarded::Wait),
    Operand(true, 5, 6, 6, Forwarded::Wait),
    // M writes no register
    Operand(false, 3, 5, 5, Forwarded::Value(50)),
    Operand(true, 6, 5, 5, Forwarded::Value(50)),
    Operand(true, 11, 6, 6, Forwarded::Value(7)),
    // neither has it
    Operand(true, 0, 4, 6, Forwarded::Value(7)),
];

fn is_operand(row: &Operand) -> bool {
    let w = MemWb { rd: 5, value: 50 };
    row.1 < 32 && row.2 < 32 && operand(row.3, 7, &in_memory(row.0, row.1, row.2), &w) == row.4
}

#[test]
fn operands(rt: HostRuntime) {
    for row in &OPERANDS {
        assert!(rt; is_operand(row));
    }
    let w = MemWb { rd: 5, value: 50 };
    assert!(rt; late(5, 7, &w) == 50 && late(6, 7, &w) == 7);
    assert!(rt; late(0, 7, &MemWb { rd: 0, value: 50 }) == 7);
}

/// What EX/MEM holds: nothing; a kind, a register, x and y; or a trap of a cause.
enum Latch {
    Empty,
    Holds(u8, u8, u32, u32),
    Traps(u8),
}

fn is_latch(m: &ExMem, latch: &Latch) -> bool {
    match *latch {
        Latch::Empty => has_fields(m, 0, 0, 0, 0, 0) && !m.valid,
        Latch::Holds(kind, rd, x, y) => has_fields(m, kind, rd, x, y, 0) && m.valid,
        Latch::Traps(cause) => has_fields(m, 11, 0, 0, 0, cause) && m.valid,
    }
}

fn has_fields(m: &ExMem, kind: u8, rd: u8, x: u32, y: u32, cause: u8) -> bool {
    m.kind == kind && m.rd == rd && m.x == x && m.y == y && m.cause == cause
}

fn writes(action: Action) -> bool {
    matches!(action, Action::Writes { rd: 9, value: 100 })
}

fn loads(action: Action) -> bool {
    matches!(
        action,
        Action::Loads {
            kind: LoadKind::Lh,
            rd: 9,
            address: 100,
        }
    )
}

fn stores(action: Action) -> bool {
    matches!(
        action,
        Action::Stores {
            kind: StoreKind::Sw,
            address: 100,
            value: 200,
        }
    )
}

fn does_nothing(kind: u8) -> bool
    requires { kind < 32 }
{
    matches!(in_memory(false, kind, 9).action(), Action::Nothing)
}

#[test]
fn actions(rt: HostRuntime) {
    assert!(rt; writes(in_memory(true, 0, 9).action()) && does_nothing(0));
    assert!(rt; loads(in_memory(true, 2, 9).action()) && does_nothing(2));
    assert!(rt; stores(in_memory(true, 8, 9).action()) && does_nothing(8));
    assert!(rt; matches!(in_memory(true, 9, 9).action(), Action::Puts(100)) && does_nothing(9));
    assert!(rt; matches!(in_memory(true, 10, 9).action(), Action::Exits(100)) && does_nothing(10));
    assert!(rt; matches!(in_memory(true, 11, 9).action(), Action::Traps(3)) && does_nothing(11));
    assert!(rt; writes(in_memory(true, 12, 9).action()) && does_nothing(12));
    assert!(rt; is_latch(&latch_for(&Action::Nothing), &Latch::Empty));
    assert!(rt; is_latch(&ExMem::empty(), &Latch::Empty));
    assert!(rt; is_latch(&latch_for(&Action::Traps(8)), &Latch::Traps(8)));
}

/// The code of an instruction at word address 0x4000 that writes register 9, its immediate, and its operands a and b; what EX/MEM then
/// holds, the next address, and what the predictor learns.
struct Row(u8, u32, u32, u32, Latch, u32, Option<(bool, u32)>);

static EXECUTED: [Row; 18] = [
    Row(20, u32::MAX, 7, 0, Latch::Holds(0, 9, 6, 0), 0x4001, None),
    Row(
        6,
        8,
        5,
        5,
        Latch::Holds(0, 0, 0, 0),
        0x4002,
        Some((true, 0x4002)),
    ),
    Row(
        6,
        8,
        5,
        6,
        Latch::Holds(0, 0, 0, 0),
        0x4001,
        Some((false, 0x4001)),
    ),
    Row(4, 2, 0, 0, Latch::Traps(2), 0x4001, None),
    Row(
        5,
        0,
        0x10009,
        0,
        Latch::Holds(0, 9, 0x10004, 0),
        0x4002,
        Some((true, 0x4002)),
    ),
    Row(
        14,
        4,
        0x80000,
        0,
        Latch::Holds(3, 9, 0x80004, 0),
        0x4001,
        None,
    ),
    Row(14, 0, 0x110000, 0, Latch::Traps(5), 0x4001, None),
    Row(13, 1, 0x80000, 0, Latch::Traps(4), 0x4001, None),
    Row(
        17,
        1,
        0x80000,
        0x1FF,
        Latch::Holds(6, 0, 0x80001, 0x1FF),
        0x4001,
        None,
    ),
    Row(19, 0, 0x10000, 1, Latch::Traps(6), 0x4001, None),
    Row(47, 0, 0, 0, Latch::Holds(0, 0, 0, 0), 0x4001, None),
    Row(48, 0, 1, 65, Latch::Holds(9, 0, 65, 0), 0x4001, None),
    Row(48, 0, 93, 65, Latch::Holds(10, 0, 65, 0), 0x4001, None),
    Row(48, 0, 2, 65, Latch::Traps(8), 0x4001, None),
    Row(49, 0, 0, 0, Latch::Traps(7), 0x4001, None),
    Row(50, 0, 0, 123, Latch::Holds(0, 9, 123, 0), 0x4001, None),
    Row(63, 0, 0, 0, Latch::Traps(3), 0x4001, None),
    Row(1, 0, 0, 0, Latch::Traps(1), 0x4001, None),
];

fn decoded(op: u8, imm: u32) -> IdEx
    requires { op < 64 }
{
    IdEx {
        valid: true,
        pc: 0x4000,
        op,
        rd: 9,
        rs1: 0,
        rs2: 0,
        a: 0,
        b: 0,
        imm,
        count: 0,
    }
}

fn is_executed(row: &Row, image: &Image) -> bool {
    if row.0 >= 64 {
        return false;
    }
    let executed = execute(&decoded(row.0, row.1), row.2, row.3, image);
    is_latch(&executed.latch, &row.4) && executed.next == row.5 && executed.learn == row.6
}

/// The one word ECALL, executable, at 0x10000.
fn call(alloc: Global) -> Result<Image, Fail> {
    Ok(load(alloc, &flat(alloc, &[0x73])?, 1 << 20)?)
}

#[test]
fn executes(rt: HostRuntime) -> Result<(), Fail> {
    let image = call(rt.alloc())?;
    for row in &EXECUTED {
        assert!(rt; is_executed(row, &image));
    }
    Ok(())
}
