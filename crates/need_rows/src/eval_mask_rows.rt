// Rows of eval_mask: queries on small programs, by hand from the definition of the outcome.
ghost use Rattle.std.specs.Prelude.{◌≡◌, ◌<◌, ◌^◌};

use crate::runs::image_of;
use avf_base::{Steps, counter};
use elf_fixture::THREE;
use elf_load::Image;
use eval_mask::{LatchMask, latch_bits, word_bits};
use need_pass::{NeedTable, needs};
use pipe_latch::{ExMem, IdEx, MemWb};
use rv_isa::{Arch, run};
use rv_table::codes::ADDI;
use std::alloc::Global;
use std::fs::Files;
use std::marker::Brand;
use std::process::Abort;
use std::sync::ledger::{Blank, Ledger};
use std::test::Fail;

/// addi t0, zero, 5; addi t0, zero, 5; addi a0, t0, 0; addi a7, zero, 93; ecall
static TWICE: [u32; 5] = [
    0x0050_0293,
    0x0050_0293,
    0x0002_8513,
    0x05D0_0893,
    0x0000_0073,
];

/// The needs of an image's run, of at most nine instructions.
fn needs_of<L: Ledger>(
    alloc: Global,
    image: &Image,
    applies: &mut Steps<L>,
) -> Result<NeedTable, Fail> {
    Ok(needs(alloc, &run(alloc, image, 9, applies)?)?)
}

fn has(mask: u128, bit: u32) -> bool
    requires { bit < 128 }
{
    (mask >> bit) % 2 == 1
}

/// `addi rd, rs1, imm` in ID/EX, with zero in both operands.
fn addi(pc: u32, rd: u8, rs1: u8, imm: u32) -> IdEx
    requires pc { pc < 2 ^ 30 }
    requires rd { rd < 32 }
    requires rs1 { rs1 < 32 }
{
    IdEx {
        valid: true,
        pc,
        op: ADDI,
        rd,
        rs1,
        rs2: 0,
        a: 0,
        b: 0,
        imm,
        count: 0,
    }
}

/// The latches when ID/EX holds the first instruction: its immediate is dead, and so is a read of the upper cycle counter
/// in its place, but not a load that isn't aligned.
fn is_first_so(arch: &Arch<'_>, table: &NeedTable) -> bool {
    let d = addi(0x4000, 5, 0, 5);
    let low = latch_bits(
        &MemWb::empty(),
        0,
        &ExMem::empty(),
        &d,
        0x4000,
        arch,
        table,
        0,
    )
    .idex_low;
    has(low, 116) && has(low, 36) && !has(low, 33) && !has(low, 0)
}

fn is_third_mask(mask: &LatchMask) -> bool {
    mask.memwb == 0x1F_FFFF_FFFF
        && (mask.exmem >> 11) & 0xFFFF_FFFF == 0xFFFF_FF00
        && mask.exmem >> 43 == 0xFFFF_FFFF
        && mask.idex_high == 0xF_FFFF
}

/// The latches two cycles later: MEM/WB holds what is written over, and of EX/MEM's result the exit code's bits count.
fn is_third_so(arch: &Arch<'_>, table: &NeedTable) -> bool {
    let w = MemWb { rd: 5, value: 5 };
    let m = ExMem {
        valid: true,
        kind: 0,
        rd: 5,
        x: 5,
        y: 0,
        cause: 0,
    };
    let d = addi(0x4002, 10, 5, 0);
    2 <= table.len() && is_third_mask(&latch_bits(&w, 0, &m, &d, 0x4002, arch, table, 2))
}

fn check_latches<L: Ledger>(
    rt: &impl Abort,
    alloc: Global,
    applies: &mut Steps<L>,
) -> Result<(), Fail> {
    let image = image_of(alloc, &TWICE)?;
    let table = needs_of(alloc, &image, applies)?;
    let mut arch = Arch::new(alloc, &image)?;
    assert!(rt; is_first_so(&arch, &table));
    let op = arch.fetch();
    let effect = arch.effect(&op, applies);
    arch.commit(&effect);
    assert!(rt; is_third_so(&arch, &table));
    Ok(())
}

/// Bit 14 of the first word makes an ADDI with zero an XORI, bit 0 no instruction at all.
fn is_word_so<L: Ledger>(arch: &Arch<'_>, table: &NeedTable, applies: &mut Steps<L>) -> bool {
    let Some(word) = arch.image().fetch(arch.pc() / 4) else {
        return false;
    };
    if word != 0x0070_0513 || table.len() == 0 {
        return false;
    }
    let mask = u128::from(word_bits(arch, word, 0, table, applies));
    has(mask, 14) && !has(mask, 0)
}

fn check_word<L: Ledger>(
    rt: &impl Abort,
    alloc: Global,
    applies: &mut Steps<L>,
) -> Result<(), Fail> {
    let image = image_of(alloc, &THREE)?;
    let table = needs_of(alloc, &image, applies)?;
    let arch = Arch::new(alloc, &image)?;
    assert!(rt; is_word_so(&arch, &table, applies));
    Ok(())
}

fn check_all<R: Abort + Files, L: Ledger>(rt: &R, alloc: Global, blank: Blank) -> Result<(), Fail>
    requires name { blank.name ≡ L.name }
    requires parts { blank.parts ≡ L.parts }
    requires some { 0 < L.parts }
{
    let mut applies = counter::<R, L>(rt, blank);
    check_latches(rt, alloc, &mut applies)?;
    check_word(rt, alloc, &mut applies)
}

#[test]
fn worked_queries(rt: HostRuntime) -> Result<(), Fail> {
    check_all::<HostRuntime, Brand>(&rt, rt.alloc(), Blank::new(1))
}
