// What branches, loads, stores and codes without an instruction in ID/EX do, without the operation.
ghost use Rattle.std.specs.Prelude.{◌≡◌, ◌/◌, true};
ghost use Rattle.elf_load.specs.Image.{executable, word_in_ram};
ghost use Rattle.rv_table.specs.Accesses.{store_size};
ghost use Rattle.rv_table.specs.Actions.{load_asked, some_executable, store_asked};
ghost use Rattle.eval_mask.specs.QuickDoings as spec;

use crate::completing::Doing;
use elf_load::Image;
use pipe_latch::IdEx;
use rv_table::{Action, BranchKind, LoadKind, StoreKind, holds, trap};

/// What a code without an instruction does.
pub fn illegal_doing(d: &IdEx) -> Doing
    ensures { result ≡ spec.illegal_doing d.now }
{
    Doing {
        action: Action::Traps(trap::ILLEGAL_INSTRUCTION),
        next: (d.pc + 1) % 0x4000_0000,
    }
}

/// What a branch does that is taken or not.
pub fn way_doing(d: &IdEx, taken: bool) -> Doing
    ensures { result ≡ spec.way_doing d.now taken }
{
    let target = (4 * d.pc).wrapping_add(d.imm);
    let next = (d.pc + 1) % 0x4000_0000;
    if !taken {
        Doing {
            action: Action::Writes { rd: 0, value: 0 },
            next,
        }
    } else if target % 4 == 0 {
        Doing {
            action: Action::Writes { rd: 0, value: 0 },
            next: target / 4,
        }
    } else {
        Doing {
            action: Action::Traps(trap::MISALIGNED_TARGET),
            next,
        }
    }
}

/// What a branch does with operands a and b.
pub fn branch_doing(d: &IdEx, kind: BranchKind, a: u32, b: u32) -> Doing
    ensures { result ≡ spec.branch_doing d.now kind a b }
{
    way_doing(d, holds(kind, a, b))
}

/// A load of a byte address, or its trap.
#[tactic(auto, unfolding(rv_table::specs::Actions::judged))]
fn load_action(kind: LoadKind, rd: u8, address: u32, image: &Image) -> Action
    ensures { result ≡ spec.judged_in image.now (load_asked kind rd address) }
{
    if address % kind.size() != 0 {
        Action::Traps(trap::MISALIGNED_ACCESS)
    } else if image.word_in_ram(address / 4) {
        Action::Loads { kind, rd, address }
    } else {
        Action::Traps(trap::LOAD_FAULT)
    }
}

/// What a load does with operand a.
pub fn load_doing(d: &IdEx, kind: LoadKind, a: u32, image: &Image) -> Doing
    ensures { result ≡ spec.load_doing image.now d.now kind a }
{
    Doing {
        action: load_action(kind, d.rd, a.wrapping_add(d.imm), image),
        next: (d.pc + 1) % 0x4000_0000,
    }
}

/// Whether a store in RAM writes an executable byte.
#[tactic(auto, using(pipe_latch::proofs::Judged::any_executable_some, pipe_latch::proofs::Judged::room_above))]
fn overwrites_code(kind: StoreKind, address: u32, image: &Image) -> bool
    requires { word_in_ram image.now (address / 4) ≡ true }
    ensures { result ≡ some_executable (executable image.now) address (store_size kind) }
{
    image.is_image();
    image.any_executable(address, kind.size())
}

/// A store at a byte address, or its trap.
#[tactic(auto, unfolding(rv_table::specs::Actions::judged))]
fn store_action(kind: StoreKind, address: u32, value: u32, image: &Image) -> Action
    ensures { result ≡ spec.judged_in image.now (store_asked kind address value) }
{
    if address % kind.size() != 0 {
        Action::Traps(trap::MISALIGNED_ACCESS)
    } else if image.word_in_ram(address / 4) && !overwrites_code(kind, address, image) {
        Action::Stores {
            kind,
            address,
            value,
        }
    } else {
        Action::Traps(trap::STORE_FAULT)
    }
}

/// What a store does with operands a and `held`.
pub fn store_doing(d: &IdEx, kind: StoreKind, a: u32, held: u32, image: &Image) -> Doing
    ensures { result ≡ spec.store_doing image.now d.now kind a held }
{
    Doing {
        action: store_action(kind, a.wrapping_add(d.imm), held, image),
        next: (d.pc + 1) % 0x4000_0000,
    }
}
