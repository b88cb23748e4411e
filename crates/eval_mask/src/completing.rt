// What the latches leave once they are completed, told by what they change.
ghost use Rattle.std.specs.Prelude.{◌≡◌, ℕ, ◌<◌};
ghost use Rattle.rv_table.specs.Accesses as accesses;
ghost use Rattle.rv_table.specs.Actions.{next_address};
ghost use Rattle.rv_table.specs.Arithmetic.{alu};
ghost use Rattle.rv_isa.specs.Architecture.{state_of};
ghost use Rattle.rv_isa.specs.Instruction as step;
ghost use Rattle.rv_isa.specs.Instruction.{action_in};
ghost use Rattle.pipe_latch.specs.LatchedActions.{action_of};
ghost use Rattle.pipe_latch.specs.Latches.{ExecutedLatch, op_of_latch};
ghost use Rattle.eval_mask.specs.Aftermaths as spec;
ghost use Rattle.eval_mask.specs.Aftermaths.{memory_after, registers_after, stored_over, written};

use crate::quick::{branch_doing, illegal_doing, load_doing, store_doing};
use avf_base::End;
use elf_load::Image;
use pipe_latch::{ExMem, IdEx, MemWb, execute};
use rv_isa::{Arch, byte_put, end_of, written_register};
use rv_table::{
    Action, AluKind, LoadKind, Operation, StoreKind, alu, asked, loaded, next_address,
    operation_of, with_counter,
};

/// A write of a register; register 0 is none.
#[derive(Clone, Copy, PartialEq, Eq)]
pub struct Write {
    pub rd: u8,
    pub value: u32,
}

/// A store of the low bytes of a value into the aligned block of its size that holds a byte address.
#[derive(Clone, Copy, PartialEq, Eq)]
pub struct Store {
    pub kind: StoreKind,
    pub address: u32,
    pub value: u32,
}

/// What one action changes.
#[derive(Clone, Copy)]
pub struct Change {
    pub write: Write,
    pub store: Option<Store>,
    /// The byte that it puts.
    pub put: Option<u8>,
    pub end: Option<End>,
}

/// What the instruction in ID/EX does, and the word address that comes after it.
#[derive(Clone, Copy)]
pub struct Doing {
    pub action: Action,
    pub next: u32,
}

/// What completed instructions leave.
#[derive(Clone, Copy)]
pub struct Aftermath {
    /// The write of MEM/WB, under the others.
    pub first: Write,
    /// What EX/MEM changes.
    pub below: Change,
    /// What ID/EX changes over it.
    pub above: Change,
    /// The word address that comes next.
    pub pc: u32,
    pub end: Option<End>,
}

/// No write.
pub const NO_WRITE: Write = Write { rd: 0, value: 0 };

/// No change.
pub const NO_CHANGE: Change = Change {
    write: NO_WRITE,
    store: None,
    put: None,
    end: None,
};

/// The value of register `r` after a write, from the value under it.
pub fn register_over(write: &Write, r: u8, under: u32) -> u32
    requires { 0 < r }
    ensures { (f : ℕ → ℕ) → f r ≡ under → result ≡ written write.now f r }
{
    if r == write.rd { write.value } else { under }
}

/// The byte at `address` after a store, from the byte under it.
#[tactic(auto, unfolding(rv_table::specs::Accesses::stored, rv_table::specs::Accesses::accesses, rv_table::specs::Accesses::byte_of))]
pub fn byte_over(store: &Option<Store>, address: u32, under: u8) -> u8
    ensures { (f : ℕ → ℕ) → f address ≡ under → result ≡ stored_over store.now f address }
{
    match store {
        Some(store) => byte_stored(store, address, under),
        None => under,
    }
}

#[tactic(auto, unfolding(rv_table::specs::Accesses::stored, rv_table::specs::Accesses::accesses, rv_table::specs::Accesses::byte_of))]
fn byte_stored(store: &Store, address: u32, under: u8) -> u8
    ensures { (f : ℕ → ℕ) → f address ≡ under → result ≡ accesses.stored store.now.kind store.now.address store.now.value f address }
{
    let size = store.kind.size();
    if address / size == store.address / size {
        byte_of(store.value, address % size)
    } else {
        under
    }
}

/// Byte `n` of a word, 0 to 3.
#[tactic(auto, unfolding(rv_table::specs::Accesses::byte_of))]
fn byte_of(word: u32, n: u32) -> u8
    requires { n < 4 }
    ensures { result ≡ accesses.byte_of word n }
{
    ((word >> (8 * n)) % 256) as u8
}

impl Aftermath {
    ghost use Rattle.std.specs.Prelude.{ℕ, ◌<◌};

    /// The value of register `r`, 1 to 31, from the value that it had before.
    pub fn register(&self, r: u8, before: u32) -> u32
        requires { 0 < r }
        ensures { (f : ℕ → ℕ) → f r ≡ before → result ≡ registers_after self.now f r }
    {
        let first = register_over(&self.first, r, before);
        let below = register_over(&self.below.write, r, first);
        register_over(&self.above.write, r, below)
    }

    /// The byte at a byte address, from the byte that was there before.
    pub fn byte(&self, address: u32, before: u8) -> u8
        ensures { (f : ℕ → ℕ) → f address ≡ before → result ≡ memory_after self.now f address }
    {
        byte_over(
            &self.above.store,
            address,
            byte_over(&self.below.store, address, before),
        )
    }
}

/// The value that an action loads at a byte address, over the memory of `arch` after a store.
fn load(arch: &Arch<'_>, under: &Option<Store>, kind: LoadKind, address: u32) -> u32
    ensures { result ≡ accesses.loaded kind address (stored_over under.now (state_of arch.now).memory) }
{
    let from = address / 4 * 4;
    let word = u32::from_le_bytes([
        byte_over(under, from, arch.byte(from)),
        byte_over(under, from + 1, arch.byte(from + 1)),
        byte_over(under, from + 2, arch.byte(from + 2)),
        byte_over(under, from + 3, arch.byte(from + 3)),
    ]);
    loaded(kind, address, word)
}

/// The value that an action writes into its register. A load outside RAM gives 0.
pub fn given(arch: &Arch<'_>, under: &Option<Store>, action: &Action) -> u32
    ensures { result ≡ step.given arch.now.image action.now (stored_over under.now (state_of arch.now).memory) }
{
    match *action {
        Action::Writes { value, .. } => value,
        Action::Loads { kind, address, .. } if arch.image().word_in_ram(address / 4) => {
            load(arch, under, kind, address)
        }
        _ => 0,
    }
}

/// The store that an action makes; one outside RAM is dropped.
pub fn store_by(image: &Image, action: &Action) -> Option<Store>
    ensures { result ≡ spec.store_by image.now action.now }
{
    match *action {
        Action::Stores {
            kind,
            address,
            value,
        } if image.word_in_ram(address / 4) => Some(Store {
            kind,
            address,
            value,
        }),
        _ => None,
    }
}

/// What EX/MEM changes over the memory of `arch`, if it does this.
pub fn action_change(arch: &Arch<'_>, action: &Action) -> Change
    ensures { result ≡ spec.change_of arch.now.image action.now (state_of arch.now).memory }
{
    change_of(arch, &None, action)
}

/// What EX/MEM changes over the memory of `arch`.
pub fn executed_change(arch: &Arch<'_>, m: &ExMem) -> Change
    ensures { result ≡ spec.change_of arch.now.image (action_of m.now) (state_of arch.now).memory }
{
    action_change(arch, &m.action())
}

/// What an action changes, over the memory of `arch` after a store.
#[tactic(auto, unfolding(crate::specs::Aftermaths::change_of))]
fn change_of(arch: &Arch<'_>, under: &Option<Store>, action: &Action) -> Change
    ensures { result ≡ spec.change_of arch.now.image action.now (stored_over under.now (state_of arch.now).memory) }
{
    Change {
        write: Write {
            rd: written_register(action),
            value: given(arch, under, action),
        },
        store: store_by(arch.image(), action),
        put: byte_put(action),
        end: end_of(action),
    }
}

/// An operand that ID/EX holds, once EX/MEM has written `below` and MEM/WB what it holds: EX/MEM is younger, and register 0 is
/// never forwarded.
pub fn operand_after(below: &Write, w: &MemWb, rs: u8, held: u32) -> u32
    ensures { result ≡ spec.operand_after below.now w.now rs held }
{
    if rs == 0 {
        held
    } else if rs == below.rd {
        below.value
    } else if rs == w.rd {
        w.value
    } else {
        held
    }
}

/// What the instruction in ID/EX does with the operands a and b.
#[tactic(auto, using(crate::proofs::Completed::executed_action), unfolding(rv_table::specs::Actions::action, rv_table::specs::Actions::judged, rv_table::specs::Actions::judged_by))]
fn decoded_action(d: &IdEx, a: u32, b: u32, image: &Image) -> Action
    ensures { result ≡ action_in image.now (op_of_latch d.now) d.now.pc a b }
{
    let action = asked(&d.instruction(), d.pc, a, b);
    match action {
        Action::Loads { address, .. } => action.judged(image.word_in_ram(address / 4), false),
        Action::Stores { .. } => execute(d, a, b, image).latch.action(),
        _ => action,
    }
}

/// The word address that comes after the instruction in ID/EX.
fn decoded_next(d: &IdEx, a: u32, b: u32) -> u32
    ensures { result ≡ next_address (op_of_latch d.now) d.now.pc a b }
{
    next_address(&d.instruction(), d.pc, a, b)
}

/// The write that MEM/WB holds.
pub fn write_held(w: &MemWb) -> Write
    ensures { result ≡ spec.write_held w.now }
{
    Write {
        rd: w.rd,
        value: w.value,
    }
}

/// Whether ID/EX is completed: it is occupied, at the word address that comes next, and what EX/MEM does doesn't end the run.
pub fn is_completed(m: &ExMem, d: &IdEx, npc: u32) -> bool
    ensures { result ≡ spec.is_completed m.now d.now npc }
{
    d.valid && (end_of(&m.action()).is_none() && d.pc == npc)
}

/// What the instruction in ID/EX does with operands a and `held`, the second before a counter takes its place. `issued` is the number
/// of instructions before it.
#[tactic(auto, unfolding(crate::specs::Aftermaths::doing_with))]
fn any_doing(d: &IdEx, a: u32, held: u32, issued: u32, image: &Image) -> Doing
    ensures { result ≡ spec.doing_with image.now d.now issued a held }
{
    let b = with_counter(&d.instruction(), 0, issued, held);
    Doing {
        action: decoded_action(d, a, b, image),
        next: decoded_next(d, a, b),
    }
}

/// Writes a value into the register that ID/EX names and goes on.
fn plain_doing(d: &IdEx, value: u32) -> Doing
    ensures { result ≡ spec.plain_doing d.now value }
{
    Doing {
        action: Action::Writes { rd: d.rd, value },
        next: (d.pc + 1) % 0x4000_0000,
    }
}

/// The same with the result of the immediate and operand a.
fn immediate_doing(d: &IdEx, kind: AluKind, a: u32) -> Doing
    ensures { result ≡ spec.plain_doing d.now (alu kind a d.now.imm) }
{
    plain_doing(d, alu(kind, a, d.imm))
}

/// The same as `any_doing`, quickly for most instructions.
#[tactic(auto, using(crate::proofs::Completed::plain_doings, crate::proofs::QuickDoings::quick_doings))]
pub fn doing_with(d: &IdEx, a: u32, held: u32, issued: u32, image: &Image) -> Doing
    ensures { result ≡ spec.doing_with image.now d.now issued a held }
{
    match operation_of(d.op) {
        Operation::Illegal => illegal_doing(d),
        Operation::Lui => plain_doing(d, d.imm),
        Operation::Auipc => plain_doing(d, (4 * d.pc).wrapping_add(d.imm)),
        Operation::AluImmediate(kind) => immediate_doing(d, kind, a),
        Operation::Alu(kind) => plain_doing(d, alu(kind, a, held)),
        Operation::Branch(kind) => branch_doing(d, kind, a, held),
        Operation::Load(kind) => load_doing(d, kind, a, image),
        Operation::Store(kind) => store_doing(d, kind, a, held, image),
        _ => any_doing(d, a, held, issued, image),
    }
}

/// What the instruction in ID/EX does, once EX/MEM has written `below` and MEM/WB what it holds. `issued` is the number of
/// instructions before it.
fn doing_after(w: &MemWb, d: &IdEx, below: &Write, issued: u32, image: &Image) -> Doing
    ensures { result ≡ spec.doing_after image.now w.now d.now below.now issued }
{
    let a = operand_after(below, w, d.rs1, d.a);
    let held = operand_after(below, w, d.rs2, d.b);
    doing_with(d, a, held, issued, image)
}

/// The same, where `below` is what EX/MEM writes.
pub fn doing_of(w: &MemWb, d: &IdEx, below: &Write, issued: u32, image: &Image) -> Doing
    ensures { (m : ExecutedLatch) → (memory : ℕ → ℕ) → below.now ≡ spec.write_by_action image.now (action_of m) memory → result ≡ spec.doing_of image.now w.now m d.now memory issued }
{
    doing_after(w, d, below, issued, image)
}

/// What is left of MEM/WB's write, what EX/MEM changes, and what ID/EX does, over the memory of `arch`.
#[tactic(auto, unfolding(crate::specs::Aftermaths::left_by))]
pub fn left_by(arch: &Arch<'_>, first: &Write, below: &Change, doing: &Doing) -> Aftermath
    ensures { result ≡ spec.left_by arch.now.image first.now below.now doing.now (state_of arch.now).memory }
{
    Aftermath {
        first: *first,
        below: *below,
        above: change_of(arch, &below.store, &doing.action),
        pc: doing.next,
        end: end_of(&doing.action),
    }
}

/// What MEM/WB, EX/MEM and a reached ID/EX leave once they are completed over the memory of `arch`. `npc` is the word address that
/// comes next, `issued` the number of instructions before it, and `below` what EX/MEM changes.
#[tactic(auto, unfolding(crate::specs::Aftermaths::aftermath_of, crate::specs::Aftermaths::change_of))]
pub fn completed(
    below: &Change,
    w: &MemWb,
    m: &ExMem,
    d: &IdEx,
    arch: &Arch<'_>,
    npc: u32,
    issued: u32,
) -> Aftermath
    requires { below.now ≡ spec.change_of arch.now.image (action_of m.now) (state_of arch.now).memory }
    ensures { result ≡ spec.aftermath_of arch.now.image w.now m.now d.now (state_of arch.now).memory npc issued }
{
    let first = write_held(w);
    if is_completed(m, d, npc) {
        let doing = doing_of(w, d, &below.write, issued, arch.image());
        return left_by(arch, &first, below, &doing);
    }
    Aftermath {
        first,
        below: *below,
        above: NO_CHANGE,
        pc: npc,
        end: below.end,
    }
}
