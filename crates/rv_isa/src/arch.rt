// The architectural state of an image's run.
ghost use Rattle.std.specs.Prelude.{◌≡◌, ℕ, ◌+◌, ◌*◌, ◌<◌, ◌≤◌, ◌/◌, ◌&&◌, IfOk, IsTrue, [], drop, length, replicate, slice_index, if◌then◌else◌};
ghost use Rattle.std.specs.Option.{ForSome};
ghost use Rattle.elf_load.specs.Image.{any_executable, executable, word_in_ram, ram_byte};
ghost use Rattle.rv_isa.specs.Architecture.{byte_stored};
ghost use Rattle.rv_isa.specs.Effects.{CanCommit, IsInRam, IsStep, committed, effect_by, effect_of, retired_at, with_store, with_write, write_of};
ghost use Rattle.rv_isa.specs.Instruction.{first_clock, later_clocks, op_at};
ghost use Rattle.rv_isa.specs.Runs.{reset};
ghost use Rattle.rv_table.specs.Accesses.{word_at, word_of_bytes};
ghost use Rattle.rv_table.specs.Actions.{judged};

use crate::effect::{byte_put, end_of, load_of, store_of, written_register};
use crate::{Effect, Retired};
use avf_base::{OutOfMemory, Steps};
use byteorder::{ByteOrder, LittleEndian};
use elf_load::Image;
use rv_table::{
    Access, Action, FETCH_FAULT_CODE, Op, asked, decode, is_clocked, loaded, next_address,
    with_counter,
};
use std::alloc::Global;
use std::marker::Model;
use std::sync::ledger::Ledger;

/// The architectural state: registers, RAM, the address of the next instruction, the count of instructions so far, and the
/// clock values that are left.
#[derive(Drop)]
pub struct Arch<'i> {
    image: &'i Image,
    registers: [u32; 32],
    memory: Vec<u8>,
    pc: u32,
    count: u32,
    clocks: Vec<u32>,
    taken: usize,
}

impl<'i> Model for Arch<'i> {
    ghost use Rattle.std.specs.Prelude.{◌≤◌, length, drop};
    ghost use Rattle.rv_isa.specs.Architecture.{ArchState, IsArchState};

    ghost Value = { ArchState };

    ghost view = { λ s. record { image = s.image.now; registers = s.registers; memory = s.memory.items; pc = s.pc; count = s.count; clocks = drop s.taken s.clocks.items } };

    ghost invariant = { λ s. IsArchState (record { image = s.image.now; registers = s.registers; memory = s.memory.items; pc = s.pc; count = s.count; clocks = drop s.taken s.clocks.items }) × (s.taken ≤ length s.clocks.items) };
}

impl<'i> Arch<'i> {
    ghost use Rattle.rv_isa.specs.Architecture.{state_of};
    ghost use Rattle.rv_isa.specs.Instruction as step;

    /// The state at reset, with no clock values.
    pub fn new(alloc: Global, image: &'i Image) -> Result<Arch<'i>, OutOfMemory>
        ensures image { IfOk result (λ arch. arch.image ≡ image.now) }
        ensures state { IfOk result (λ arch. state_of arch ≡ reset image.now []) }
    {
        Arch::clocked(alloc, image, &[])
    }

    /// The state at reset, with the clock values that RDCYCLE takes, in order.
    pub fn clocked(alloc: Global, image: &'i Image, clocks: &[u32]) -> Result<Arch<'i>, OutOfMemory>
        ensures image { IfOk result (λ arch. arch.image ≡ image.now) }
        ensures state { IfOk result (λ arch. state_of arch ≡ reset image.now clocks.now) }
    {
        image.is_image();
        let memory = Vec::from_slice(alloc, image.ram())?;
        let clocks = Vec::from_slice(alloc, clocks)?;
        Ok(Arch {
            image,
            registers: zeros(),
            memory,
            pc: image.entry() / 4,
            count: 0,
            clocks,
            taken: 0,
        })
    }

    /// The image that runs.
    pub fn image(&self) -> &'i Image
        ensures { result.now ≡ self.now.image }
    {
        self.image
    }

    /// The byte address of the next instruction.
    pub fn pc(&self) -> u32
        ensures { result ≡ 4 * self.now.pc }
    {
        4 * self.pc
    }

    /// The value of register `r`.
    pub fn reg(&self, r: u8) -> u32
        requires { r < 32 }
        ensures { result ≡ step.reg (state_of self.now).registers r }
    {
        self.registers[r as usize]
    }

    /// The byte at a byte address, 0 outside RAM.
    #[tactic(auto, unfolding(elf_load::specs::Image::in_ram, elf_load::specs::Image::ram_byte))]
    pub fn byte(&self, addr: u32) -> u8
        ensures { result ≡ (state_of self.now).memory addr }
    {
        if self.image.in_ram(addr) {
            self.memory[(addr - self.image.base()) as usize]
        } else {
            0
        }
    }

    /// The operation at the state's address: that of its word in the image as loaded, or FFAULT where that isn't executable.
    pub fn fetch(&self) -> Op
        ensures operation { result ≡ op_at self.now.image self.now.pc }
        ensures rd { result.rd < 32 }
        ensures rs1 { result.rs1 < 32 }
        ensures rs2 { result.rs2 < 32 }
    {
        match self.image.fetch(self.pc) {
            Some(word) => decode(word),
            None => Op {
                code: FETCH_FAULT_CODE,
                rd: 0,
                rs1: 0,
                rs2: 0,
                imm: 0,
            },
        }
    }

    /// What an operation does in this state: `commit` of the effect is the operation's step. It counts one in `applies`.
    pub fn effect<L: Ledger>(&self, op: &Op, applies: &mut Steps<L>) -> Effect
        requires rd { op.now.rd < 32 }
        requires rs1 { op.now.rs1 < 32 }
        requires rs2 { op.now.rs2 < 32 }
        ensures effect { result ≡ effect_of self.now.image op.now (state_of self.now) }
        ensures step { IsStep self.now.image op.now result (state_of self.now) }
        ensures can_commit { CanCommit self.now.image result }
        ensures ticks { applies.new ≡ applies.old + 1 }
    {
        applies.tick();
        self.effect_of(op)
    }

    /// What an operation does in this state, uncounted.
    #[tactic(auto, unfolding(crate::specs::Effects::effect_of))]
    fn effect_of(&self, op: &Op) -> Effect
        requires rs1 { op.now.rs1 < 32 }
        requires rs2 { op.now.rs2 < 32 }
        ensures { result ≡ effect_of self.now.image op.now (state_of self.now) }
    {
        let a = self.reg(op.rs1);
        let b = with_counter(op, self.clock(), self.count, self.reg(op.rs2));
        self.effect_by(op, a, b)
    }

    /// The first clock value that is left, or 0.
    #[tactic(auto, using(crate::proofs::Lists::first_drop))]
    fn clock(&self) -> u32
        ensures { result ≡ first_clock self.now.clocks }
    {
        self.clocks.get(self.taken).copied().unwrap_or(0)
    }

    /// What an operation does with the operands a and b, b being the counter where it reads one.
    #[tactic(auto, unfolding(crate::specs::Effects::effect_by, rv_table::specs::Actions::action))]
    fn effect_by(&self, op: &Op, a: u32, b: u32) -> Effect
        ensures { result ≡ effect_by self.now.image op.now a b (state_of self.now) }
    {
        let action = self.allowed(asked(op, self.pc, a, b));
        Effect {
            next: 4 * next_address(op, self.pc, a, b),
            write: self.write_of(&action),
            load: load_of(&action),
            store: store_of(&action),
            put: byte_put(&action),
            end: end_of(&action),
            clocked: is_clocked(op),
        }
    }

    /// What memory allows of an action.
    #[tactic(auto, using(crate::proofs::Allowed::allowing))]
    fn allowed(&self, action: Action) -> Action
        ensures { result ≡ judged (word_in_ram self.now.image) (executable self.now.image) action }
    {
        match action.access() {
            Some(access) => action.judged(
                self.image.word_in_ram(access.address / 4),
                self.writes_code(&access),
            ),
            None => action,
        }
    }

    /// Whether an access in RAM writes an executable byte.
    #[tactic(auto, using(crate::proofs::Allowed::word_below))]
    fn writes_code(&self, access: &Access) -> bool
        requires { access.now.size ≤ 4 }
        ensures { result ≡ (word_in_ram self.now.image (access.now.address / 4) && (access.now.writes && any_executable self.now.image access.now.address access.now.size)) }
    {
        self.image.word_in_ram(access.address / 4)
            && access.writes
            && self.image.any_executable(access.address, access.size)
    }

    /// The register that an action writes, but for register 0, and its value.
    fn write_of(&self, action: &Action) -> Option<(u8, u32)>
        ensures { result ≡ write_of self.now.image action.now (state_of self.now).memory }
    {
        match written_register(action) {
            0 => None,
            rd => Some((rd, self.given(action))),
        }
    }

    /// The value that an action writes into its register. A load outside RAM gives 0.
    fn given(&self, action: &Action) -> u32
        ensures { result ≡ step.given self.now.image action.now (state_of self.now).memory }
    {
        match *action {
            Action::Writes { value, .. } => value,
            Action::Loads { kind, address, .. } if self.image.word_in_ram(address / 4) => {
                loaded(kind, address, self.word(address))
            }
            _ => 0,
        }
    }

    /// The word of RAM that holds a byte address.
    #[tactic(auto, using(crate::proofs::Memory::words), unfolding(elf_load::specs::Image::ram_byte))]
    fn word(&self, address: u32) -> u32
        requires { IsTrue (word_in_ram self.now.image (address / 4)) }
        ensures word { result ≡ word_at address (state_of self.now).memory }
        ensures bytes { (p : ℕ) → (state_of self.now).memory p < 256 }
    {
        word_from(&self.memory, (address / 4 * 4 - self.image.base()) as usize)
    }

    /// Applies an effect: writes its register and its bytes, goes to its next address, counts one instruction more, and
    /// drops the first clock value where it took one.
    #[tactic(auto, unfolding(crate::specs::Effects::committed))]
    pub fn commit(&mut self, effect: &Effect)
        requires { CanCommit self.old.image effect.now }
        ensures image { self.new.image ≡ self.old.image }
        ensures state { state_of self.new ≡ committed effect.now (state_of self.old) }
    {
        write_register(&mut self.registers, effect.write);
        write_memory(&mut self.memory, self.image, effect.store);
        self.pc = effect.next / 4;
        self.count = self.count.wrapping_add(1);
        self.taken = taken_after(&self.clocks, self.taken, effect.clocked);
    }
}

impl<'i> Arch<'i> {
    ghost use Rattle.rv_isa.specs.Architecture.{state_of};

    /// Performs the instruction at the state's address, and tells it.
    #[tactic(auto, unfolding(crate::specs::Effects::retired_at))]
    pub(crate) fn retire<L: Ledger>(&mut self, applies: &mut Steps<L>) -> Retired
        ensures retired { result ≡ retired_at self.old.image (state_of self.old) }
        ensures state { state_of self.new ≡ committed result.effect (state_of self.old) }
        ensures image { self.new.image ≡ self.old.image }
        ensures ticks { applies.new ≡ applies.old + 1 }
    {
        let op = self.fetch();
        let pc = self.pc();
        let a = self.reg(op.rs1);
        let b = self.reg(op.rs2);
        let effect = self.effect(&op, applies);
        self.commit(&effect);
        Retired {
            pc,
            op,
            a,
            b,
            effect,
        }
    }
}

/// The registers at reset.
fn zeros() -> [u32; 32]
    ensures { result ≡ replicate 32 0 }
{
    [0; 32]
}

/// Writes a register, 1 to 31.
#[tactic(auto, using(crate::proofs::Lists::indexed))]
fn write_register(registers: &mut [u32; 32], write: Option<(u8, u32)>)
    requires { ForSome write (λ write. (0 < write.0) × (write.0 < 32)) }
    ensures values { slice_index registers.new ≡ with_write write (slice_index registers.old) }
    ensures size { length registers.new ≡ length registers.old }
    ensures zero { slice_index registers.new 0 ≡ slice_index registers.old 0 }
{
    if let Some((rd, value)) = write {
        registers[rd as usize] = value;
    }
}

/// The little-endian word from index `at` on.
#[tactic(auto, using(crate::proofs::Lists::word_of_list))]
fn word_from(bytes: &[u8], at: usize) -> u32
    requires { at + 4 ≤ length bytes.now }
    ensures { result ≡ word_of_bytes (λ i. slice_index bytes.now (at + i)) }
{
    LittleEndian::read_u32(&bytes[at..])
}

/// Stores the low bytes of a value at a byte address in RAM.
fn write_memory(memory: &mut Vec<u8>, image: &Image, store: Option<(u32, u8, u32)>)
    requires address { ForSome store (λ store. IsInRam image.now store.0 store.1) }
    requires size { length memory.old.items ≡ length image.now.ram }
    ensures bytes { ram_byte image.now memory.new.items ≡ with_store store (ram_byte image.now memory.old.items) }
    ensures size { length memory.new.items ≡ length memory.old.items }
    ensures fit { (k : ℕ) → slice_index memory.new.items k < 256 }
{
    if let Some((address, size, value)) = store {
        store_bytes(memory, (address - image.base()) as usize, size, value);
    }
}

/// Stores the low `size` bytes of a value, the lowest first, from index `at` on.
#[tactic(auto, using(crate::proofs::Lists::stored_more))]
fn store_bytes(bytes: &mut Vec<u8>, at: usize, size: u8, value: u32)
    requires address { at + size ≤ length bytes.old.items }
    requires size { size ≤ 4 }
    ensures bytes { (p : ℕ) → slice_index bytes.new.items p ≡ byte_stored at size value bytes.old.items p }
    ensures length { length bytes.new.items ≡ length bytes.old.items }
{
    for k in 0..size {
        bytes[at + k as usize] = ((value >> (8 * k as u32)) % 256) as u8;
    }
}

/// How many clock values are taken after an instruction.
#[tactic(auto, using(crate::proofs::Lists::clock_steps))]
fn taken_after(clocks: &[u32], taken: usize, clocked: bool) -> usize
    requires { taken ≤ length clocks.now }
    ensures values { drop result clocks.now ≡ (if clocked then later_clocks (drop taken clocks.now) else drop taken clocks.now) }
    ensures within { result ≤ length clocks.now }
{
    if clocked && taken < clocks.len() {
        taken + 1
    } else {
        taken
    }
}
