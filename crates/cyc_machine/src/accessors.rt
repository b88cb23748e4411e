// What the machine's parts hold.

use crate::machine::Machine;
use bit_field::Shape;
use elf_load::Image;
use inst_buf::InstBuf;
use pipe_latch::{ExMem, IdEx, MemWb};
use predictor::Predictor;
use store_buf::StoreBuf;
use wb_cache::Cache;

impl<'i> Machine<'i> {
    ghost use Rattle.std.specs.Prelude.{◌≡◌, ◌<◌, ◌≤◌};
    ghost use Rattle.cyc_machine.specs.Pipeline.{register};

    /// The number of the cycle that comes next: 0 at reset, and one more after each.
    pub fn cycle(&self) -> u32
        ensures { result ≡ self.now.cycle }
    {
        self.parts.cycle
    }

    /// Whether the run has ended.
    pub fn ended(&self) -> bool
        ensures { result ≡ self.now.ended }
    {
        self.parts.ended
    }

    /// How many instructions left EX since reset, modulo 2^32. It isn't struck.
    pub fn issued_count(&self) -> u32
        ensures { result ≡ self.now.issued }
    {
        self.parts.issued
    }

    /// The word address that is fetched next.
    pub fn pc(&self) -> u32
        ensures { result ≡ self.now.pc }
    {
        self.parts.pc.get()
    }

    /// The word address of the instruction after the last one that left EX.
    pub fn npc(&self) -> u32
        ensures { result ≡ self.now.npc }
    {
        self.parts.npc.get()
    }

    /// Register `r`, 1 to 31.
    pub fn reg(&self, r: u8) -> u32
        requires least { 1 ≤ r }
        requires most { r < 32 }
        ensures { result ≡ register self.now.registers r }
    {
        self.parts.registers.read(r)
    }

    /// The port's count of cycles, and whether its owner is the store client.
    pub fn port(&self) -> (u8, bool)
        ensures count { result.0 ≡ self.now.port.count }
        ensures owner { result.1 ≡ self.now.port.owner }
    {
        (self.parts.port.count, self.parts.port.owner)
    }

    /// The instruction buffer.
    pub fn inst_buf(&self) -> &InstBuf
        ensures { result.now ≡ self.now.buffer }
    {
        &self.parts.buffer
    }

    /// The predictor's tables.
    pub fn predictor(&self) -> &Predictor
        ensures { result.now ≡ self.now.tables }
    {
        &self.parts.predictor
    }

    /// The store buffer.
    pub fn store_buf(&self) -> &StoreBuf
        ensures { result.now ≡ self.now.stores }
    {
        &self.parts.stores
    }

    /// The cache.
    pub fn cache(&self) -> &Cache
        ensures { result.now ≡ self.now.cache }
    {
        &self.parts.storage.cache
    }

    /// ID/EX.
    pub fn id_ex(&self) -> &IdEx
        ensures { result.now ≡ self.now.d }
    {
        &self.parts.decoded
    }

    /// EX/MEM.
    pub fn ex_mem(&self) -> &ExMem
        ensures { result.now ≡ self.now.m }
    {
        &self.parts.executed
    }

    /// MEM/WB.
    pub fn mem_wb(&self) -> &MemWb
        ensures { result.now ≡ self.now.w }
    {
        &self.parts.written
    }

    /// Main memory, from the image's base on.
    pub fn memory(&self) -> &[u8]
        ensures { result.now ≡ self.now.memory }
    {
        &self.parts.storage.memory
    }

    /// The image that the machine runs.
    pub fn image(&self) -> &'i Image
        ensures { result.now ≡ self.now.image }
    {
        self.parts.image
    }

    /// The shape of RAM and cache.
    pub fn shape(&self) -> Shape
        ensures { result ≡ self.now.cache.shape }
    {
        self.parts.storage.cache.shape()
    }
}
