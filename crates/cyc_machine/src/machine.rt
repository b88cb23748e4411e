// The machine: its state and one cycle.

use crate::cached_memory::CachedMemory;
use crate::parts::Parts;
use crate::port::PortLatch;
use crate::registers::{ProgramCounter, RegisterFile};
use crate::report::CycleReport;
use avf_base::{OutOfMemory, Steps};
use bit_field::{Shape, plain_shape};
use elf_load::Image;
use inst_buf::InstBuf;
use pipe_latch::{ExMem, IdEx, MemWb};
use predictor::Predictor;
use std::alloc::Global;
use std::marker::Model;
use std::sync::ledger::Ledger;
use store_buf::StoreBuf;
use wb_cache::Cache;

/// Within so many cycles the instruction in EX/MEM leaves, or the run ends, whatever the structures hold.
pub const CYCLES_PER_INSTRUCTION: u32 = 256;

/// The machine: the sixteen structures that can be struck, main memory, and the numbers that go with a run.
#[derive(Drop)]
pub struct Machine<'i> {
    pub(crate) parts: Parts<'i>,
}

impl<'i> Model for Machine<'i> {
    ghost use Rattle.std.specs.Prelude.{◌≡◌, length};
    ghost use Rattle.cyc_machine.specs.State.{State};
    ghost use Rattle.cyc_machine.specs.Parts.{state_of};

    ghost Value = { State };

    ghost view = { λ x. state_of x.parts };

    ghost invariant = { λ x. length x.parts.storage.memory.items ≡ length x.parts.image.now.ram };
}

impl<'i> Machine<'i> {
    ghost use Rattle.std.specs.Prelude.{◌≡◌, ◌+◌, ◌*◌, ◌<◌, ◌^◌, false, IfOk, ℕ, length};
    ghost use Rattle.bit_field.specs.Shapes.{IsShape};
    ghost use Rattle.bit_field.specs.Shapes as shapes;
    ghost use Rattle.cyc_machine.specs.State.{reset};
    ghost use Rattle.cyc_machine.specs.Reports.{IsCycle};

    /// A machine of the plain shape at reset on an image.
    pub fn new(alloc: Global, image: &'i Image) -> Result<Machine<'i>, OutOfMemory>
        ensures { IfOk result (λ m. m ≡ reset image.now shapes.plain) }
    {
        Machine::shaped(alloc, image, &plain_shape())
    }

    /// A machine of a shape at reset on an image whose RAM has the shape's size.
    #[tactic(auto, unfolding(crate::specs::State::reset))]
    pub fn shaped(
        alloc: Global,
        image: &'i Image,
        shape: &Shape,
    ) -> Result<Machine<'i>, OutOfMemory>
        requires { IsShape shape.now }
        ensures { IfOk result (λ m. m ≡ reset image.now shape.now) }
    {
        let entry = image.entry() / 4;
        let parts = Parts {
            image,
            pc: ProgramCounter { word: entry },
            npc: ProgramCounter { word: entry },
            predictor: Predictor::new(),
            buffer: InstBuf::new(),
            decoded: IdEx::empty(),
            executed: ExMem::empty(),
            written: MemWb::empty(),
            registers: RegisterFile::new(),
            stores: StoreBuf::new(),
            port: PortLatch {
                count: 0,
                owner: false,
            },
            storage: CachedMemory {
                cache: Cache::shaped(alloc, shape)?,
                memory: Vec::from_slice(alloc, image.ram())?,
            },
            cycle: 0,
            issued: 0,
            ended: false,
        };
        Ok(Machine { parts })
    }

    /// One clock cycle: every part takes its next value, which is worked out from the whole old state.
    pub fn step<L: Ledger>(&mut self, steps: &mut Steps<L>) -> CycleReport
        requires running { self.old.ended ≡ false }
        requires cycles { self.old.cycle < 2 ^ 31 }
        ensures cycle { IsCycle self.old self.new result }
        ensures steps { steps.new ≡ steps.old + 1 }
    {
        self.parts.step(steps)
    }
}
