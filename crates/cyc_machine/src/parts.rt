// The machine's parts, and one cycle of them.

use crate::cached_memory::CachedMemory;
use crate::execute::{Counts, fate_of, leave_execution, train};
use crate::fate::Fate;
use crate::front_end::{decoded_after, pc_after, update_buffer};
use crate::memory_stage::{
    Served, load_client, port_after, port_move, result_after, serve, store_client, update_stores,
};
use crate::port::{Move, PortLatch};
use crate::registers::{ProgramCounter, RegisterFile};
use crate::report::{CycleReport, event_of, report_of};
use avf_base::Steps;
use elf_load::Image;
use inst_buf::InstBuf;
use pipe_latch::{ExMem, IdEx, MemWb};
use predictor::Predictor;
use rv_table::Action;
use std::sync::ledger::Ledger;
use store_buf::StoreBuf;
use wb_cache::CacheEvent;

/// The sixteen structures, main memory, and the numbers that go with a run.
#[derive(Drop)]
pub(crate) struct Parts<'i> {
    pub image: &'i Image,
    pub pc: ProgramCounter,
    pub npc: ProgramCounter,
    pub predictor: Predictor,
    pub buffer: InstBuf,
    pub decoded: IdEx,
    pub executed: ExMem,
    pub written: MemWb,
    pub registers: RegisterFile,
    pub stores: StoreBuf,
    pub port: PortLatch,
    pub storage: CachedMemory,
    pub cycle: u32,
    pub issued: u32,
    pub ended: bool,
}

// M's turn at memory: what M does, what the port does and its event, and whether M leaves.
#[derive(Clone, Copy)]
struct Turn {
    action: Action,
    motion: Move,
    event: Option<CacheEvent>,
    served: Served,
}

impl Parts<'_> {
    ghost use Rattle.std.specs.Prelude.{◌≡◌, ◌+◌, ◌<◌, ◌^◌, length};
    ghost use Rattle.rv_table.specs.Effects.{written_register};
    ghost use Rattle.cyc_machine.specs.Parts.{state_of};
    ghost use Rattle.cyc_machine.specs.Memory.{move_count};
    ghost use Rattle.cyc_machine.specs.Cycle as cycles;
    ghost use Rattle.cyc_machine.specs.Reports.{IsCycle};
    ghost use Rattle.cyc_machine.specs.Turn as turns;

    /// One clock cycle: every part takes its next value, which is worked out from the whole old state.
    #[tactic(auto, unfolding(crate::specs::Cycle::cycled))]
    pub fn step<L: Ledger>(&mut self, steps: &mut Steps<L>) -> CycleReport
        requires size { length self.old.storage.memory.items ≡ length self.old.image.now.ram }
        requires cycles { self.old.cycle < 2 ^ 31 }
        ensures cycle { IsCycle (state_of self.old) (state_of self.new) result }
        ensures size { length self.new.storage.memory.items ≡ length self.new.image.now.ram }
        ensures steps { steps.new ≡ steps.old + 1 }
    {
        steps.tick();
        let turn = self.use_memory();
        let goes = turn.served.goes;
        let fate = fate_of(
            &self.decoded,
            self.npc.get(),
            &turn.action,
            &self.written,
            goes,
        );
        let retired = self.executed.valid && goes;
        let report = report_of(&turn.action, &fate, &self.decoded, retired, turn.event);
        self.advance_pipeline(&fate, &turn);
        self.registers.take(&self.written);
        self.written = result_after(&turn.action, &turn.served);
        update_stores(&mut self.stores, self.image, &turn.action, &turn.motion);
        self.port = port_after(&turn.motion, &self.port);
        self.cycle += 1;
        self.ended = report.end.is_some();
        report
    }

    // Clients, port and MEM: the port does its part at the cache and main memory, and M is served.
    #[tactic(auto, unfolding(crate::specs::Cycle::cycled))]
    fn use_memory(&mut self) -> Turn
        requires size { length self.old.storage.memory.items ≡ length self.old.image.now.ram }
        ensures turn { result ≡ turns.turn_of (state_of self.old) }
        ensures state { state_of self.new ≡ turns.with_storage (cycles.cycle (state_of self.old)) (state_of self.old) }
        ensures size { length self.new.storage.memory.items ≡ length self.new.image.now.ram }
        ensures count { move_count result.motion < 32 }
        ensures register { written_register result.action < 32 }
    {
        let image = self.image;
        let action = self.executed.action();
        let load = load_client(image, &action, &self.stores);
        let store = store_client(image, &self.stores);
        let motion = port_move(&self.port, &self.storage.cache, load, store);
        let event = event_of(&motion, &action, self.cycle, &self.storage.cache);
        let word = self.storage.access(image, &motion);
        let served = serve(image, &action, &self.stores, word);
        Turn {
            action,
            motion,
            event,
            served,
        }
    }

    // EX, predictor, ID and IF: what leaves EX and ID, what the predictor learns, and the next fetch.
    #[tactic(auto, unfolding(crate::specs::Cycle::cycled))]
    fn advance_pipeline(&mut self, fate: &Fate, turn: &Turn)
        ensures { state_of self.new ≡ turns.with_pipeline (cycles.cycled fate.now turn.now.motion turn.now.served (state_of self.old)) (state_of self.old) }
    {
        let image = self.image;
        let fetch = self.pc.get();
        let npc = self.npc.get();
        let predicted = self.predictor.next(fetch);
        let next = pc_after(fate, predicted, &self.buffer, npc, fetch);
        let now = Counts {
            cycle: self.cycle,
            issued: self.issued,
        };
        let issue = leave_execution(
            image,
            fate,
            turn.served.goes,
            &self.decoded,
            now,
            npc,
            &self.executed,
        );
        let decoded = decoded_after(
            fate,
            &self.decoded,
            &self.buffer,
            &self.written,
            &self.registers,
        );
        train(&mut self.predictor, issue.lesson, self.decoded.pc);
        update_buffer(&mut self.buffer, fate, image, fetch);
        self.pc = ProgramCounter { word: next };
        self.npc = ProgramCounter { word: issue.npc };
        self.decoded = decoded;
        self.executed = issue.executed;
        self.issued = issue.issued;
    }
}
