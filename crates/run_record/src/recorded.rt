// What is recorded of a run.

use avf_base::End;
use bit_field::Shape;
use elf_load::Image;
use std::marker::Model;
use wb_cache::CacheEvent;

/// The greatest number of cycles of a recorded run.
pub const LONGEST_RUN: u32 = 1_000_000;

/// The recorded run of an image: how many cycles and instructions it took, what it put, how it ended, and what happened on
/// the way. No list of states is kept. Every record is that of the machine's run on its image, from reset to the end, in at most
/// `LONGEST_RUN` cycles.
#[derive(Drop)]
pub struct Recorded<'i> {
    pub(crate) image: &'i Image,
    pub(crate) shape: Shape,
    pub(crate) cycles: u32,
    pub(crate) instructions: u32,
    pub(crate) output: Vec<u8>,
    pub(crate) end: End,
    pub(crate) events: Vec<CacheEvent>,
    pub(crate) issues: Vec<u32>,
    pub(crate) clocks: Vec<u32>,
}

impl<'i> Model for Recorded<'i> {
    ghost use Rattle.std.specs.Prelude.{◌≤◌};
    ghost use Rattle.run_record.specs.Run.{IsRecord, RecordedRun};
    ghost use Rattle.run_record.specs.declared.recorded.TheConstants.{LONGEST_RUN};

    ghost Value = { RecordedRun };

    ghost view = { λ x. record {
      image = x.image.now;
      shape = x.shape;
      cycles = x.cycles;
      instructions = x.instructions;
      output = x.output.items;
      end = x.end;
      events = x.events.items;
      issues = x.issues.items;
      clocks = x.clocks.items;
    } };

    ghost invariant = { λ x. IsRecord (record {
      image = x.image.now;
      shape = x.shape;
      cycles = x.cycles;
      instructions = x.instructions;
      output = x.output.items;
      end = x.end;
      events = x.events.items;
      issues = x.issues.items;
      clocks = x.clocks.items;
    }) × (x.cycles ≤ LONGEST_RUN) };
}

impl<'i> Recorded<'i> {
    ghost use Rattle.std.specs.Prelude.{◌≡◌, ◌<◌, ◌≤◌, slice_index};
    ghost use Rattle.run_record.specs.Run.{IsRecord};
    ghost use Rattle.run_record.specs.Times.{IsTimed};

    /// Changes nothing; says that every record is that of its image's run, what of it lies below a cycle, how many cycles it has at
    /// most, and that a cycle retires at most one instruction.
    pub fn is_record(&self)
        ensures record { IsRecord self.now }
        ensures timed { IsTimed self.now }
        ensures short { self.now.cycles ≤ LONGEST_RUN }
        ensures few { self.now.instructions ≤ self.now.cycles }
    {
        let _cycles = self.cycles;
    }

    /// The image that ran.
    pub fn image(&self) -> &'i Image
        ensures { result.now ≡ self.now.image }
    {
        self.image
    }

    /// The shape of RAM and cache.
    pub fn shape(&self) -> Shape
        ensures { result ≡ self.now.shape }
    {
        self.shape
    }

    /// The number of cycles, the ending one included.
    pub fn cycles(&self) -> u32
        ensures { result ≡ self.now.cycles }
    {
        self.cycles
    }

    /// The number of instructions that were retired, the ending one included.
    pub fn instructions(&self) -> u32
        ensures { result ≡ self.now.instructions }
    {
        self.instructions
    }

    /// How the run ended.
    pub fn end(&self) -> End
        ensures { result ≡ self.now.end }
    {
        self.end
    }

    /// The bytes that the program put.
    pub fn output(&self) -> &[u8]
        ensures { result.now ≡ self.now.output }
    {
        &self.output
    }

    /// The events of the cache, in order of cycles.
    pub fn events(&self) -> &[CacheEvent]
        ensures { result.now ≡ self.now.events }
    {
        &self.events
    }

    /// The cycle in which instruction `i` left EX.
    pub fn issued_at(&self, i: u32) -> u32
        requires { i < self.now.instructions }
        ensures { result ≡ slice_index self.now.issues i }
    {
        self.issues[i as usize]
    }

    /// The cycles in which a read of the cycle counter left EX, in order.
    pub fn clocks(&self) -> &[u32]
        ensures { result.now ≡ self.now.clocks }
    {
        &self.clocks
    }
}
