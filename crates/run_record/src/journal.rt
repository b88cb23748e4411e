// What is written down cycle by cycle.
ghost use Rattle.std.specs.Prelude.{◌≡◌, ◌+◌, ◌<◌, ◌≤◌, ◌^◌, OnOk};
ghost use Rattle.cyc_machine.specs.Run.{with_one};
ghost use Rattle.run_record.specs.Journals.{Adds, IsEmpty};
ghost use Rattle.run_record.specs.Journals as journals;
ghost use Rattle.run_record.specs.Run.{IsRecord};

use crate::recorded::{LONGEST_RUN, Recorded};
use avf_base::End;
use bit_field::Shape;
use cyc_machine::CycleReport;
use elf_load::Image;
use std::alloc::{AllocError, Global};
use wb_cache::CacheEvent;

/// The lists of a run so far: the bytes put, the events of the cache, the cycles in which an instruction left EX, those in which
/// that was a read of the cycle counter, and how many instructions were retired.
#[derive(Drop)]
pub struct Journal {
    pub output: Vec<u8>,
    pub events: Vec<CacheEvent>,
    pub issues: Vec<u32>,
    pub clocks: Vec<u32>,
    pub retired: u32,
}

impl Journal {
    /// Nothing was written down.
    pub fn new(alloc: Global) -> Journal
        ensures { IsEmpty result }
    {
        Journal {
            output: Vec::new(alloc),
            events: Vec::new(alloc),
            issues: Vec::new(alloc),
            clocks: Vec::new(alloc),
            retired: 0,
        }
    }

    /// Writes down what the cycle of this number reports; `reads_clock` says whether ID/EX held a read of the cycle counter.
    /// After want of memory the lists may have grown in part, and no record can be made of them.
    pub fn note(
        &mut self,
        report: &CycleReport,
        cycle: u32,
        reads_clock: bool,
    ) -> Result<(), AllocError>
        requires { self.old.retired < 2 ^ 31 }
        ensures { OnOk result (Adds (journals.entry_by report.now cycle reads_clock) self.old self.new) }
    {
        keep(&mut self.output, report.put)?;
        keep(&mut self.events, report.event)?;
        let issues = report.issued.is_some();
        keep(&mut self.issues, issues.then_some(cycle))?;
        keep(&mut self.clocks, (issues && reads_clock).then_some(cycle))?;
        if report.retired {
            self.retired += 1;
        }
        Ok(())
    }

    /// The record of a run on an image that ended so after so many cycles, at most `LONGEST_RUN`, all of which are written down.
    pub fn close<'i>(self, image: &'i Image, shape: &Shape, cycles: u32, end: End) -> Recorded<'i>
        requires record { IsRecord (journals.closed image.now shape.now cycles end self) }
        requires short { cycles ≤ LONGEST_RUN }
        ensures { result ≡ journals.closed image.now shape.now cycles end self }
    {
        let Journal {
            output,
            events,
            issues,
            clocks,
            retired,
        } = self;
        Recorded {
            image,
            shape: *shape,
            cycles,
            instructions: retired,
            output,
            end,
            events,
            issues,
            clocks,
        }
    }
}

fn keep<T: Drop>(list: &mut Vec<T>, item: Option<T>) -> Result<(), AllocError>
    ensures { OnOk result (list.new.items ≡ with_one list.old.items item) }
{
    if let Some(item) = item {
        list.push(item)?;
    }
    Ok(())
}
