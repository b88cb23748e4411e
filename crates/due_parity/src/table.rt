// The touches of every group in a run.
ghost use Rattle.std.specs.Prelude.{◌≡◌, ◌+◌, ◌<◌, ◌≤◌, [], IfOk, length, replicate, slice_index_or};
ghost use Rattle.bit_field.specs.Shapes.{IsPlaceIn};
ghost use Rattle.due_parity.specs.Fates as fates;
ghost use Rattle.due_parity.specs.Fates.{Says};
ghost use Rattle.due_parity.specs.Notes.{IsTable, rows_of};
ghost use Rattle.due_parity.specs.Touches.{IsProtected, group_of};

use crate::bytes::note_event;
use crate::fate::Fate;
use crate::registers::{decoding_of, note_registers, op_taken};
use crate::watched::Watched;
use ace_rules::Analysis;
use avf_base::{OutOfMemory, Steps};
use bit_field::{Place, Structure};
use cyc_machine::{Machine, REGISTERS};
use event_log::slot_count;
use run_record::Recorded;
use slot_history::slot_table;
use std::alloc::Global;
use std::marker::Model;
use std::sync::ledger::Ledger;

/// The touches of every register and of every byte of the cache in a run.
#[derive(Drop)]
pub struct FateTable {
    registers: Vec<Watched>,
    bytes: Vec<Watched>,
}

impl Model for FateTable {
    ghost use Rattle.due_parity.specs.Notes.{Rows};

    ghost Value = { Rows };

    ghost view = { λ x. record { registers = x.registers.items; bytes = x.bytes.items } };
}

impl FateTable {
    /// What becomes of a flip of the bit at a place before a cycle of the run that the table is of, and what that says of the flipped run.
    /// Where it is quiet, the flipped run has the recorded number of cycles, output and end. Where it is detected, the flip is still the
    /// only difference before the cycle that detects it, and no cycle before that was seen unlike. It takes no memory.
    pub fn fate(&self, a: &Analysis<'_>, place: &Place, cycle: u32) -> Fate
        requires table { IsTable a.now.r self.now }
        requires protected { IsProtected place.now.structure }
        requires place { IsPlaceIn a.now.r.shape place.now }
        requires cycle { cycle < a.now.r.cycles }
        ensures exact { result ≡ fates.fate a.now.r place.now cycle }
        ensures says { Says a.now.r place.now cycle result }
    {
        a.recorded().is_record();
        a.recorded().image().is_image();
        self.row(place).fate(cycle)
    }

    /// The touches of the group of the bit at a place.
    pub fn row(&self, place: &Place) -> &Watched
        requires protected { IsProtected place.now.structure }
        requires group { group_of place.now.structure place.now.bit < length (rows_of place.now.structure self.now) }
        ensures { result.now ≡ slice_index_or (rows_of place.now.structure self.now) (group_of place.now.structure place.now.bit) [] }
    {
        match place.structure {
            Structure::Rf => &self.registers[(place.bit / 32) as usize],
            _ => &self.bytes[(place.bit / 8) as usize],
        }
    }
}

/// The touches of every group in the run of an analysis. It takes as many steps of a machine as the run has cycles.
pub fn watch<L: Ledger>(
    alloc: Global,
    a: &Analysis<'_>,
    steps: &mut Steps<L>,
) -> Result<FateTable, OutOfMemory>
    ensures table { IfOk result (λ table. IsTable a.now.r table) }
    ensures steps { steps.new ≤ steps.old + a.now.r.cycles }
{
    watch_run(alloc, a.recorded(), steps)
}

/// So many lists without a touch.
fn no_touches(alloc: Global, count: u32) -> Result<Vec<Watched>, OutOfMemory>
    ensures { IfOk result (λ v. v.items ≡ replicate count []) }
{
    let mut groups = Vec::new(alloc);
    for _group in 0..count {
        groups.push(Watched::new(alloc))?;
    }
    Ok(groups)
}

/// The touches of every group in a recorded run, by a machine that goes from reset as the recorded one went.
fn watch_run<L: Ledger>(
    alloc: Global,
    recorded: &Recorded<'_>,
    steps: &mut Steps<L>,
) -> Result<FateTable, OutOfMemory>
    ensures table { IfOk result (λ table. IsTable recorded.now table) }
    ensures steps { steps.new ≤ steps.old + recorded.now.cycles }
{
    recorded.is_record();
    recorded.image().is_image();
    let shape = recorded.shape();
    let history = slot_table(alloc, recorded.events(), &shape)?;
    let mut machine = Machine::shaped(alloc, recorded.image(), &shape)?;
    let mut registers = no_touches(alloc, REGISTERS as u32)?;
    let mut bytes = no_touches(alloc, 16 * slot_count(&shape))?;
    for t in 0..recorded.cycles() {
        let decoding = decoding_of(&machine);
        let report = machine.step(steps);
        let op = op_taken(&decoding, &report);
        note_registers(&mut registers, t, decoding.rd, op)?;
        note_event(&mut bytes, t, report.event, &history, &shape)?;
    }
    Ok(FateTable { registers, bytes })
}
