// A recorded run, made ready to be asked for the classes of its bits.
ghost use Rattle.std.specs.Prelude.{◌≡◌, ◌≢◌, ◌+◌, ◌*◌, ◌^◌, ◌≤◌, ◌<◌, ◌↔◌, IfOk, IsTrue, length};
ghost use Rattle.bit_field.specs.Shapes.{IsPlaceIn};
ghost use Rattle.rv_isa.specs.Runs.{IsTrace};
ghost use Rattle.rv_isa.specs.declared.error.IsaError.TheVariants.{NoEnd};

use crate::note::Note;
use crate::walk::{Notes, note_run};
use avf_base::{OutOfMemory, Steps};
use bit_field::{Place, bits_in};
use line_life::{Life, data_life};
use need_pass::{NeedTable, needs};
use run_record::Recorded;
use rv_isa::{IsaError, Trace, run_clocked};
use slot_history::{SlotTable, slot_table};
use std::alloc::Global;
use std::marker::Model;
use std::sync::ledger::Ledger;
use tag_dist::{TagTable, tag_table};

/// A recorded run with what is kept of its cycles, its instructions and its events. Of each cycle a note is kept, and no list of states.
/// Contracts see it as the recorded run and the instruction set's run with the recorded clock values.
#[derive(Drop)]
pub struct Analysis<'i> {
    pub(crate) recorded: Recorded<'i>,
    pub(crate) trace: Trace,
    pub(crate) needs: NeedTable,
    pub(crate) notes: Vec<Note>,
    pub(crate) words: Vec<u32>,
    pub(crate) quiet: u32,
    pub(crate) life: Life,
    pub(crate) tags: TagTable,
    pub(crate) slots: SlotTable,
}

impl<'i> Model for Analysis<'i> {
    ghost use Rattle.ace_rules.specs.Analyses.{IsAnalysis};
    ghost use Rattle.ace_rules.specs.Notes.{Story};
    ghost use Rattle.ace_rules.specs.Walks.{story_of};

    ghost Value = { Story };

    ghost view = { λ x. story_of x.recorded x.trace };

    ghost invariant = { λ x. IsAnalysis (story_of x.recorded x.trace) x.needs x.notes.items x.words.items x.quiet x.life x.tags x.slots };
}

/// The error where a run with an end has no trace.
fn out_of_memory(error: IsaError) -> OutOfMemory
    requires { error ≢ NoEnd }
{
    let _want_of_memory = error;
    OutOfMemory
}

/// The instruction set's run with the recorded clock values. It ends after as many instructions as were recorded, and takes as many
/// applications.
fn trace_of<M: Ledger>(
    alloc: Global,
    recorded: &Recorded<'_>,
    applies: &mut Steps<M>,
) -> Result<Trace, OutOfMemory>
    ensures traced { IfOk result (λ trace. IsTrace recorded.now.image recorded.now.clocks trace) }
    ensures count { IfOk result (λ trace. length trace.entries ≤ recorded.now.instructions) }
    ensures ticks { applies.new ≤ applies.old + recorded.now.instructions }
{
    recorded.is_record();
    recorded.image().is_image();
    match run_clocked(
        alloc,
        recorded.image(),
        recorded.instructions(),
        recorded.clocks(),
        applies,
    ) {
        Ok(trace) => Ok(trace),
        Err(error) => Err(out_of_memory(error)),
    }
}

impl<'i> Analysis<'i> {
    /// Makes a recorded run ready: its trace, one walk of a machine beside it, and the tables of its events. It takes as many cycles of
    /// the machine as the run has, and at most 34 applications an instruction.
    pub fn new<L: Ledger, M: Ledger>(
        alloc: Global,
        recorded: Recorded<'i>,
        steps: &mut Steps<L>,
        applies: &mut Steps<M>,
    ) -> Result<Analysis<'i>, OutOfMemory>
        ensures recorded { IfOk result (λ analysis. analysis.r ≡ recorded.entry) }
        ensures steps { steps.new ≤ steps.old + recorded.entry.cycles }
        ensures applies { applies.new ≤ applies.old + 34 * recorded.entry.instructions }
    {
        recorded.is_record();
        recorded.image().is_image();
        let trace = trace_of(alloc, &recorded, applies)?;
        let needs = needs(alloc, &trace)?;
        let Notes {
            cycles: notes,
            words,
            quiet,
        } = note_run(alloc, &recorded, &trace, &needs, steps, applies)?;
        let shape = recorded.shape();
        let events = recorded.events();
        let life = data_life(alloc, events, recorded.cycles(), &shape)?;
        let tags = tag_table(alloc, events, &trace, &shape)?;
        let slots = slot_table(alloc, events, &shape)?;
        Ok(Analysis {
            recorded,
            trace,
            needs,
            notes,
            words,
            quiet,
            life,
            tags,
            slots,
        })
    }

    /// The recorded run.
    pub fn recorded(&self) -> &Recorded<'i>
        ensures { result.now ≡ self.now.r }
    {
        &self.recorded
    }

    /// Whether a place is one of the machine's, and a cycle one of the run's.
    pub fn in_range(&self, place: &Place, cycle: u32) -> bool
        ensures { IsTrue result ↔ (IsPlaceIn self.now.r.shape place.now × (cycle < self.now.r.cycles)) }
    {
        place.bit < bits_in(place.structure, &self.recorded.shape())
            && cycle < self.recorded.cycles()
    }
}
