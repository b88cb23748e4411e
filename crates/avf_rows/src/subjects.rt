// The tests: one for each subject, all of whose rows hold.
ghost use Rattle.std.specs.Prelude.{◌≡◌, ◌<◌};

use crate::check_rows::checks_hold;
use crate::cycle_rows::{CYCLES, DEAD};
use crate::fate_rows::fates_hold;
use crate::fault_rows::faults_hold;
use crate::flip_rows::FLIPS;
use crate::generated_rows::GENERATED;
use crate::image_rows::{changes_hold, lengths_hold};
use crate::plan_rows::{DUES, MAPS, PLANS};
use crate::query_rows::{MEMORY, PIPELINE, REFUSALS};
use crate::report_rows::REPORTS;
use crate::rows::{Row, first_wrong};
use crate::source_rows::sources_hold;
use crate::turn_rows::turns_hold;
use crate::word_rows::SPELLINGS;
use avf_base::{OutOfMemory, Steps, counter};
use std::alloc::Global;
use std::marker::Brand;
use std::process::Abort;
use std::rt::Files;
use std::sync::ledger::{Blank, Ledger};

// What rows are about.
#[derive(Clone, Copy)]
enum Subject {
    Spellings,
    Cycles,
    Dead,
    Changes,
    Lengths,
    Verdicts,
    Plans,
    Dues,
    Maps,
    Refusals,
    Pipeline,
    Memory,
    Reports,
    Generated,
    Sources,
    Checks,
    Faults,
    Turns,
    Fates,
}

// The rows of words and texts of a subject.
fn rows_of(subject: Subject) -> &'static [Row] {
    match subject {
        Subject::Spellings => &SPELLINGS,
        Subject::Cycles => &CYCLES,
        Subject::Dead => &DEAD,
        Subject::Verdicts => &FLIPS,
        Subject::Plans => &PLANS,
        Subject::Dues => &DUES,
        Subject::Maps => &MAPS,
        Subject::Refusals => &REFUSALS,
        Subject::Pipeline => &PIPELINE,
        Subject::Memory => &MEMORY,
        Subject::Reports => &REPORTS,
        Subject::Generated => &GENERATED,
        _ => &[],
    }
}

// Whether the other rows of a subject hold.
fn others_hold<L: Ledger, M: Ledger>(
    alloc: Global,
    subject: Subject,
    steps: &mut Steps<L>,
    applies: &mut Steps<M>,
) -> Result<bool, OutOfMemory> {
    match subject {
        Subject::Changes => changes_hold(alloc, steps, applies),
        Subject::Lengths => lengths_hold(alloc, steps, applies),
        Subject::Sources => sources_hold(alloc, steps, applies),
        Subject::Checks => checks_hold(alloc, steps, applies),
        Subject::Faults => faults_hold(alloc, steps, applies),
        Subject::Turns => turns_hold(alloc, steps, applies),
        Subject::Fates => fates_hold(alloc, steps, applies),
        _ => Ok(true),
    }
}

// Asserts the rows of subjects. The number of the first row that doesn't hold, from 1 on, is told.
fn hold<R: Abort + AllocGlobal + Files, L: Ledger, M: Ledger>(
    rt: &R,
    one: Blank,
    other: Blank,
    subjects: &[Subject],
)
    requires one_name { one.name ≡ L.name }
    requires one_parts { one.parts ≡ L.parts }
    requires one_some { 0 < L.parts }
    requires other_name { other.name ≡ M.name }
    requires other_parts { other.parts ≡ M.parts }
    requires other_some { 0 < M.parts }
{
    let alloc = rt.alloc();
    let mut steps = counter::<R, L>(rt, one);
    let mut applies = counter::<R, M>(rt, other);
    for subject in subjects {
        let wrong = first_wrong(alloc, rows_of(*subject), &mut steps, &mut applies);
        assert_eq!(rt; wrong.expect(rt, "ample memory"), 0);
        let others = others_hold(alloc, *subject, &mut steps, &mut applies);
        assert!(rt; others.expect(rt, "ample memory"));
    }
}

#[test]
fn texts_and_refusals(rt: HostRuntime) {
    hold::<HostRuntime, Brand, Brand>(
        &rt,
        Blank::new(1),
        Blank::new(1),
        &[
            Subject::Spellings,
            Subject::Cycles,
            Subject::Dead,
            Subject::Changes,
            Subject::Lengths,
        ],
    );
}

#[test]
fn verdicts(rt: HostRuntime) {
    hold::<HostRuntime, Brand, Brand>(&rt, Blank::new(1), Blank::new(1), &[Subject::Verdicts]);
}

#[test]
fn plans_and_campaigns(rt: HostRuntime) {
    hold::<HostRuntime, Brand, Brand>(
        &rt,
        Blank::new(1),
        Blank::new(1),
        &[Subject::Plans, Subject::Dues, Subject::Maps],
    );
}

#[test]
fn classes(rt: HostRuntime) {
    hold::<HostRuntime, Brand, Brand>(
        &rt,
        Blank::new(1),
        Blank::new(1),
        &[Subject::Refusals, Subject::Pipeline, Subject::Memory],
    );
}

#[test]
fn counts(rt: HostRuntime) {
    hold::<HostRuntime, Brand, Brand>(
        &rt,
        Blank::new(1),
        Blank::new(1),
        &[Subject::Reports, Subject::Generated],
    );
}

#[test]
fn sources(rt: HostRuntime) {
    hold::<HostRuntime, Brand, Brand>(&rt, Blank::new(1), Blank::new(1), &[Subject::Sources]);
}

#[test]
fn checked_maps(rt: HostRuntime) {
    hold::<HostRuntime, Brand, Brand>(&rt, Blank::new(1), Blank::new(1), &[Subject::Checks]);
}

#[test]
fn calls_that_fail(rt: HostRuntime) {
    hold::<HostRuntime, Brand, Brand>(&rt, Blank::new(1), Blank::new(1), &[Subject::Faults]);
}

#[test]
fn calls_that_fail_in_turn(rt: HostRuntime) {
    hold::<HostRuntime, Brand, Brand>(&rt, Blank::new(1), Blank::new(1), &[Subject::Turns]);
}

#[test]
fn fates_under_parity(rt: HostRuntime) {
    hold::<HostRuntime, Brand, Brand>(&rt, Blank::new(1), Blank::new(1), &[Subject::Fates]);
}
