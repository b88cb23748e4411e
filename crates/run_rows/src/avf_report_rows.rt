// Rows of avf_report: that the texts come with ample memory, and both of them for a run of three instructions: addi a0, zero, 7;
// addi a7, zero, 93; ecall. The expected texts are given, and not made by the program.
ghost use Rattle.std.specs.Prelude.{◌≡◌, ◌<◌};

use crate::runs::{image_of, three_counts};
use ace_class::Counts;
use avf_base::{Steps, counter};
use avf_report::{report_csv, report_text};
use elf_fixture::THREE;
use run_log::{Recorded, record};
use std::alloc::Global;
use std::fs::Files;
use std::marker::Brand;
use std::process::Abort;
use std::sync::ledger::{Blank, Ledger};
use std::test::Fail;

const REPORT: &str = "\
cycles 6\n\
instructions 3\n\
end exit 7\n\
structure bits ace ppm\n\
pc 30 0 0\n\
npc 30 180 1000000\n\
bht 128 0 0\n\
btb 912 0 0\n\
ib 256 83 54036\n\
idex 153 118 128540\n\
exmem 79 74 156118\n\
memwb 37 13 58558\n\
rf 992 0 0\n\
sb 264 0 0\n\
port 6 0 0\n\
cdata 8192 0 0\n\
ctag 1472 0 0\n\
cvalid 64 0 0\n\
cdirty 64 0 0\n\
clru 32 0 0\n\
total 12711 468 6136\n\
U1 6678\n\
U2 61709\n\
U3 276\n\
U4 207\n\
U5 484\n\
U6 5952\n\
U7 0\n\
U8 96\n\
U9 0\n\
U10 0\n\
U11 384\n\
U12 0\n\
U13 12\n\
";

const TABLE: &str = "\
structure,bits,cycles,ace,ppm,U1,U2,U3,U4,U5,U6,U7,U8,U9,U10,U11,U12,U13\n\
pc,30,6,0,0,180,0,0,0,0,0,0,0,0,0,0,0,0\n\
npc,30,6,180,1000000,0,0,0,0,0,0,0,0,0,0,0,0,0\n\
bht,128,6,0,0,768,0,0,0,0,0,0,0,0,0,0,0,0\n\
btb,912,6,0,0,5472,0,0,0,0,0,0,0,0,0,0,0,0\n\
ib,256,6,83,54036,0,1197,128,112,16,0,0,0,0,0,0,0,0\n\
idex,153,6,118,128540,30,294,148,95,233,0,0,0,0,0,0,0,0\n\
exmem,79,6,74,156118,0,234,0,0,154,0,0,0,0,0,0,0,12\n\
memwb,37,6,13,58558,0,128,0,0,81,0,0,0,0,0,0,0,0\n\
rf,992,6,0,0,0,0,0,0,0,5952,0,0,0,0,0,0,0\n\
sb,264,6,0,0,0,1488,0,0,0,0,0,96,0,0,0,0,0\n\
port,6,6,0,0,36,0,0,0,0,0,0,0,0,0,0,0,0\n\
cdata,8192,6,0,0,0,49152,0,0,0,0,0,0,0,0,0,0,0\n\
ctag,1472,6,0,0,0,8832,0,0,0,0,0,0,0,0,0,0,0\n\
cvalid,64,6,0,0,0,0,0,0,0,0,0,0,0,0,384,0,0\n\
cdirty,64,6,0,0,0,384,0,0,0,0,0,0,0,0,0,0,0\n\
clru,32,6,0,0,192,0,0,0,0,0,0,0,0,0,0,0,0\n\
";

fn is_told_so(alloc: Global, recorded: &Recorded<'_>, counts: &Counts) -> Result<bool, Fail>
    requires cycles { counts.now.cycles ≡ recorded.now.cycles }
    requires shape { counts.now.shape ≡ recorded.now.shape }
{
    Ok(report_text(alloc, recorded, counts)?.as_str() == REPORT)
}

fn check_three<L: Ledger>(
    rt: &impl Abort,
    alloc: Global,
    steps: &mut Steps<L>,
) -> Result<(), Fail> {
    let counts = three_counts();
    let image = image_of(alloc, &THREE)?;
    assert!(rt; image.ram().len() == 1_048_576);
    let recorded = record(alloc, &image, 6, steps)?;
    assert!(rt; recorded.cycles() == counts.cycles() && recorded.shape() == counts.shape());
    assert!(rt; is_told_so(alloc, &recorded, &counts)?);
    assert!(rt; report_csv(alloc, &counts)?.as_slice() == TABLE.as_bytes());
    Ok(())
}

fn check_all<R: Abort + Files, L: Ledger>(rt: &R, alloc: Global, blank: Blank) -> Result<(), Fail>
    requires name { blank.name ≡ L.name }
    requires parts { blank.parts ≡ L.parts }
    requires some { 0 < L.parts }
{
    let mut steps = counter::<R, L>(rt, blank);
    check_three(rt, alloc, &mut steps)
}

#[test]
fn three_instructions_are_reported(rt: HostRuntime) -> Result<(), Fail> {
    check_all::<HostRuntime, Brand>(&rt, rt.alloc(), Blank::new(1))
}
