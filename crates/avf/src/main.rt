// The program: hands the words, the real files, the standard streams and two counters to `run_tool`.
#![tactic(auto)]

ghost use Rattle.std.specs.Prelude.{◌≡◌, ◌<◌, ◌⊎◌, IfErr};

use avf_base::{FileShelf, StdSink, counter};
use avf_tool::run_tool;
use std::alloc::Global;
use std::env;
use std::io::ErrorKind;
use std::marker::Brand;
use std::process::ExitCode;
use std::sync::ledger::{Blank, Ledger};

// The status where the system gives no words, or one that isn't text.
const NO_WORDS: u8 = 1;

// The status where there is no memory for the words.
const NO_MEMORY: u8 = 8;

// The words after the program's name, or the status that says why there are none.
fn words(rt: &HostRuntime) -> Result<Vec<String>, u8>
    ensures status { IfErr result (λ n. (n ≡ 1) ⊎ (n ≡ 8)) }
{
    let args = match env::args(rt) {
        Ok(args) => args,
        Err(error) => {
            return Err(if error.kind() == ErrorKind::OutOfMemory {
                NO_MEMORY
            } else {
                NO_WORDS
            });
        }
    };
    let mut words = Vec::new(rt.alloc());
    for word in args.skip(1) {
        if words.push(word).is_err() {
            return Err(NO_MEMORY);
        }
    }
    Ok(words)
}

// Runs the tool over the real files and streams, with a counter from each blank.
fn run<L: Ledger, M: Ledger>(rt: HostRuntime, words: &[String], one: Blank, other: Blank) -> u8
    requires one_name { one.name ≡ L.name }
    requires one_parts { one.parts ≡ L.parts }
    requires one_some { 0 < L.parts }
    requires other_name { other.name ≡ M.name }
    requires other_parts { other.parts ≡ M.parts }
    requires other_some { 0 < M.parts }
{
    let alloc: Global = rt.alloc();
    let mut steps = counter::<HostRuntime, L>(&rt, one);
    let mut applies = counter::<HostRuntime, M>(&rt, other);
    let mut out = StdSink::new(rt.stdout());
    let mut err = StdSink::new(rt.stderr());
    let mut shelf = FileShelf::new(rt);
    run_tool(
        alloc,
        words,
        &mut shelf,
        &mut out,
        &mut err,
        &mut steps,
        &mut applies,
    )
}

fn main(rt: HostRuntime) -> ExitCode {
    ExitCode::from(match words(&rt) {
        Ok(words) => run::<Brand, Brand>(rt, &words, Blank::new(1), Blank::new(1)),
        Err(status) => status,
    })
}
