// The texts of the short commands.
ghost use Rattle.std.specs.Prelude.{◌≡◌, IfOk, string_bytes};
ghost use Rattle.avf_tool.specs.Texts.{end_number, end_word, output_text};
ghost use Rattle.avf_tool.specs.Texts as texts;

use ace_class::Class;
use avf_base::End;
use dead_class::{DeadClass, DeadTable};
use flip_replay::Verdict;
use run_log::Recorded;
use std::alloc::{AllocError, Global};

fn end_word(end: End) -> &'static str
    ensures { result.now ≡ end_word end }
{
    match end {
        End::Exit(_) => "exit",
        End::Trap(_) => "trap",
    }
}

fn end_number(end: End) -> u8
    ensures { result ≡ end_number end }
{
    match end {
        End::Exit(n) => n,
        End::Trap(n) => n,
    }
}

// The bytes that a program put, as hexadecimal digits, or `-`.
fn output_text(alloc: Global, output: &[u8]) -> Result<String, AllocError>
    ensures { IfOk result (λ text. string_bytes text ≡ output_text output.now) }
{
    match output {
        [] => String::from_str(alloc, "-"),
        [_, ..] => hex::encode(alloc, output),
    }
}

/// The text of `run`: what the program put, how it ended, and how many instructions were retired.
pub fn run_text(alloc: Global, run: &Recorded<'_>) -> Result<String, AllocError>
    ensures { IfOk result (λ text. string_bytes text ≡ texts.run_text run.now.output run.now.end run.now.instructions) }
{
    let output = output_text(alloc, run.output())?;
    let word = end_word(run.end());
    let number = end_number(run.end());
    let instructions = run.instructions();
    format!(in alloc; "output {output}\nend {word} {number}\ninstructions {instructions}\n")
}

/// How many instructions there were, and how many of each class.
#[derive(Clone, Copy, Debug, PartialEq, Eq)]
pub struct DeadCounts {
    pub instructions: u32,
    pub needed: u32,
    pub nop: u32,
    pub fdd_reg: u32,
    pub tdd_reg: u32,
    pub fdd_mem: u32,
    pub tdd_mem: u32,
}

/// The counts of a table of classes.
pub fn dead_counts(instructions: u32, table: &DeadTable) -> DeadCounts
    ensures { result ≡ texts.dead_counts instructions table.now }
{
    DeadCounts {
        instructions,
        needed: table.count(DeadClass::Needed),
        nop: table.count(DeadClass::Nop),
        fdd_reg: table.count(DeadClass::FddReg),
        tdd_reg: table.count(DeadClass::TddReg),
        fdd_mem: table.count(DeadClass::FddMem),
        tdd_mem: table.count(DeadClass::TddMem),
    }
}

fn needed_lines(alloc: Global, counts: &DeadCounts) -> Result<String, AllocError>
    ensures { IfOk result (λ text. string_bytes text ≡ texts.needed_lines counts.now) }
{
    let instructions = counts.instructions;
    let needed = counts.needed;
    let nop = counts.nop;
    format!(in alloc; "instructions {instructions}\nneeded {needed}\nnop {nop}\n")
}

fn register_lines(alloc: Global, counts: &DeadCounts) -> Result<String, AllocError>
    ensures { IfOk result (λ text. string_bytes text ≡ texts.register_lines counts.now) }
{
    let fdd_reg = counts.fdd_reg;
    let tdd_reg = counts.tdd_reg;
    format!(in alloc; "fdd-reg {fdd_reg}\ntdd-reg {tdd_reg}\n")
}

fn memory_lines(alloc: Global, counts: &DeadCounts) -> Result<String, AllocError>
    ensures { IfOk result (λ text. string_bytes text ≡ texts.memory_lines counts.now) }
{
    let fdd_mem = counts.fdd_mem;
    let tdd_mem = counts.tdd_mem;
    format!(in alloc; "fdd-mem {fdd_mem}\ntdd-mem {tdd_mem}\n")
}

/// The text of `dead`.
pub fn dead_text(alloc: Global, counts: &DeadCounts) -> Result<String, AllocError>
    ensures { IfOk result (λ text. string_bytes text ≡ texts.dead_text counts.now) }
{
    let needed = needed_lines(alloc, counts)?;
    let registers = register_lines(alloc, counts)?;
    let memory = memory_lines(alloc, counts)?;
    format!(in alloc; "{needed}{registers}{memory}")
}

/// The text of `check`: how many pairs of a bit and a cycle the accepted map has.
pub fn accepted_text(alloc: Global, pairs: u64) -> Result<String, AllocError>
    ensures { IfOk result (λ text. string_bytes text ≡ texts.accepted_text pairs) }
{
    format!(in alloc; "accepted {pairs}\n")
}

/// The text of `query`: the class of a bit.
pub fn class_text(alloc: Global, class: Class) -> Result<String, AllocError>
    ensures { IfOk result (λ text. string_bytes text ≡ texts.class_text class) }
{
    match class {
        Class::Ace => String::from_str(alloc, "ace\n"),
        Class::UnAce(rule) => {
            let number = rule.number();
            format!(in alloc; "unace U{number}\n")
        }
    }
}

/// The text of `flip`: what becomes of the run with a bit flipped.
pub fn verdict_text(alloc: Global, verdict: Verdict) -> Result<String, AllocError>
    ensures { IfOk result (λ text. string_bytes text ≡ texts.verdict_text verdict) }
{
    match verdict {
        Verdict::Same(cycles) => format!(in alloc; "same {cycles}\n"),
        Verdict::Differs(cycle) => format!(in alloc; "differs {cycle}\n"),
        Verdict::NoEnd(cycle) => format!(in alloc; "noend {cycle}\n"),
    }
}
