// The top call.
ghost use Rattle.std.specs.Prelude.{◌≡◌, ◌⊎◌, ◌-◌, List, ℕ, IfOk, string_bytes};
ghost use Rattle.avf_base.specs.Refusals.{line_of};
ghost use Rattle.avf_tool.specs.Ends.{ByStatus, Ends, IsNoFault, MayTell, NeverFails, Serves, TookLine, faults_of, use_of};
ghost use Rattle.avf_tool.specs.Law.{MapLaw, ProgramLaw};
ghost use Rattle.avf_tool.specs.Words.{command_of, texts};
ghost use Rattle.avf_tool.specs.Work.{Works};

use crate::command::read_words;
use crate::perform::perform;
use avf_base::{Failed, Refusal, Shelf, Sink, Steps, write_all};
use std::alloc::{AllocError, Global};
use std::sync::ledger::Ledger;

// Performs the words, and gives the text to `out`.
fn serve<H: Shelf, O: Sink, L: Ledger, M: Ledger>(
    alloc: Global,
    words: &[String],
    shelf: &mut H,
    out: &mut O,
    steps: &mut Steps<L>,
    applies: &mut Steps<M>,
) -> Result<(), Refusal>
    ensures serves { Serves (command_of (texts words.now)) (H.holds shelf.old) (faults_of H.faults shelf.old shelf.new) (use_of O.taken O.faults out.old out.new) result }
    ensures keeps { (n : List ℕ) → H.holds shelf.new n ≡ H.holds shelf.old n }
    ensures work { Works (command_of (texts words.now)) (H.holds shelf.old) (steps.new - steps.old) (applies.new - applies.old) }
{
    let Some(command) = read_words(words) else {
        return Err(Refusal::Usage);
    };
    let text = perform(alloc, &command, shelf, steps, applies)?;
    match write_all(out, &text) {
        Ok(()) => Ok(()),
        Err(Failed) => Err(Refusal::WriteFault),
    }
}

// Writes a line, as far as it is taken.
fn say<E: Sink>(err: &mut E, line: &[u8])
    ensures { TookLine line.now (use_of E.taken E.faults err.old err.new) }
{
    let _ = write_all(err, line);
}

// Writes the line of a refusal, or, where there was no memory to make it, that of want of memory. Answers which was told.
fn say_made<E: Sink>(err: &mut E, refusal: Refusal, line: Result<String, AllocError>) -> Refusal
    requires { IfOk line (λ text. string_bytes text ≡ line_of refusal) }
    ensures told { (result ≡ refusal) ⊎ (result ≡ Refusal.OutOfMemory) }
    ensures line { TookLine (line_of result) (use_of E.taken E.faults err.old err.new) }
{
    match line {
        Ok(text) => {
            say(err, text.as_bytes());
            refusal
        }
        Err(_) => {
            say(err, b"avf: out of memory\n");
            Refusal::OutOfMemory
        }
    }
}

// Writes the line of a refusal, and answers which was told.
fn refuse<E: Sink>(alloc: Global, refusal: Refusal, err: &mut E) -> Refusal
    ensures told { MayTell refusal result }
    ensures line { TookLine (line_of result) (use_of E.taken E.faults err.old err.new) }
{
    match refusal {
        Refusal::Usage => say(err, b"avf: usage\n"),
        Refusal::ReadFault => say(err, b"avf: read fault\n"),
        Refusal::BadImage(k) => {
            return say_made(err, refusal, format!(in alloc; "avf: bad image {k}\n"));
        }
        Refusal::NoEnd => say(err, b"avf: no end\n"),
        Refusal::NoSuchBit => say(err, b"avf: no such bit\n"),
        Refusal::WriteFault => say(err, b"avf: write fault\n"),
        Refusal::OutOfMemory => say(err, b"avf: out of memory\n"),
        Refusal::BadSource { line, cause } => {
            return say_made(
                err,
                refusal,
                format!(in alloc; "avf: bad source {line} {cause}\n"),
            );
        }
        Refusal::BadMap { line, cause } => {
            return say_made(
                err,
                refusal,
                format!(in alloc; "avf: bad map {line} {cause}\n"),
            );
        }
    }
    refusal
}

// The same as `run_tool`, by how it ends.
fn end<H: Shelf, O: Sink, E: Sink, L: Ledger, M: Ledger>(
    alloc: Global,
    words: &[String],
    shelf: &mut H,
    out: &mut O,
    err: &mut E,
    steps: &mut Steps<L>,
    applies: &mut Steps<M>,
) -> u8
    ensures ends { Ends (command_of (texts words.now)) (H.holds shelf.old) (faults_of H.faults shelf.old shelf.new)
        (use_of O.taken O.faults out.old out.new) (use_of E.taken E.faults err.old err.new) result }
    ensures keeps { (n : List ℕ) → H.holds shelf.new n ≡ H.holds shelf.old n }
    ensures work { Works (command_of (texts words.now)) (H.holds shelf.old) (steps.new - steps.old) (applies.new - applies.old) }
{
    match serve(alloc, words, shelf, out, steps, applies) {
        Ok(()) => 0,
        Err(refusal) => refuse(alloc, refusal, err).status(),
    }
}

/// Does all that the program does: reads the words after the program's name, works out the command's text from the shelf's
/// files and gives it to `out`, or gives the line of a refusal to `err`. It answers the program's status: 0, or that of the
/// refusal, 2 to 10.
///
/// `steps` counts the machine's cycles that were simulated, and `applies` the instructions that the instruction set ran.
pub fn run_tool<H: Shelf, O: Sink, E: Sink, L: Ledger, M: Ledger>(
    alloc: Global,
    words: &[String],
    shelf: &mut H,
    out: &mut O,
    err: &mut E,
    steps: &mut Steps<L>,
    applies: &mut Steps<M>,
) -> u8
    ensures ends { Ends (command_of (texts words.now)) (H.holds shelf.old) (faults_of H.faults shelf.old shelf.new)
        (use_of O.taken O.faults out.old out.new) (use_of E.taken E.faults err.old err.new) result }
    ensures by_status { ByStatus (command_of (texts words.now)) (H.holds shelf.old) (faults_of H.faults shelf.old shelf.new)
        (use_of O.taken O.faults out.old out.new) (use_of E.taken E.faults err.old err.new) result }
    // Over files and a standard output that never fail.
    ensures plain { NeverFails H.faults → NeverFails O.faults → IsNoFault result }
    ensures keeps { (n : List ℕ) → H.holds shelf.new n ≡ H.holds shelf.old n }
    ensures programs { ProgramLaw }
    ensures maps { MapLaw }
    ensures work { Works (command_of (texts words.now)) (H.holds shelf.old) (steps.new - steps.old) (applies.new - applies.old) }
{
    end(alloc, words, shelf, out, err, steps, applies)
}
