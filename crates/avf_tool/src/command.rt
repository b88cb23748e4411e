// The words of a command.
ghost use Rattle.std.specs.Prelude.{◌≡◌, MatchOption, IfSome, Some, None, option_map};
ghost use Rattle.bit_field.specs.Shapes.{IsShape};
ghost use Rattle.avf_tool.specs.Words as asked;
ghost use Rattle.avf_tool.specs.Words.{IsDoable, IsTask, asm_job, bit_words, campaign_words, check_job, check_named, due_words, protected_named, command_of, command_on, plan_words, structure_of, task_in, task_job, tasks, texts, with_job, word_number};
ghost use Rattle.avf_tool.specs.Jobs.{job_of};

use crate::numbers::number;
use crate::shape::shape;
use bit_field::{Shape, Structure, plain_shape, structure_named};
use img_gen::MAX_SIZE;
use run_log::LONGEST_RUN;
use strike_campaign::MOST_STRIKES;

/// A bit of a structure, counted from 0, and a cycle of the run, counted from 0. There is no structure where none has the name that
/// was asked for.
#[derive(Clone, Copy, Debug, PartialEq, Eq)]
pub struct BitInCycle {
    pub structure: Option<Structure>,
    pub bit: u32,
    pub cycle: u32,
}

/// How many strikes of which seed; at most `MOST_STRIKES`.
#[derive(Clone, Copy, Debug, PartialEq, Eq)]
pub struct StrikesOfSeed {
    pub seed: u64,
    pub strikes: u32,
}

/// Which structures have parity.
#[derive(Clone, Copy, Debug, PartialEq, Eq)]
pub enum Protected {
    Registers,
    Data,
    Both,
}

/// What a command tells of the run of an image.
#[derive(Clone, Copy, Debug, PartialEq, Eq)]
pub enum Task {
    /// What the program put, how it ended, and how many instructions it had.
    Run,
    /// How many of its instructions are of each class.
    Dead,
    /// How many pairs of a bit and a cycle have each class, as text for people.
    Report,
    /// The same as a table of comma-separated values.
    Csv,
    /// Which structures to protect, where only so many bits can be protected.
    Plan(u32),
    /// What becomes of strikes at random, by class and verdict.
    Campaign(StrikesOfSeed),
    /// How many flips parity detects.
    Due(Protected),
    /// All intervals of cycles in which a bit is un-ACE by one rule.
    Map,
    /// The class of a bit in a cycle.
    Query(BitInCycle),
    /// What becomes of the run with a bit flipped before a cycle.
    Flip(BitInCycle),
}

/// What is told of the run of an image: the machine's shape, the name of the file that has the image, how many cycles the run
/// may take, and what is told of it.
#[derive(Clone, Copy)]
pub struct ImageCommand<'a> {
    pub shape: Shape,
    pub image: &'a str,
    pub budget: u32,
    pub task: Task,
}

/// A program that is generated: its number, its size, 1 to `MAX_SIZE`, and the shape of the machine that runs it.
#[derive(Clone, Copy)]
pub struct BenchCommand {
    pub shape: Shape,
    pub number: u64,
    pub size: u32,
}

/// A map that is checked against the run of an image: the machine's shape, the name of the file that has the image, how many cycles
/// the run may take, and the name of the file that has the map.
#[derive(Clone, Copy)]
pub struct CheckCommand<'a> {
    pub shape: Shape,
    pub image: &'a str,
    pub budget: u32,
    pub map: &'a str,
}

/// A command with its arguments.
#[derive(Clone, Copy)]
pub enum Command<'a> {
    /// It tells of the run of an image.
    Image(ImageCommand<'a>),
    /// It tells of the run of a generated program.
    Generated(BenchCommand),
    /// It checks a map against the run of an image.
    Check(CheckCommand<'a>),
    /// It assembles the source in the file of this name.
    Assembly(&'a str),
}

// A task that has no words of its own.
fn alone(words: &[String], task: Task) -> Option<Task>
    ensures { result ≡ asked.alone task (texts words.now) }
{
    match words {
        [] => Some(task),
        [_, ..] => None,
    }
}

// The structure of this name, if there is one.
#[tactic(auto, using(crate::proofs::StructureNames::named))]
fn structure_of(name: &str) -> Option<Structure>
    ensures { result ≡ structure_of name.now }
{
    structure_named(name)
}

// BIT, CYCLE: below 2^32.
fn word_number(text: &str) -> Option<u32>
    ensures { result ≡ word_number text.now }
{
    Some(number(text, 0, u64::from(u32::MAX))? as u32)
}

// STRUCT BIT CYCLE.
fn bit_words(words: &[String]) -> Option<BitInCycle>
    ensures { result ≡ bit_words (texts words.now) }
{
    match words {
        [name, bit, cycle] => {
            if name.is_empty() {
                return None;
            }
            let structure = structure_of(name.as_str());
            let bit = word_number(bit.as_str())?;
            let cycle = word_number(cycle.as_str())?;
            Some(BitInCycle {
                structure,
                bit,
                cycle,
            })
        }
        _ => None,
    }
}

// `query` with the words behind IMAGE and BUDGET.
fn query_words(words: &[String]) -> Option<Task>
    ensures { result ≡ option_map Task.Query (bit_words (texts words.now)) }
{
    Some(Task::Query(bit_words(words)?))
}

// `flip` with the words behind IMAGE and BUDGET.
fn flip_words(words: &[String]) -> Option<Task>
    ensures { result ≡ option_map Task.Flip (bit_words (texts words.now)) }
{
    Some(Task::Flip(bit_words(words)?))
}

// BITS: below 2^32.
fn plan_words(words: &[String]) -> Option<Task>
    ensures { result ≡ plan_words (texts words.now) }
{
    match words {
        [bits] => Some(Task::Plan(word_number(bits.as_str())?)),
        _ => None,
    }
}

// SEED STRIKES.
fn campaign_words(words: &[String]) -> Option<Task>
    ensures is { result ≡ campaign_words (texts words.now) }
    ensures does { IfSome result IsTask }
{
    match words {
        [seed, strikes] => {
            let seed = number(seed.as_str(), 0, u64::MAX)?;
            let strikes = number(strikes.as_str(), 1, u64::from(MOST_STRIKES))?;
            Some(Task::Campaign(StrikesOfSeed {
                seed,
                strikes: strikes as u32,
            }))
        }
        _ => None,
    }
}

fn protected_named(name: &str) -> Option<Protected>
    ensures { result ≡ protected_named name.now }
{
    match name {
        "rf" => Some(Protected::Registers),
        "cdata" => Some(Protected::Data),
        "both" => Some(Protected::Both),
        _ => None,
    }
}

// PROTECTED.
fn due_words(words: &[String]) -> Option<Task>
    ensures { result ≡ due_words (texts words.now) }
{
    match words {
        [name] => Some(Task::Due(protected_named(name.as_str())?)),
        _ => None,
    }
}

// The task of this name, with the words behind IMAGE and BUDGET. One line each.
fn task_named(name: &str, words: &[String]) -> Option<Task>
    ensures is { result ≡ task_in tasks name.now (texts words.now) }
    ensures does { IfSome result IsTask }
{
    match name {
        "run" => alone(words, Task::Run),
        "dead" => alone(words, Task::Dead),
        "report" => alone(words, Task::Report),
        "csv" => alone(words, Task::Csv),
        "plan" => plan_words(words),
        "campaign" => campaign_words(words),
        "due" => due_words(words),
        "map" => alone(words, Task::Map),
        "query" => query_words(words),
        "flip" => flip_words(words),
        _ => None,
    }
}

fn image_command<'a>(shape: Shape, image: &'a str, budget: &str, task: Task) -> Option<Command<'a>>
    requires shape { IsShape shape }
    requires task { IsTask task }
    ensures is { MatchOption result (asked.image_job shape image.now budget.now task ≡ None) (λ c. asked.image_job shape image.now budget.now task ≡ Some (job_of c)) }
    ensures does { IfSome result (λ c. IsDoable (job_of c)) }
{
    if image.is_empty() {
        return None;
    }
    let budget = number(budget, 1, u64::from(LONGEST_RUN))?;
    Some(Command::Image(ImageCommand {
        shape,
        image,
        budget: budget as u32,
        task,
    }))
}

// NAME IMAGE BUDGET and further words.
fn task_command<'a>(shape: Shape, name: &str, words: &'a [String]) -> Option<Command<'a>>
    requires { IsShape shape }
    ensures is { MatchOption result (task_job shape name.now (texts words.now) ≡ None) (λ c. task_job shape name.now (texts words.now) ≡ Some (job_of c)) }
    ensures does { IfSome result (λ c. IsDoable (job_of c)) }
{
    match words {
        [image, budget, words @ ..] => {
            let task = task_named(name, words)?;
            image_command(shape, image.as_str(), budget.as_str(), task)
        }
        _ => None,
    }
}

// NUMBER SIZE.
fn bench_command<'a>(shape: Shape, words: &'a [String]) -> Option<Command<'a>>
    requires { IsShape shape }
    ensures is { MatchOption result (asked.bench_job shape (texts words.now) ≡ None) (λ c. asked.bench_job shape (texts words.now) ≡ Some (job_of c)) }
    ensures does { IfSome result (λ c. IsDoable (job_of c)) }
{
    match words {
        [count, size] => {
            let count = number(count.as_str(), 0, u64::MAX)?;
            let size = number(size.as_str(), 1, u64::from(MAX_SIZE))?;
            Some(Command::Generated(BenchCommand {
                shape,
                number: count,
                size: size as u32,
            }))
        }
        _ => None,
    }
}

fn check_named<'a>(shape: Shape, image: &'a str, budget: &str, map: &'a str) -> Option<Command<'a>>
    requires { IsShape shape }
    ensures is { MatchOption result (check_named shape image.now budget.now map.now ≡ None) (λ c. check_named shape image.now budget.now map.now ≡ Some (job_of c)) }
    ensures does { IfSome result (λ c. IsDoable (job_of c)) }
{
    if image.is_empty() || map.is_empty() {
        return None;
    }
    let budget = number(budget, 1, u64::from(LONGEST_RUN))?;
    Some(Command::Check(CheckCommand {
        shape,
        image,
        budget: budget as u32,
        map,
    }))
}

// IMAGE BUDGET MAP.
fn check_command<'a>(shape: Shape, words: &'a [String]) -> Option<Command<'a>>
    requires { IsShape shape }
    ensures is { MatchOption result (check_job shape (texts words.now) ≡ None) (λ c. check_job shape (texts words.now) ≡ Some (job_of c)) }
    ensures does { IfSome result (λ c. IsDoable (job_of c)) }
{
    match words {
        [image, budget, map] => check_named(shape, image.as_str(), budget.as_str(), map.as_str()),
        _ => None,
    }
}

// The command that these words are, on a machine of this shape.
fn command_on(shape: Shape, words: &[String]) -> Option<Command<'_>>
    requires { IsShape shape }
    ensures is { MatchOption result (command_on shape (texts words.now) ≡ None) (λ c. command_on shape (texts words.now) ≡ Some (job_of c)) }
    ensures does { IfSome result (λ c. IsDoable (job_of c)) }
{
    match words {
        [name, args @ ..] => {
            if name.as_str() == "bench" {
                bench_command(shape, args)
            } else if name.as_str() == "check" {
                check_command(shape, args)
            } else {
                task_command(shape, name.as_str(), args)
            }
        }
        [] => None,
    }
}

fn with_command(args: &[String]) -> Option<Command<'_>>
    ensures is { MatchOption result (with_job (texts args.now) ≡ None) (λ c. with_job (texts args.now) ≡ Some (job_of c)) }
    ensures does { IfSome result (λ c. IsDoable (job_of c)) }
{
    match args {
        [mib, sets, ways, words @ ..] => {
            let shape = shape(mib.as_str(), sets.as_str(), ways.as_str())?;
            command_on(shape, words)
        }
        _ => None,
    }
}

// SOURCE: any word that isn't empty.
fn asm_command(args: &[String]) -> Option<Command<'_>>
    ensures is { MatchOption result (asm_job (texts args.now) ≡ None) (λ c. asm_job (texts args.now) ≡ Some (job_of c)) }
    ensures does { IfSome result (λ c. IsDoable (job_of c)) }
{
    match args {
        [source] => {
            if source.is_empty() {
                None
            } else {
                Some(Command::Assembly(source.as_str()))
            }
        }
        _ => None,
    }
}

/// The command that these words are.
pub fn read_words(words: &[String]) -> Option<Command<'_>>
    ensures is { MatchOption result (command_of (texts words.now) ≡ None) (λ c. command_of (texts words.now) ≡ Some (job_of c)) }
    ensures does { IfSome result (λ c. IsDoable (job_of c)) }
{
    match words {
        [name, args @ ..] => {
            if name.as_str() == "with" {
                with_command(args)
            } else if name.as_str() == "asm" {
                asm_command(args)
            } else {
                command_on(plain_shape(), words)
            }
        }
        [] => None,
    }
}
