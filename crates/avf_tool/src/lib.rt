// The tool: reads the words of a command, works out its text, and writes it or says why there is none.
#![tactic(auto)]

// The words of a command.
mod command;
mod numbers;
mod shape;

// What a command answers.
mod bits;
mod campaigns;
mod checks;
mod maps;
mod parity;
mod perform;
mod reports;
mod stages;
mod text_sink;
mod texts;

// The top call.
mod top;

pub use top::run_tool;
