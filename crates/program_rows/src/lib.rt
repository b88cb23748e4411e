//! Worked rows of files, words, runs and sources, by hand and by the RISC-V and ELF specifications. There is nothing else here.
//!
//! `loading` has files with the images or refusals that they give, and `writing` what is written. `table` has words, their
//! spelling and their arithmetic, and `running` runs of the instruction set. `assembling` has sources with their faults or their
//! words, and `generating` a generated program. `words` says whether a file has these words.
#![tactic(auto)]

#[cfg(test)]
mod assembling;
#[cfg(test)]
mod generating;
#[cfg(test)]
mod loading;
#[cfg(test)]
mod running;
#[cfg(test)]
mod table;
#[cfg(test)]
mod words;
#[cfg(test)]
mod writing;
