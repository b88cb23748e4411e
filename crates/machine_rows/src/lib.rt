//! Worked rows of the machine's parts, of the machine, and of what every crate stands on, worked out by hand from docs/MACHINE.md.
//! There is nothing else here.
#![tactic(auto)]

#[cfg(test)]
mod base_rows;
#[cfg(test)]
mod bit_rows;
#[cfg(test)]
mod buffer_rows;
#[cfg(test)]
mod cache_rows;
#[cfg(test)]
mod cycle_rows;
#[cfg(test)]
mod latch_rows;
#[cfg(test)]
mod one_bit;
#[cfg(test)]
mod predictor_rows;
#[cfg(test)]
mod store_rows;
