//! Reads an ELF32 executable for RISC-V: says which image it means, or which rule it breaks first.
#![tactic(auto)]

pub mod error;
mod fill;
mod headers;
pub mod image;
mod law;
mod layout;
mod loader;
pub mod segment;
pub mod sizes;
mod walk;

pub use error::LoadError;
pub use image::Image;
pub use law::accepted_means_image;
pub use loader::{load, segments};
pub use segment::Segment;
pub use sizes::{LEAST_RAM, MOST_RAM};
