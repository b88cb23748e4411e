//! Words in a file.
use elf_fixture::bytes_of;
use std::alloc::Global;
use std::test::Fail;

/// Whether a file has these words from an offset on, each from its lowest byte.
pub fn has_words(alloc: Global, file: &[u8], at: usize, words: &[u32]) -> Result<bool, Fail> {
    let bytes = bytes_of(alloc, words)?;
    Ok(match file.get(at..) {
        Some(rest) => rest.starts_with(&bytes),
        None => false,
    })
}
