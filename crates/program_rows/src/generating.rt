//! A generated file against one that another program made, by the published PCG32.
use crate::words::has_words;
use img_gen::{GenError, MAX_SIZE, generate};
use std::alloc::Global;
use std::test::Fail;

/// The words of the program of number 7 and size 4.
static WORDS: [u32; 13] = [
    0x0008_0437,
    0x0040_0493,
    0x9197_C813,
    0x18A4_4683,
    0x22B4_2C23,
    0x0107_F733,
    0xFFF4_8493,
    0x0004_8463,
    0xFE9F_F06F,
    0x0010_0893,
    0x0000_0073,
    0x05D0_0893,
    0x0000_0073,
];

/// The bytes of the headers before the text part.
const HEADERS: usize = 84;

#[test]
fn a_program_is_the_published_generators(rt: HostRuntime) -> Result<(), Fail> {
    let file = generate(rt.alloc(), 7, 4)?;
    assert!(rt; file.len() == HEADERS + 4 * WORDS.len());
    assert!(rt; has_words(rt.alloc(), &file, HEADERS, &WORDS)?);
    Ok(())
}

fn is_bad_size(alloc: Global, size: u32) -> bool {
    matches!(generate(alloc, 7, size), Err(GenError::BadSize))
}

#[test]
fn sizes_out_of_range_are_refused(rt: HostRuntime) -> Result<(), Fail> {
    assert!(rt; is_bad_size(rt.alloc(), 0) && is_bad_size(rt.alloc(), MAX_SIZE + 1));
    let largest = generate(rt.alloc(), 7, MAX_SIZE)?;
    assert!(rt; largest.len() == HEADERS + 4 * (4_096 + 9));
    Ok(())
}
