// The images that rows are of, and the counts of a run of three instructions.
use ace_class::Counts;
use bit_field::plain_shape;
use elf_fixture::flat;
use elf_load::{Image, load};
use std::alloc::Global;
use std::test::Fail;

/// The image of these words, one executable segment at 0x10000, in a RAM of 1 MiB.
pub fn image_of(alloc: Global, words: &[u32]) -> Result<Image, Fail> {
    Ok(load(alloc, &flat(alloc, words)?, 0x10_0000)?)
}

/// The counts of addi a0, zero, 7; addi a7, zero, 93; ecall.
pub fn three_counts() -> Counts {
    let rows = [
        [0, 180, 0, 0, 0, 0, 0, 0, 0, 0, 0, 0, 0, 0],
        [180, 0, 0, 0, 0, 0, 0, 0, 0, 0, 0, 0, 0, 0],
        [0, 768, 0, 0, 0, 0, 0, 0, 0, 0, 0, 0, 0, 0],
        [0, 5472, 0, 0, 0, 0, 0, 0, 0, 0, 0, 0, 0, 0],
        [83, 0, 1197, 128, 112, 16, 0, 0, 0, 0, 0, 0, 0, 0],
        [118, 30, 294, 148, 95, 233, 0, 0, 0, 0, 0, 0, 0, 0],
        [74, 0, 234, 0, 0, 154, 0, 0, 0, 0, 0, 0, 0, 12],
        [13, 0, 128, 0, 0, 81, 0, 0, 0, 0, 0, 0, 0, 0],
        [0, 0, 0, 0, 0, 0, 5952, 0, 0, 0, 0, 0, 0, 0],
        [0, 0, 1488, 0, 0, 0, 0, 0, 96, 0, 0, 0, 0, 0],
        [0, 36, 0, 0, 0, 0, 0, 0, 0, 0, 0, 0, 0, 0],
        [0, 0, 49152, 0, 0, 0, 0, 0, 0, 0, 0, 0, 0, 0],
        [0, 0, 8832, 0, 0, 0, 0, 0, 0, 0, 0, 0, 0, 0],
        [0, 0, 0, 0, 0, 0, 0, 0, 0, 0, 0, 384, 0, 0],
        [0, 0, 384, 0, 0, 0, 0, 0, 0, 0, 0, 0, 0, 0],
        [0, 192, 0, 0, 0, 0, 0, 0, 0, 0, 0, 0, 0, 0],
    ];
    Counts::new(plain_shape(), 6, rows)
}
