//! A file byte by byte, and what the loader makes of files.
use elf_load::{Image, LoadError, load};
use elf_write::{DATA_BASE, TEXT_BASE, write};
use std::alloc::Global;
use std::test::Fail;

const MIB: u32 = 1_048_576;

/// ADDI a0, zero, 7 and ECALL.
const CODE: [u8; 8] = [0x13, 0x05, 0x70, 0x00, 0x73, 0x00, 0x00, 0x00];

/// The file of CODE with the entry 0x10004: file header, program header, code.
static FILE: [u8; 92] = [
    0x7F, 0x45, 0x4C, 0x46, 1, 1, 1, 0, 0, 0, 0, 0, 0, 0, 0, 0, 2, 0, 243, 0, 1, 0, 0, 0, 4, 0, 1,
    0, 52, 0, 0, 0, 0, 0, 0, 0, 0, 0, 0, 0, 52, 0, 32, 0, 1, 0, 0, 0, 0, 0, 0, 0, 1, 0, 0, 0, 84,
    0, 0, 0, 0, 0, 1, 0, 0, 0, 1, 0, 8, 0, 0, 0, 8, 0, 0, 0, 5, 0, 0, 0, 4, 0, 0, 0, 0x13, 0x05,
    0x70, 0x00, 0x73, 0x00, 0x00, 0x00,
];

#[test]
fn a_text_part_alone_byte_by_byte(rt: HostRuntime) -> Result<(), Fail> {
    let file = write(rt.alloc(), 0x1_0004, &CODE, &[])?;
    assert!(rt; file.as_slice() == FILE.as_slice());
    Ok(())
}

/// The image of a file of both parts.
fn both_parts(alloc: Global) -> Result<Image, Fail> {
    let file = write(alloc, TEXT_BASE, &CODE, &[1, 2, 3])?;
    Ok(load(alloc, &file, MIB)?)
}

fn has_both_parts(image: &Image) -> bool {
    let at = (DATA_BASE - TEXT_BASE) as usize;
    image.entry() == TEXT_BASE
        && image.fetch(TEXT_BASE / 4) == Some(0x0070_0513)
        && image.in_ram(DATA_BASE + 2)
        && image.ram().get(at..at + 4) == Some([1, 2, 3, 0].as_slice())
        && !image.executable(DATA_BASE)
}

#[test]
fn both_parts_are_loaded_where_they_belong(rt: HostRuntime) -> Result<(), Fail> {
    assert!(rt; has_both_parts(&both_parts(rt.alloc())?));
    Ok(())
}

#[test]
fn an_entry_at_the_end_of_the_text_part_is_refused(rt: HostRuntime) -> Result<(), Fail> {
    let file = write(rt.alloc(), TEXT_BASE + 8, &CODE, &[])?;
    assert!(rt; matches!(load(rt.alloc(), &file, MIB), Err(LoadError::Bad(12))));
    Ok(())
}
