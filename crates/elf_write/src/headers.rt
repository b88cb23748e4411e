//! The headers of a file (System V ABI, chapter 4, and the RISC-V ELF psABI).
ghost use Rattle.std.specs.Prelude.{◌≡◌, ◌+◌, ◌<◌, ◌^◌, ◌≤◌, ◌++◌, OnOk, length};
ghost use Rattle.std.specs.List.{flat_map};
ghost use Rattle.byteorder.specs.Endian.{little_bytes};
ghost use Rattle.elf_write.specs.File.{both_headers, file_header, headers, program_header, text_headers};

use crate::layout::{DATA_BASE, TEXT_BASE};
use byteorder::{ByteOrder, LittleEndian};
use std::alloc::AllocError;

/// The first bytes of a file: the magic number, 32 bits, little-endian, version 1, and nine zeros.
pub const IDENTIFICATION: [u8; 16] = [0x7F, 0x45, 0x4C, 0x46, 1, 1, 1, 0, 0, 0, 0, 0, 0, 0, 0, 0];

/// The type of an executable file (`ET_EXEC`).
pub const EXECUTABLE: u16 = 2;

/// The machine RISC-V (`EM_RISCV`).
pub const RISC_V: u16 = 243;

/// The version of the format (`EV_CURRENT`).
pub const VERSION: u32 = 1;

/// The sizes of the file header and of a program header in bytes.
pub const FILE_HEADER: u32 = 52;

pub const PROGRAM_HEADER: u32 = 32;

/// The type of a program header that says a segment is loaded (`PT_LOAD`).
pub const LOADABLE: u32 = 1;

/// The flags of a segment that is read and executed (`PF_R`, `PF_X`), and of one that is read and written (`PF_W`).
pub const READ_EXECUTE: u32 = 5;

pub const READ_WRITE: u32 = 6;

/// What a segment's address is a multiple of.
pub const ALIGNMENT: u32 = 4;

fn put_half(file: &mut Vec<u8>, half: u16) -> Result<(), AllocError>
    ensures { OnOk result (file.new.items ≡ file.old.items ++ little_bytes 2 half) }
{
    let mut bytes = [0; 2];
    LittleEndian::write_u16(&mut bytes, half);
    file.extend_from_slice(&bytes)
}

pub(crate) fn put_word(file: &mut Vec<u8>, word: u32) -> Result<(), AllocError>
    ensures { OnOk result (file.new.items ≡ file.old.items ++ little_bytes 4 word) }
{
    let mut bytes = [0; 4];
    LittleEndian::write_u32(&mut bytes, word);
    file.extend_from_slice(&bytes)
}

/// Puts 16-bit fields, lowest byte first.
fn put_halves(file: &mut Vec<u8>, halves: &[u16]) -> Result<(), AllocError>
    ensures { OnOk result (file.new.items ≡ file.old.items ++ flat_map (little_bytes 2) halves.now) }
{
    for half in halves {
        put_half(file, *half)?;
    }
    Ok(())
}

/// Puts 32-bit fields, lowest byte first.
pub(crate) fn put_words(file: &mut Vec<u8>, words: &[u32]) -> Result<(), AllocError>
    ensures { OnOk result (file.new.items ≡ file.old.items ++ flat_map (little_bytes 4) words.now) }
{
    for word in words {
        put_word(file, *word)?;
    }
    Ok(())
}

/// Puts the file header: the entry is the byte address of the first instruction, and so many program headers follow.
#[tactic(auto, unfolding(crate::specs::File::file_header), using(std::proofs::Common::append_assoc))]
fn put_file_header(file: &mut Vec<u8>, entry: u32, headers: u16) -> Result<(), AllocError>
    ensures { OnOk result (file.new.items ≡ file.old.items ++ file_header entry headers) }
{
    file.extend_from_slice(&IDENTIFICATION)?;
    put_halves(file, &[EXECUTABLE, RISC_V])?;
    put_words(file, &[VERSION, entry, FILE_HEADER, 0, 0])?;
    put_halves(
        file,
        &[FILE_HEADER as u16, PROGRAM_HEADER as u16, headers, 0, 0, 0],
    )
}

/// Puts the header of a segment: its bytes stand at an offset in the file, and are loaded to a byte address.
#[tactic(auto, unfolding(crate::specs::File::program_header))]
fn put_program_header(
    file: &mut Vec<u8>,
    offset: u32,
    address: u32,
    size: u32,
    flags: u32,
) -> Result<(), AllocError>
    ensures { OnOk result (file.new.items ≡ file.old.items ++ program_header offset address size flags) }
{
    put_words(
        file,
        &[
            LOADABLE, offset, address, address, size, size, flags, ALIGNMENT,
        ],
    )
}

#[tactic(auto, unfolding(crate::specs::File::text_headers), using(std::proofs::Common::append_assoc))]
fn put_text_headers(file: &mut Vec<u8>, entry: u32, text_size: u32) -> Result<(), AllocError>
    ensures { OnOk result (file.new.items ≡ file.old.items ++ text_headers entry text_size) }
{
    put_file_header(file, entry, 1)?;
    put_program_header(
        file,
        FILE_HEADER + PROGRAM_HEADER,
        TEXT_BASE,
        text_size,
        READ_EXECUTE,
    )
}

#[tactic(auto, unfolding(crate::specs::File::both_headers), using(std::proofs::Common::append_assoc))]
fn put_both_headers(
    file: &mut Vec<u8>,
    entry: u32,
    text_size: u32,
    data_size: u32,
) -> Result<(), AllocError>
    requires { text_size < 2 ^ 31 }
    ensures { OnOk result (file.new.items ≡ file.old.items ++ both_headers entry text_size data_size) }
{
    let first = FILE_HEADER + 2 * PROGRAM_HEADER;
    put_file_header(file, entry, 2)?;
    put_program_header(file, first, TEXT_BASE, text_size, READ_EXECUTE)?;
    put_program_header(file, first + text_size, DATA_BASE, data_size, READ_WRITE)
}

/// Puts all headers of a program whose text and data parts have so many bytes.
#[tactic(auto, unfolding(crate::specs::File::headers))]
pub fn put_headers(
    file: &mut Vec<u8>,
    entry: u32,
    text_size: u32,
    data_size: u32,
) -> Result<(), AllocError>
    requires { text_size < 2 ^ 31 }
    ensures { OnOk result (file.new.items ≡ file.old.items ++ headers entry text_size data_size) }
{
    if data_size == 0 {
        put_text_headers(file, entry, text_size)
    } else {
        put_both_headers(file, entry, text_size, data_size)
    }
}
