//! The file header and the program headers of an ELF32 file.
ghost use Rattle.std.specs.Prelude.{◌≡◌, ◌+◌, ◌*◌, ◌<◌, ◌≤◌, length};
ghost use Rattle.elf_load.specs.Headers as spec;
ghost use Rattle.elf_load.specs.Refusal as refusal;

use crate::sizes::{FILE_HEADER, PROGRAM_HEADER};
use byteorder::{ByteOrder, LittleEndian};

/// The offsets in the file header.
const TYPE: usize = 16;

const MACHINE: usize = 18;

pub const ENTRY: usize = 24;

pub const HEADERS_OFFSET: usize = 28;

const FLAGS: usize = 36;

const FILE_HEADER_SIZE: usize = 40;

const PROGRAM_HEADER_SIZE: usize = 42;

pub const HEADERS_COUNT: usize = 44;

/// The type of an executable file (`ET_EXEC`) and the machine RISC-V (`EM_RISCV`).
const EXECUTABLE: u16 = 2;

const RISC_V: u16 = 243;

/// The types of program header that are looked at.
pub const LOADABLE: u32 = 1;

pub const INTERPRETER: u32 = 3;

/// A program header, without its physical address and its alignment.
#[derive(Clone, Copy)]
pub struct ProgramHeader {
    /// `LOADABLE`, `INTERPRETER` or another type.
    pub kind: u32,
    /// The offset in the file of the segment's first byte.
    pub offset: u32,
    /// The byte address of the segment's first byte.
    pub vaddr: u32,
    /// How many bytes of the segment the file holds.
    pub filesz: u32,
    /// How many bytes the segment has in memory.
    pub memsz: u32,
    /// Bit 0: its bytes are instructions.
    pub flags: u32,
}

/// The 16-bit field at an offset.
#[tactic(auto, unfolding(crate::specs::Headers::half_at))]
pub fn half_at(file: &[u8], offset: usize) -> u16
    requires { offset + 2 ≤ length file.now }
    ensures { result ≡ spec.half_at file.now offset }
{
    LittleEndian::read_u16(&file[offset..])
}

/// The 32-bit field at an offset.
#[tactic(auto, unfolding(crate::specs::Headers::word_at))]
pub fn word_at(file: &[u8], offset: usize) -> u32
    requires { offset + 4 ≤ length file.now }
    ensures { result ≡ spec.word_at file.now offset }
{
    LittleEndian::read_u32(&file[offset..])
}

/// The program header at an offset.
#[tactic(auto, unfolding(crate::specs::Headers::program_header))]
pub fn program_header(file: &[u8], at: usize) -> ProgramHeader
    requires { at + PROGRAM_HEADER ≤ length file.now }
    ensures { result ≡ spec.program_header file.now at }
{
    ProgramHeader {
        kind: word_at(file, at),
        offset: word_at(file, at + 4),
        vaddr: word_at(file, at + 8),
        filesz: word_at(file, at + 16),
        memsz: word_at(file, at + 20),
        flags: word_at(file, at + 24),
    }
}

/// Whether the file doesn't begin with 7F 45 4C 46.
#[tactic(auto, unfolding(crate::specs::Refusal::lacks_magic))]
fn lacks_magic(file: &[u8]) -> bool
    requires { FILE_HEADER ≤ length file.now }
    ensures { result ≡ refusal.lacks_magic file.now }
{
    !(file[0] == 0x7F && file[1] == 0x45 && file[2] == 0x4C && file[3] == 0x46)
}

/// Whether the file isn't of 32 bits, little-endian and of version 1.
#[tactic(auto, unfolding(crate::specs::Refusal::has_other_class))]
fn has_other_class(file: &[u8]) -> bool
    requires { FILE_HEADER ≤ length file.now }
    ensures { result ≡ refusal.has_other_class file.now }
{
    !(file[4] == 1 && file[5] == 1 && file[6] == 1)
}

/// Whether the file's headers have other sizes than 52 and 32 bytes.
#[tactic(auto, unfolding(crate::specs::Refusal::has_other_sizes))]
fn has_other_sizes(file: &[u8]) -> bool
    requires { FILE_HEADER ≤ length file.now }
    ensures { result ≡ refusal.has_other_sizes file.now }
{
    !(half_at(file, FILE_HEADER_SIZE) == FILE_HEADER as u16
        && half_at(file, PROGRAM_HEADER_SIZE) == PROGRAM_HEADER as u16)
}

/// Whether the program headers end past the file.
#[tactic(auto, unfolding(crate::specs::Refusal::lacks_headers, crate::specs::Headers::headers_offset, crate::specs::Headers::headers_count))]
fn lacks_headers(file: &[u8]) -> bool
    requires { FILE_HEADER ≤ length file.now }
    ensures { result ≡ refusal.lacks_headers file.now }
{
    file.len()
        < word_at(file, HEADERS_OFFSET) as usize
            + PROGRAM_HEADER * half_at(file, HEADERS_COUNT) as usize
}

/// The first of the reasons 1 to 8, which concern the file header, that stands.
#[tactic(auto, unfolding(crate::specs::Refusal::file_refusal, crate::specs::Refusal::is_short, crate::specs::Refusal::has_other_type, crate::specs::Refusal::has_other_machine, crate::specs::Refusal::is_compressed))]
pub fn file_refusal(file: &[u8]) -> Option<u8>
    ensures { result ≡ refusal.file_refusal file.now }
{
    if file.len() < FILE_HEADER {
        Some(1)
    } else if lacks_magic(file) {
        Some(2)
    } else if has_other_class(file) {
        Some(3)
    } else if half_at(file, TYPE) != EXECUTABLE {
        Some(4)
    } else if half_at(file, MACHINE) != RISC_V {
        Some(5)
    } else if word_at(file, FLAGS) % 2 == 1 {
        Some(6)
    } else if has_other_sizes(file) {
        Some(7)
    } else if lacks_headers(file) {
        Some(8)
    } else {
        None
    }
}
