//! ELF32 files for tests, and for nothing else: no program stands on this crate. Each file is an executable for RISC-V with its
//! entry at 0x10000; its program headers stand at offset 52, and the bytes of its segments behind them. All numbers are
//! little-endian.
#![tactic(auto)]

ghost use Rattle.std.specs.Prelude.{◌≡◌, ◌++◌, IfOk, OnOk};
ghost use Rattle.std.specs.Int.{to_le_bytes};
ghost use Rattle.elf_fixture.specs.Files.{bytes_of_words, file_of, flat_file, header_words, headers_bytes, segmented_file};
ghost use Rattle.elf_fixture.specs.Files as files;

use std::alloc::{AllocError, Global};

/// Where the program of `flat` stands and where each file is entered.
pub const ENTRY: u32 = 0x1_0000;

/// The offset of the first program header, which is the size of the file header, in bytes.
pub const FILE_HEADER: u32 = 52;

/// The size of a program header in bytes.
pub const PROGRAM_HEADER: u32 = 32;

/// How many byte addresses there are.
const ADDRESSES: u64 = 0x1_0000_0000;

/// a0 = 7, a7 = 93, ECALL: a program that ends with 7 after three instructions.
pub const THREE: [u32; 3] = [0x0070_0513, 0x05D0_0893, 0x0000_0073];

/// A program header. Its physical address is its address, its alignment 4.
#[derive(Clone, Copy)]
pub struct Header {
    /// The type; 1 is loadable.
    pub kind: u32,
    /// The offset in the file of its first byte.
    pub offset: u32,
    /// The byte address of its first byte.
    pub address: u32,
    /// How many bytes of it the file holds.
    pub file_size: u32,
    /// How many bytes it has in memory.
    pub memory_size: u32,
    /// Its flags: 1 is executable, 2 writable, 4 readable.
    pub flags: u32,
}

/// A segment whose bytes in memory are those in the file.
#[derive(Clone, Copy)]
pub struct Segment<'b> {
    /// The type of its program header; 1 is loadable.
    pub kind: u32,
    /// The byte address of its first byte.
    pub address: u32,
    /// Its flags: 1 is executable, 2 writable, 4 readable.
    pub flags: u32,
    /// Its bytes.
    pub bytes: &'b [u8],
}

/// Appends words, each from its lowest byte.
fn push_words(file: &mut Vec<u8>, words: &[u32]) -> Result<(), AllocError>
    ensures { OnOk result (file.new.items ≡ file.old.items ++ bytes_of_words words.now) }
{
    for word in words {
        file.extend_from_slice(&word.to_le_bytes())?;
    }
    Ok(())
}

/// Appends program headers.
fn push_headers(file: &mut Vec<u8>, headers: &[Header]) -> Result<(), AllocError>
    ensures { OnOk result (file.new.items ≡ file.old.items ++ headers_bytes headers.now) }
{
    for header in headers {
        push_header(file, header)?;
    }
    Ok(())
}

/// Appends a program header.
fn push_header(file: &mut Vec<u8>, header: &Header) -> Result<(), AllocError>
    ensures { OnOk result (file.new.items ≡ file.old.items ++ bytes_of_words (header_words header.now)) }
{
    let Header {
        kind,
        offset,
        address,
        file_size,
        memory_size,
        flags,
    } = *header;
    push_words(
        file,
        &[
            kind,
            offset,
            address,
            address,
            file_size,
            memory_size,
            flags,
            4,
        ],
    )
}

/// The bytes of words, each from its lowest byte.
pub fn bytes_of(alloc: Global, words: &[u32]) -> Result<Vec<u8>, AllocError>
    ensures { IfOk result (λ v. v.items ≡ bytes_of_words words.now) }
{
    let mut bytes = Vec::new(alloc);
    push_words(&mut bytes, words)?;
    Ok(bytes)
}

/// A file of these program headers and the bytes behind them. The number of headers is told modulo 65,536.
pub fn file(alloc: Global, headers: &[Header], bytes: &[u8]) -> Result<Vec<u8>, AllocError>
    ensures { IfOk result (λ v. v.items ≡ file_of headers.now bytes.now) }
{
    let count = (headers.len() % 65_536) as u32;
    let mut file = Vec::new(alloc);
    push_words(
        &mut file,
        &[
            0x464C_457F, // 7F, E, L, F
            0x0001_0101, // 32 bits, little-endian, version 1
            0,
            0,
            0x00F3_0002, // executable, RISC-V
            1,
            ENTRY,
            FILE_HEADER,
            0,
            0,
            0x0020_0034, // the sizes of the two kinds of header
            count,
            0,
        ],
    )?;
    push_headers(&mut file, headers)?;
    file.extend_from_slice(bytes)?;
    Ok(file)
}

/// A file of one executable segment at 0x10000, whose bytes are these words, at offset 84. Its size is told modulo 2^32.
pub fn flat(alloc: Global, words: &[u32]) -> Result<Vec<u8>, AllocError>
    ensures { IfOk result (λ v. v.items ≡ flat_file words.now) }
{
    let size = 4 * (words.len() % 0x4000_0000) as u32;
    let header = Header {
        kind: 1,
        offset: FILE_HEADER + PROGRAM_HEADER,
        address: ENTRY,
        file_size: size,
        memory_size: size,
        flags: 5,
    };
    file(alloc, &[header], &bytes_of(alloc, words)?)
}

/// The program header of a segment whose bytes begin at this offset of the file.
fn segment_header(offset: u64, segment: &Segment) -> Header
    ensures { result ≡ files.segment_header offset segment.now }
{
    let size = (segment.bytes.len() as u64 % ADDRESSES) as u32;
    Header {
        kind: segment.kind,
        offset: (offset % ADDRESSES) as u32,
        address: segment.address,
        file_size: size,
        memory_size: size,
        flags: segment.flags,
    }
}

/// A file of these segments, whose bytes stand one behind the other. Offsets and sizes are told modulo 2^32.
#[tactic(auto, using(crate::proofs::Segments::headers_more, crate::proofs::Segments::bytes_more, crate::proofs::Segments::made))]
pub fn segmented(alloc: Global, segments: &[Segment]) -> Result<Vec<u8>, AllocError>
    ensures { IfOk result (λ v. v.items ≡ segmented_file segments.now) }
{
    let start = 52 + 32 * (segments.len() as u64);
    let mut headers = Vec::new(alloc);
    let mut bytes = Vec::new(alloc);
    for segment in segments {
        headers.push(segment_header(start.wrapping_add(bytes.len() as u64), segment))?;
        bytes.extend_from_slice(segment.bytes)?;
    }
    file(alloc, &headers, &bytes)
}
