//! Files by hand, with what they mean by the ELF specification and the causes of `bad image` in docs/MACHINE.md.
use elf_fixture::{Header, Segment, THREE, file, flat, segmented};
use elf_load::{Image, LoadError, Segment as Lent, accepted_means_image, load, segments};
use std::alloc::Global;
use std::test::Fail;

const MIB: u32 = 1_048_576;

/// A byte of a file and its other value, and the number of the fault that this is.
struct Changed(usize, u8, u8);

static CHANGED: [Changed; 15] = [
    Changed(0, 0, 2),
    Changed(4, 2, 3),
    Changed(16, 3, 4),
    Changed(18, 0xF4, 5),
    Changed(36, 1, 6),
    Changed(42, 33, 7),
    Changed(28, 0xFF, 8),
    Changed(52, 3, 9),
    Changed(52, 0, 11),
    Changed(72, 11, 10),
    Changed(72, 0, 10),
    Changed(74, 0x10, 11),
    Changed(63, 0xFF, 12),
    Changed(76, 4, 12),
    Changed(24, 2, 12),
];

/// How many bytes are left of a file, and the number of the fault that this is.
struct Cut(usize, u8);

static CUTS: [Cut; 6] = [
    Cut(0, 1),
    Cut(51, 1),
    Cut(52, 8),
    Cut(83, 8),
    Cut(84, 10),
    Cut(95, 10),
];

/// The number of an error's reason; 0 where there was no memory.
fn reason(error: LoadError) -> u8 {
    match error {
        LoadError::Bad(reason) => reason,
        LoadError::OutOfMemory => 0,
    }
}

/// Whether a file is refused for this reason, by both calls.
fn is_refused(alloc: Global, file: &[u8], cause: u8) -> bool {
    load(alloc, file, MIB).err().map(reason) == Some(cause)
        && segments(alloc, file, MIB).err().map(reason) == Some(cause)
}

/// The flat file of three words with one byte changed.
fn with_byte(alloc: Global, at: usize, value: u8) -> Result<Vec<u8>, Fail> {
    let mut changed = flat(alloc, &THREE)?;
    if let Some(byte) = changed.get_mut(at) {
        *byte = value;
    }
    Ok(changed)
}

#[test]
fn refuses_by_the_first_reason(rt: HostRuntime) -> Result<(), Fail> {
    for Changed(at, value, cause) in &CHANGED {
        let file = with_byte(rt.alloc(), *at, *value)?;
        assert!(rt; is_refused(rt.alloc(), &file, *cause));
    }
    Ok(())
}

/// Whether the first bytes of a file are refused for this reason.
fn is_refused_cut(alloc: Global, whole: &[u8], cut: &Cut) -> bool {
    match whole.get(..cut.0) {
        Some(file) => is_refused(alloc, file, cut.1),
        None => false,
    }
}

#[test]
fn refuses_a_short_file(rt: HostRuntime) -> Result<(), Fail> {
    let whole = flat(rt.alloc(), &THREE)?;
    for cut in &CUTS {
        assert!(rt; is_refused_cut(rt.alloc(), &whole, cut));
    }
    Ok(())
}

/// The image of the flat file of three words.
fn three(alloc: Global) -> Result<Image, Fail> {
    Ok(load(alloc, &flat(alloc, &THREE)?, MIB)?)
}

/// The bytes of three words, and two bytes that no file has.
static THREE_AND_ZEROS: [u8; 14] = [
    0x13, 0x05, 0x70, 0x00, 0x93, 0x08, 0xD0, 0x05, 0x73, 0x00, 0x00, 0x00, 0x00, 0x00,
];

fn is_three(image: &Image) -> bool {
    image.base() == 0x10000
        && image.entry() == 0x10000
        && image.ram().len() == 0x10_0000
        && image.ram().get(..14) == Some(THREE_AND_ZEROS.as_slice())
        && image.fetch(0x4001) == Some(0x05D0_0893)
        && image.fetch(0x4003) == None
}

#[test]
fn loads_one_segment(rt: HostRuntime) -> Result<(), Fail> {
    accepted_means_image();
    assert!(rt; is_three(&three(rt.alloc())?));
    Ok(())
}

/// A loadable program header: its offset, its address, its sizes in the file and in memory, and its flags.
fn loadable(offset: u32, address: u32, file_size: u32, memory_size: u32, flags: u32) -> Header {
    Header {
        kind: 1,
        offset,
        address,
        file_size,
        memory_size,
        flags,
    }
}

/// A program header of a type that the loader passes over.
const ATTRIBUTES: Header = Header {
    kind: 0x7000_0003,
    offset: 0,
    address: 0,
    file_size: 9,
    memory_size: 0,
    flags: 4,
};

/// Three words, and three bytes of data.
static THREE_AND_DATA: [u8; 15] = [
    0x13, 0x05, 0x70, 0x00, 0x93, 0x08, 0xD0, 0x05, 0x73, 0x00, 0x00, 0x00, 0xAA, 0xBB, 0xCC,
];

/// A file whose data segment is told before its code.
fn data_first(alloc: Global) -> Result<Vec<u8>, Fail> {
    let headers = [
        loadable(160, 0x11002, 3, 8, 6),
        ATTRIBUTES,
        loadable(148, 0x10000, 12, 12, 5),
    ];
    Ok(file(alloc, &headers, &THREE_AND_DATA)?)
}

/// Whether a segment has this address, these sizes in the file and in memory, and holds code or doesn't.
fn is_lent(segment: &Lent, vaddr: u32, size: usize, memsz: u32, exec: bool) -> bool {
    segment.vaddr == vaddr
        && segment.bytes.len() == size
        && segment.memsz == memsz
        && segment.exec == exec
}

fn are_in_order(lent: &[Lent]) -> bool {
    lent.len() == 2
        && is_lent(&lent[0], 0x10000, 12, 12, true)
        && is_lent(&lent[1], 0x11002, 3, 8, false)
}

/// A byte address, whether it lies in RAM, and whether its byte is executable.
struct Place(u32, bool, bool);

static PLACES: [Place; 7] = [
    Place(0xFFFF, false, false),
    Place(0x10000, true, true),
    Place(0x1000B, true, true),
    Place(0x1000C, true, false),
    Place(0x11002, true, false),
    Place(0x10_FFFF, true, false),
    Place(0x11_0000, false, false),
];

/// Whether each place lies where it is told to.
fn has_places(image: &Image) -> bool {
    for Place(address, in_ram, executable) in &PLACES {
        if image.in_ram(*address) != *in_ram || image.executable(*address) != *executable {
            return false;
        }
    }
    true
}

/// The bytes of RAM about the data.
static ABOUT_DATA: [u8; 12] = [0, 0, 0xAA, 0xBB, 0xCC, 0, 0, 0, 0, 0, 0, 0];

fn has_code_and_data(image: &Image) -> bool {
    image.ram().get(0x1000..0x100C) == Some(ABOUT_DATA.as_slice())
        && !image.word_in_ram(0x3FFF)
        && image.word_in_ram(0x4000)
        && !image.word_in_ram(0x4_4000)
        && image.any_executable(0x10008, 4)
        && image.any_executable(0x1000A, 2)
        && !image.any_executable(0x1000C, 4)
}

#[test]
fn lends_segments_in_order(rt: HostRuntime) -> Result<(), Fail> {
    let file = data_first(rt.alloc())?;
    assert!(rt; are_in_order(&segments(rt.alloc(), &file, MIB)?));
    Ok(())
}

#[test]
fn loads_segments_in_order(rt: HostRuntime) -> Result<(), Fail> {
    let file = data_first(rt.alloc())?;
    let image = load(rt.alloc(), &file, MIB)?;
    assert!(rt; has_code_and_data(&image) && has_places(&image));
    Ok(())
}

/// A file of two segments over the bytes of three words.
fn two(alloc: Global, first: Header, second: Header) -> Result<Vec<u8>, Fail> {
    Ok(file(alloc, &[first, second], &THREE_AND_ZEROS[..12])?)
}

#[test]
fn takes_segments_side_by_side(rt: HostRuntime) -> Result<(), Fail> {
    let beside = two(
        rt.alloc(),
        loadable(118, 0x10002, 10, 10, 5),
        loadable(116, 0x10000, 2, 2, 5),
    )?;
    assert!(rt; load(rt.alloc(), &beside, MIB)?.fetch(0x4000) == Some(0x0070_0513));
    Ok(())
}

#[test]
fn takes_no_overlap(rt: HostRuntime) -> Result<(), Fail> {
    let code = loadable(116, 0x10000, 12, 12, 5);
    let twice = two(rt.alloc(), code, code)?;
    assert!(rt; is_refused(rt.alloc(), &twice, 11));
    let one_byte = two(rt.alloc(), loadable(116, 0x1000B, 1, 1, 6), code)?;
    assert!(rt; is_refused(rt.alloc(), &one_byte, 11));
    Ok(())
}

/// The image of a file of code and of constants.
fn laid_out(alloc: Global) -> Result<Image, Fail> {
    let code = Segment {
        kind: 1,
        address: 0x10000,
        flags: 5,
        bytes: &THREE_AND_ZEROS[..12],
    };
    let constants = Segment {
        kind: 1,
        address: 0x20000,
        flags: 4,
        bytes: &[0xAA, 0xBB, 0xCC],
    };
    Ok(load(alloc, &segmented(alloc, &[code, constants])?, MIB)?)
}

fn has_constants(image: &Image) -> bool {
    image.fetch(0x4002) == Some(0x73)
        && image.ram().get(0x1_0000..0x1_0004) == Some([0xAA, 0xBB, 0xCC, 0].as_slice())
        && !image.executable(0x20000)
}

#[test]
fn loads_segments_laid_out(rt: HostRuntime) -> Result<(), Fail> {
    assert!(rt; has_constants(&laid_out(rt.alloc())?));
    Ok(())
}
