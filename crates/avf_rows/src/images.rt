// Files to run: ELF files of one executable segment at 0x10000, where the program begins, and files of one byte over and over.
use elf_fixture::{Header, THREE, bytes_of, file, flat};
use std::alloc::{AllocError, Global};

// An image of two program headers of these types, both with the segment of the three words.
pub fn two_headers(alloc: Global, kinds: [u32; 2]) -> Result<Vec<u8>, AllocError> {
    let headers = kinds.map(|kind| Header {
        kind,
        offset: 116,
        address: 0x10000,
        file_size: 12,
        memory_size: 12,
        flags: 5,
    });
    file(alloc, &headers, &bytes_of(alloc, &THREE)?)
}

// The flat image of the three words with these bytes of the file changed.
pub fn changed(alloc: Global, changes: &[(usize, u8)]) -> Result<Vec<u8>, AllocError> {
    let mut file = flat(alloc, &THREE)?;
    for (offset, byte) in changes {
        if let Some(place) = file.get_mut(*offset) {
            *place = *byte;
        }
    }
    Ok(file)
}

// A file of this byte so many times.
pub fn filled(alloc: Global, byte: u8, len: usize) -> Result<Vec<u8>, AllocError> {
    vec![in alloc; byte; len]
}
