//! Puts a file together.
ghost use Rattle.std.specs.Prelude.{◌≡◌, ◌≤◌, ◌<◌, ◌^◌, ◌++◌, IfOk, OnOk, length};
ghost use Rattle.elf_write.specs.File.{file};
ghost use Rattle.elf_write.specs.Loading.{IsLoaded};

use crate::headers::put_headers;
use crate::layout::{DATA_ROOM, TEXT_ROOM};
use std::alloc::{AllocError, Global};

/// The file of a program: its text part at `TEXT_BASE`, its data part, where it has bytes, at `DATA_BASE`. `entry` is the
/// byte address of its first instruction.
#[tactic(auto, unfolding(crate::specs::File::file))]
pub fn write(
    alloc: Global,
    entry: u32,
    text_part: &[u8],
    data_part: &[u8],
) -> Result<Vec<u8>, AllocError>
    requires text_room { length text_part.now ≤ TEXT_ROOM }
    requires data_room { length data_part.now ≤ DATA_ROOM }
    ensures file { IfOk result (λ v. v.items ≡ file entry text_part.now data_part.now) }

    // The loader takes it as this program.
    ensures loads { OnOk result (0 < length text_part.now → IsLoaded entry text_part.now data_part.now) }
{
    let mut file = Vec::new(alloc);
    put_headers(
        &mut file,
        entry,
        text_part.len() as u32,
        data_part.len() as u32,
    )?;
    file.extend_from_slice(text_part)?;
    file.extend_from_slice(data_part)?;
    Ok(file)
}
