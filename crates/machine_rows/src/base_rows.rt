//! Files and streams in memory and of the system, and the counter of work: that calls succeed with ample memory, and that the
//! adapters reach real files.
ghost use Rattle.std.specs.Prelude.{◌≡◌, ◌<◌};

use avf_base::{
    Failed, FileShelf, MemShelf, MemSink, OutOfMemory, PlainShelf, PlainSink, ReadError, Shelf,
    StdSink, counter, read_file, write_all,
};
use std::alloc::Global;
use std::fs;
use std::fs::File;
use std::marker::Brand;
use std::sync::ledger::{Blank, Ledger};
use std::test::Fail;

fn failing_shelf(alloc: Global) -> Result<MemShelf, OutOfMemory> {
    let mut shelf = MemShelf::new(alloc, &[2])?;
    shelf.put("three", b"abc")?;
    shelf.put("none", b"")?;
    Ok(shelf)
}

fn plain_shelf(alloc: Global) -> Result<PlainShelf, OutOfMemory> {
    let mut shelf = PlainShelf::new(alloc);
    shelf.put("three", b"xyz")?;
    shelf.put("three", b"abc")?;
    Ok(shelf)
}

/// Whether a file of at most `limit` bytes is read as this text.
fn gives<H: Shelf>(alloc: Global, shelf: &mut H, name: &str, limit: u32, text: &[u8]) -> bool {
    match read_file(alloc, shelf, name, limit) {
        Ok(read) => read.as_slice() == text,
        Err(_) => false,
    }
}

/// Whether a file of at most `limit` bytes isn't read, for this reason.
fn refuses<H: Shelf>(
    alloc: Global,
    shelf: &mut H,
    name: &str,
    limit: u32,
    reason: ReadError,
) -> bool {
    read_file(alloc, shelf, name, limit).err() == Some(reason)
}

#[test]
fn reads_from_memory(rt: HostRuntime) -> Result<(), Fail> {
    let alloc = rt.alloc();
    let mut failing = failing_shelf(alloc)?;
    assert!(rt; refuses(alloc, &mut failing, "three", 3, ReadError::Failed));
    assert!(rt; refuses(alloc, &mut failing, "four", 3, ReadError::Failed));
    assert!(rt; gives(alloc, &mut failing, "three", 3, b"abc"));
    assert!(rt; refuses(alloc, &mut failing, "three", 2, ReadError::TooLong));

    let mut plain = plain_shelf(alloc)?;
    assert!(rt; gives(alloc, &mut plain, "three", 3, b"abc"));
    assert!(rt; gives(alloc, &mut plain, "four", 0, b""));
    Ok(())
}

#[test]
fn writes_to_memory(rt: HostRuntime) -> Result<(), Fail> {
    let alloc = rt.alloc();
    let mut failing = MemSink::new(alloc, 100, 4, &[3])?;
    assert!(rt; write_all(&mut failing, b"output -\n") == Err(Failed));
    assert!(rt; failing.kept() == b"output -".as_slice());

    let mut plain = PlainSink::new(alloc, 8)?;
    assert!(rt; write_all(&mut plain, b"output -\n") == Ok(()));
    assert!(rt; plain.kept() == b"output -".as_slice());
    Ok(())
}

#[test]
fn reaches_real_files(rt: HostRuntime) -> Result<(), Fail> {
    let alloc = rt.alloc();
    let name = "avf_base_reaches_real_files";
    let mut sink = StdSink::new(File::create(&rt, name)?);
    assert!(rt; write_all(&mut sink, b"abc") == Ok(()));
    let mut files = FileShelf::new(&rt);
    assert!(rt; gives(alloc, &mut files, name, 3, b"abc"));
    assert!(rt; refuses(alloc, &mut files, name, 2, ReadError::TooLong));
    fs::remove_file(&rt, name)?;
    assert!(rt; refuses(alloc, &mut files, name, 3, ReadError::Failed));
    Ok(())
}

/// A test's body that can name its ledger.
fn counted<L: Ledger>(rt: &HostRuntime, blank: Blank)
    requires name { blank.name ≡ L.name }
    requires parts { blank.parts ≡ L.parts }
    requires some { 0 < L.parts }
{
    let mut steps = counter::<HostRuntime, L>(rt, blank);
    steps.tick();
}

#[test]
fn counts(rt: HostRuntime) {
    counted::<Brand>(&rt, Blank::new(1));
}
