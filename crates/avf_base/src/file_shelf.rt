// Real files. Their contents are told nowhere.
ghost use Rattle.std.specs.Prelude.{◌≡◌, List, ℕ, IsOk, OnErr};
ghost use Rattle.std.specs.Io.{ReadsAtMost};
ghost use Rattle.avf_base.specs.Causes.{HasCause};
ghost use Rattle.avf_base.specs.Moves.{Reads};
ghost use Rattle.avf_base.specs.States.{next_fault, untold};

use crate::{Failed, Shelf};
use std::fs::File;
use std::io;
use std::io::{Read, Seek, SeekFrom};
use std::marker::Model;
use std::rt::Files;

/// Real files, each opened anew for each read. A contract sees how many reads failed.
#[derive(Drop)]
pub struct FileShelf<R: Files> {
    rt: R,
    faults: u64,
}

impl<R: Files> Model for FileShelf<R> {
    ghost Value = { ℕ };

    ghost view = { λ s. s.faults };
}

fn read_file_at<R: Files>(rt: &R, name: &str, at: u64, buf: &mut [u8]) -> io::Result<usize>
    ensures { ReadsAtMost result buf.new }
{
    let mut file = File::open(rt, name)?;
    file.seek(SeekFrom::Start(at))?;
    file.read(buf)
}

impl<R: Files> FileShelf<R> {
    /// The files that the runtime reaches.
    pub fn new(rt: R) -> FileShelf<R>
        ensures { result ≡ 0 }
    {
        FileShelf { rt, faults: 0 }
    }
}

impl<R: Files> Shelf for FileShelf<R> {
    ghost holds = { λ s name. untold };

    ghost faults = { λ s. s };

    fn read_at(&mut self, name: &str, at: u64, buf: &mut [u8]) -> Result<usize, Failed>
        ensures bound { ReadsAtMost result buf.new }
        ensures bytes { Reads untold at result buf.new }
        ensures keeps { (n : List ℕ) → untold ≡ untold }
        ensures cause { HasCause self.old self.new result }
        ensures ok { IsOk result → self.new ≡ self.old }
        ensures err { OnErr result (self.new ≡ next_fault self.old) }
    {
        match read_file_at(&self.rt, name, at, buf) {
            Ok(n) => Ok(n),
            Err(_) => {
                self.faults = self.faults.saturating_add(1);
                Err(Failed)
            }
        }
    }
}
