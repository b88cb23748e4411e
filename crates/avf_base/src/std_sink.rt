// A writer of std. What it took is told nowhere.
ghost use Rattle.std.specs.Prelude.{◌≡◌, ◌<◌, ℕ, length, take, IfOk, IsOk, OnErr};
ghost use Rattle.std.specs.Io.{WritesAtMost};
ghost use Rattle.avf_base.specs.Causes.{HasCause};
ghost use Rattle.avf_base.specs.Moves.{Grows};
ghost use Rattle.avf_base.specs.States.{next_fault, untold};

use crate::{Failed, Sink};
use std::io;
use std::io::Write;
use std::marker::Model;

/// A writer of std, flushed before each `Ok`. A contract sees how many writes failed.
#[derive(Drop)]
pub struct StdSink<W: Write + Drop> {
    writer: W,
    faults: u64,
}

impl<W: Write + Drop> Model for StdSink<W> {
    ghost Value = { ℕ };

    ghost view = { λ s. s.faults };
}

fn write_flushed<W: Write>(writer: &mut W, piece: &[u8]) -> io::Result<usize>
    ensures { WritesAtMost result piece.now }
{
    let n = writer.write(piece)?;
    writer.flush()?;
    Ok(n)
}

impl<W: Write + Drop> StdSink<W> {
    /// A sink over this writer.
    pub fn new(writer: W) -> StdSink<W>
        ensures { result ≡ 0 }
    {
        StdSink { writer, faults: 0 }
    }
}

impl<W: Write + Drop> Sink for StdSink<W> {
    ghost taken = { λ s. untold };

    ghost faults = { λ s. s };

    fn write(&mut self, piece: &[u8]) -> Result<usize, Failed>
        ensures bound { WritesAtMost result piece.now }
        ensures some { IfOk result (λ n. 0 < length piece.now → 0 < n) }
        ensures taken { IfOk result (λ n. Grows untold untold (take n piece.now)) }
        ensures kept { OnErr result (untold ≡ untold) }
        ensures cause { HasCause self.old self.new result }
        ensures ok { IsOk result → self.new ≡ self.old }
        ensures err { OnErr result (self.new ≡ next_fault self.old) }
    {
        match write_flushed(&mut self.writer, piece) {
            Ok(n) if n > 0 || piece.is_empty() => Ok(n),
            _ => {
                self.faults = self.faults.saturating_add(1);
                Err(Failed)
            }
        }
    }
}
