// The trace of a run.
ghost use Rattle.std.specs.Prelude.{◌≡◌, ◌<◌, ◌^◌, length, slice_get, Some};

use crate::Retired;
use avf_base::End;
use std::marker::Model;

/// The run of an image that has ended: its instructions in order, the bytes that it put, and its end.
#[derive(Drop)]
pub struct Trace {
    entries: Vec<Retired>,
    output: Vec<u8>,
    end: End,
}

impl Model for Trace {
    ghost use Rattle.std.specs.Prelude.{length, ◌<◌, ◌^◌};
    ghost use Rattle.rv_isa.specs.Runs.{ComesFromImage, ProgramTrace};

    ghost Value = { ProgramTrace };

    ghost view = { λ t. record { entries = t.entries.items; output = t.output.items; end = t.end } };

    ghost invariant = { λ t. (length t.entries.items < 2 ^ 32) × ComesFromImage (record { entries = t.entries.items; output = t.output.items; end = t.end }) };
}

impl Trace {
    ghost use Rattle.rv_isa.specs.Effects.{IsRetired};
    ghost use Rattle.rv_isa.specs.Runs.{ComesFromImage};

    /// The trace of these parts.
    pub(crate) fn new(entries: Vec<Retired>, output: Vec<u8>, end: End) -> Trace
        requires few { length entries.items < 2 ^ 32 }
        requires traced { ComesFromImage (record { entries = entries.items; output = output.items; end = end }) }
        ensures { result ≡ record { entries = entries.items; output = output.items; end = end } }
    {
        Trace {
            entries,
            output,
            end,
        }
    }

    /// Says that it is the trace of an image. It does nothing.
    pub fn comes_from_image(&self)
        ensures { ComesFromImage self.now }
    {
        let _end = self.end;
    }

    /// The number of instructions, the ending one included.
    pub fn len(&self) -> u32
        ensures { result ≡ length self.now.entries }
    {
        self.entries.len() as u32
    }

    /// Instruction `i`, from 0 on.
    pub fn entry(&self, i: u32) -> &Retired
        requires { i < length self.now.entries }
        ensures entry { slice_get self.now.entries i ≡ Some result.now }
        ensures retired { IsRetired result.now }
    {
        self.comes_from_image();
        &self.entries[i as usize]
    }

    /// The bytes that the run put, in order.
    pub fn output(&self) -> &[u8]
        ensures { result.now ≡ self.now.output }
    {
        &self.output
    }

    /// How the run ended.
    pub fn end(&self) -> End
        ensures { result ≡ self.now.end }
    {
        self.end
    }
}
