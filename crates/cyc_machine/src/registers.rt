// The two program counters and the register file.
ghost use Rattle.std.specs.Prelude.{◌≡◌, ◌↔◌, ℕ, ◌<◌, ◌^◌, ◌/◌, ◌*◌, IsTrue, replicate};
ghost use Rattle.cyc_machine.specs.Pipeline.{register, written_registers};

use bit_field::{COUNTER_BITS, RF_BITS, Struck, bit_at, flip_at_u32, words_fit};
use pipe_latch::MemWb;
use std::marker::Model;

/// A word address below 2^30, as `pc` and `npc` hold it.
#[derive(Clone, Copy)]
pub struct ProgramCounter {
    pub word: u32,
}

impl Model for ProgramCounter {
    ghost use Rattle.std.specs.Prelude.{ℕ, ◌<◌, ◌^◌};

    ghost Value = { ℕ };

    ghost view = { λ x. x.word };

    ghost invariant = { λ x. x.word < 2 ^ 30 };

    ghost inverse = { λ w. record { word = w } };
}

impl Struck for ProgramCounter {
    ghost use Rattle.bit_field.specs.declared.shapes.TheConstants.{COUNTER_BITS};
    ghost use Rattle.cyc_machine.specs.RegisterBits as counter;

    ghost IsFit = { counter.IsCounterFit };

    ghost bit_count = { λ _. COUNTER_BITS };

    ghost bit_of = { counter.counter_bit };

    ghost flipped = { counter.counter_flipped };

    fn bits(&self) -> u32 {
        COUNTER_BITS
    }

    fn bit(&self, k: u32) -> bool {
        bit_at(self.word, k)
    }

    fn flip(&mut self, k: u32) {
        flip_at_u32(&mut self.word, COUNTER_BITS, k);
    }

    fn fits(&self) {
        let _word = self.word;
    }

    fn laws(&self) {}
}

impl ProgramCounter {
    /// The word address.
    pub fn get(&self) -> u32
        ensures value { result ≡ self.now }
        ensures within { result < 2 ^ 30 }
    {
        self.word
    }
}

/// The number of registers that are stored: register 0 is none of them.
pub const REGISTERS: usize = 31;

/// Registers 1 to 31. Contracts see their values in order.
#[derive(Clone, Copy)]
pub struct RegisterFile {
    values: [u32; REGISTERS],
}

impl Model for RegisterFile {
    ghost use Rattle.std.specs.Prelude.{ℕ, List};

    ghost Value = { List ℕ };

    ghost view = { λ x. x.values };

    ghost inverse = { λ values. record { values = values } };
}

impl Struck for RegisterFile {
    ghost use Rattle.cyc_machine.specs.RegisterBits as file;

    ghost IsFit = { file.IsFileFit };

    ghost bit_count = { λ _. file.file_bit_count };

    ghost bit_of = { file.file_bit };

    ghost flipped = { file.file_flipped };

    fn bits(&self) -> u32 {
        RF_BITS
    }

    fn bit(&self, k: u32) -> bool {
        bit_at(self.values[(k / 32) as usize], k % 32)
    }

    fn flip(&mut self, k: u32) {
        flip_at_u32(&mut self.values[(k / 32) as usize], 32, k % 32);
    }

    fn fits(&self) {
        words_fit(&self.values);
    }

    fn laws(&self) {}
}

impl RegisterFile {
    /// All registers are 0.
    pub fn new() -> RegisterFile
        ensures { result ≡ replicate REGISTERS 0 }
    {
        RegisterFile {
            values: [0; REGISTERS],
        }
    }

    /// Register `r`, 0 to 31; register 0 reads 0.
    #[tactic(auto, unfolding(crate::specs::Pipeline::register))]
    pub fn read(&self, r: u8) -> u32
        requires { r < 32 }
        ensures { result ≡ register self.now r }
    {
        if r == 0 {
            0
        } else {
            self.values[usize::from(r) - 1]
        }
    }

    /// Takes what MEM/WB holds.
    #[tactic(auto, unfolding(crate::specs::Pipeline::written_registers))]
    pub fn take(&mut self, result_latch: &MemWb)
        ensures { self.new ≡ written_registers result_latch.now self.old }
    {
        if result_latch.rd != 0 {
            self.values[usize::from(result_latch.rd) - 1] = result_latch.value;
        }
    }
}
