// The readers of the registers' values.
ghost use Rattle.dead_class.specs.Classes.{reads};
ghost use Rattle.dead_class.specs.Readers.{both, of_register};
ghost use Rattle.dead_class.specs.declared.readers.Readers.TheVariants.{Nobody};
ghost use Rattle.need_pass.specs.Links.{writes};
ghost use Rattle.rv_isa.specs.Effects.{IsRetired};
ghost use Rattle.std.specs.Prelude.{length, ◌<◌, ◌≡◌, ◌==◌, ℕ, if◌then◌else◌};

use crate::readers::Readers;
use rv_isa::Retired;

/// Adds a reader of register `r`.
fn read_register(registers: &mut [Readers], r: u8, reader: Readers)
    requires count { length registers.old ≡ 32 }
    requires register { r < 32 }
    ensures { (s : ℕ) → s < 32 → of_register registers.new s ≡ (if s == r then both reader (of_register registers.old s) else of_register registers.old s) }
{
    let old = registers[r as usize];
    registers[r as usize] = reader.with(old);
}

/// From the readers of the values after an instruction to those of the values before it; `reader` is the instruction.
pub fn pass_registers(registers: &mut [Readers], entry: &Retired, reader: Readers)
    requires count { length registers.old ≡ 32 }
    requires retired { IsRetired entry.now }
    ensures { (s : ℕ) → 0 < s → s < 32 → of_register registers.new s ≡ both (if reads entry.now s then reader else Nobody) (if writes entry.now s then Nobody else of_register registers.old s) }
{
    if let Some((rd, _)) = entry.effect.write {
        registers[rd as usize] = Readers::Nobody;
    }
    read_register(registers, entry.op.rs1, reader);
    read_register(registers, entry.op.rs2, reader);
}
