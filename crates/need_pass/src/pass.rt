// The needs of a run, from its last instruction to its first.
ghost use Rattle.need_pass.specs.Steps.{StepsBack};
ghost use Rattle.std.specs.Prelude.{OnOk, length, ◌≡◌};

use crate::byte_histories::{add_loaded, clear_stored, stored_mask};
use crate::history::History;
use crate::operands::{link_a, link_b, link_loaded, roots_a, roots_b};
use crate::register_histories::{add_register, take_register};
use avf_base::OutOfMemory;
use rv_isa::Retired;
use std::alloc::Global;
use std::collections::BTreeMap;

/// From the needs after instruction `at`, which is `entry`, to those before it.
pub fn step_back(
    alloc: Global,
    registers: &mut [History],
    bytes: &mut BTreeMap<u32, History>,
    entry: &Retired,
    at: u32,
) -> Result<(), OutOfMemory>
    requires { length registers.old ≡ 31 }
    ensures { OnOk result (StepsBack entry.now at registers.old bytes.old.entries registers.new bytes.new.entries) }
{
    let result = take_register(registers, entry, at)?;
    let stored = stored_mask(bytes, entry);
    let loaded = link_loaded(entry, result);
    clear_stored(alloc, bytes, entry, at)?;
    add_loaded(alloc, bytes, entry, at, loaded)?;
    let a = link_a(entry, result) | roots_a(entry);
    let b = link_b(entry, result) | roots_b(entry) | stored;
    add_register(registers, entry.op.rs1, at, a)?;
    add_register(registers, entry.op.rs2, at, b)?;
    Ok(())
}
