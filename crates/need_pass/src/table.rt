// The needs of a run, to be looked up.
ghost use Rattle.need_pass.specs.Histories.{IsUpTo};
ghost use Rattle.need_pass.specs.Tables as tables;
ghost use Rattle.need_pass.specs.Tables.{IsNeedOf};
ghost use Rattle.need_pass.specs.Law.{HasNeedLaw};
ghost use Rattle.need_pass.specs.NeedFacts.{NeedFacts};
ghost use Rattle.std.specs.Prelude.{IfOk, [], ℕ, replicate, ◌<◌, ◌≡◌, ◌≤◌};

use crate::byte_histories::{byte_at, byte_until};
use crate::history::History;
use crate::pass::step_back;
use crate::register_histories::register_at;
use avf_base::OutOfMemory;
use rv_isa::Trace;
use std::alloc::Global;
use std::collections::BTreeMap;
use std::marker::Model;

/// Which bits of registers and RAM bytes a run needs before each of its instructions: those on which a later access, branch,
/// output or the end depends.
#[derive(Drop)]
pub struct NeedTable {
    count: u32,
    registers: Vec<History>,
    bytes: BTreeMap<u32, History>,
}

impl Model for NeedTable {
    ghost use Rattle.std.specs.Prelude.{◌≡◌, length};
    ghost use Rattle.need_pass.specs.Tables.{Needs};

    ghost Value = { Needs };

    ghost view = { λ t. record { count = t.count; registers = t.registers.items; bytes = t.bytes.entries } };

    ghost invariant = { λ t. length t.registers.items ≡ 31 };
}

impl NeedTable {
    /// The number of the run's instructions.
    pub fn len(&self) -> u32
        ensures { result ≡ self.now.count }
    {
        self.count
    }

    /// The needed bits of register `r`, 1 to 31, before instruction `i`; none after the last.
    #[tactic(auto, unfolding(crate::specs::Tables::reg_need))]
    pub fn reg_need(&self, r: u8, i: u32) -> u32
        requires above { 0 < r }
        requires below { r < 32 }
        requires instruction { i ≤ self.now.count }
        ensures { result ≡ tables.reg_need self.now r i }
    {
        register_at(&self.registers, r, i)
    }

    /// The needed bits of the byte at a byte address before instruction `i`; none after the last.
    #[tactic(auto, unfolding(crate::specs::Tables::byte_need))]
    pub fn byte_need(&self, addr: u32, i: u32) -> u8
        requires { i ≤ self.now.count }
        ensures { result ≡ tables.byte_need self.now addr i }
    {
        (byte_at(&self.bytes, addr, i) & 0xff) as u8
    }

    /// The last instruction up to and with which the needed bits of the byte at a byte address stay those before instruction `i`, none
    /// where they stay for ever.
    #[tactic(auto, unfolding(crate::specs::Tables::byte_need))]
    pub fn byte_need_until(&self, addr: u32, i: u32) -> Option<u32>
        ensures last { result ≡ tables.byte_until self.now addr i }
        ensures same { (k : ℕ) → i ≤ k → IsUpTo k result → tables.byte_need self.now addr k ≡ tables.byte_need self.now addr i }
    {
        byte_until(&self.bytes, addr, i)
    }
}

/// No need of any register.
fn no_needs(alloc: Global) -> Result<Vec<History>, OutOfMemory>
    ensures { IfOk result (λ v. v.items ≡ replicate 31 []) }
{
    let mut registers = Vec::new(alloc);
    for _r in 0..31u8 {
        registers.push(History::new(alloc))?;
    }
    Ok(registers)
}

/// The bits that a run needs, by one walk from its last instruction to its first. `IsNeedOf` says that a bit is set exactly
/// where it is needed, and `HasNeedLaw` what that is good for: from any state that agrees with one of the run's on the needed
/// bits, all further instructions do the same.
pub fn needs(alloc: Global, trace: &Trace) -> Result<NeedTable, OutOfMemory>
    ensures exact { IfOk result (λ t. IsNeedOf trace.now.entries t) }
    ensures law { HasNeedLaw trace.now }
{
    let mut registers = no_needs(alloc)?;
    let mut bytes = BTreeMap::new(alloc);
    for at in (0..trace.len()).rev() {
        step_back(alloc, &mut registers, &mut bytes, trace.entry(at), at)?;
    }
    Ok(NeedTable {
        count: trace.len(),
        registers,
        bytes,
    })
}

/// Says what is known of needed bits without working them out. It does nothing.
pub fn need_facts()
    ensures { NeedFacts }
{}
