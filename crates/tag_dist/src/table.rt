// The look-ups and accesses of a run, to be asked for.
ghost use Rattle.std.specs.Prelude.{◌≡◌, ◌<◌, ◌≤◌, ℕ, IfOk};
ghost use Rattle.bit_field.specs.Shapes.{IsShape};
ghost use Rattle.wb_cache.specs.Contents.{slot_of};
ghost use Rattle.event_log.specs.Events.{IsEventLog};
ghost use Rattle.tag_dist.specs.Tables as tables;
ghost use Rattle.tag_dist.specs.Tables.{IsBy, IsTableOf};

use crate::accesses::last_accesses;
use crate::lookups::{asked_lines, filled_slots};
use avf_base::OutOfMemory;
use bit_field::Shape;
use event_log::{CycleList, slot_number};
use rv_isa::Trace;
use std::alloc::Global;
use std::collections::BTreeMap;
use std::marker::Model;
use wb_cache::CacheEvent;

/// Which lines a run accesses last when, and which its cache looks up from any cycle on.
#[derive(Drop)]
pub struct TagTable {
    shape: Shape,
    last: BTreeMap<u32, u32>,
    asked: BTreeMap<u32, CycleList>,
    filled: Vec<CycleList>,
}

impl Model for TagTable {
    ghost use Rattle.tag_dist.specs.Tables.{IsTables, Tables};

    ghost Value = { Tables };

    ghost view = { λ x. record { shape = x.shape; last = x.last.entries; asked = x.asked.entries; filled = x.filled.items } };

    ghost invariant = { λ x. IsTables (record { shape = x.shape; last = x.last.entries; asked = x.asked.entries; filled = x.filled.items }) };
}

impl TagTable {
    /// The greatest number of an instruction that loads from or stores to a line (a byte address divided by 16), none where none
    /// does. An instruction that traps accesses nothing. It takes no memory.
    pub fn last_access(&self, line: u32) -> Option<u32>
        ensures { result ≡ tables.last_in self.now.last line }
    {
        self.last.get(&line).copied()
    }

    /// Whether the cache looks a line up in a cycle from `t` on, before the line slot of a way of a set is filled for the first time
    /// from then on, or with that fill. It takes no memory: one look-up of the line, and two binary searches.
    #[tactic(auto, unfolding(crate::specs::Tables::looked_up_in))]
    pub fn looked_up(&self, set: u32, way: u32, line: u32, t: u32) -> bool
        requires set { set < self.now.shape.sets }
        requires way { way < self.now.shape.ways }
        ensures { result ≡ tables.looked_up_in self.now (slot_of self.now.shape set way) line t }
    {
        let slot = slot_number(&self.shape, set, way) as usize;
        let asked = first_asked(&self.asked, line, t);
        comes_by(asked, self.filled[slot].first_from(t))
    }

    /// The first cycle from `t` on in which a line is asked for, or the line slot of a way of a set is filled.
    #[tactic(auto, unfolding(crate::specs::Tables::next_asked))]
    fn asked_or_filled(&self, set: u32, way: u32, line: u32, t: u32) -> Option<u32>
        requires set { set < self.now.shape.sets }
        requires way { way < self.now.shape.ways }
        ensures { result ≡ tables.next_asked self.now (slot_of self.now.shape set way) line t }
    {
        let slot = slot_number(&self.shape, set, way) as usize;
        let asked = first_asked(&self.asked, line, t);
        earlier(asked, self.filled[slot].first_from(t))
    }

    /// The first cycle from `t` on in which the cache looks a line up, or fills the line slot of a way of a set; none where neither comes.
    /// Up to and with that cycle `looked_up` answers the same. It takes no memory.
    pub fn next_asked(&self, set: u32, way: u32, line: u32, t: u32) -> Option<u32>
        requires set { set < self.now.shape.sets }
        requires way { way < self.now.shape.ways }
        ensures next { result ≡ tables.next_asked self.now (slot_of self.now.shape set way) line t }
        ensures same { (u : ℕ) → t ≤ u → IsBy u result → tables.looked_up_in self.now (slot_of self.now.shape set way) line u ≡ tables.looked_up_in self.now (slot_of self.now.shape set way) line t }
    {
        self.asked_or_filled(set, way, line, t)
    }
}

/// The first cycle from `t` on in which a line is asked for.
#[tactic(auto, unfolding(event_log::specs::Cycles::first_from))]
fn first_asked(asked: &BTreeMap<u32, CycleList>, line: u32, t: u32) -> Option<u32>
    requires { tables.IsRisingAt asked.now.entries line }
    ensures { result ≡ tables.first_asked asked.now.entries line t }
{
    match asked.get(&line) {
        Some(cycles) => cycles.first_from(t),
        None => None,
    }
}

/// The earlier of two cycles, where they come.
fn earlier(cycle: Option<u32>, other: Option<u32>) -> Option<u32>
    ensures { result ≡ tables.earlier cycle other }
{
    match (cycle, other) {
        (None, _) => other,
        (Some(_), None) => cycle,
        (Some(cycle), Some(other)) => Some(cycle.min(other)),
    }
}

/// Whether the first of two cycles comes, and the second not before it.
fn comes_by(asked: Option<u32>, filled: Option<u32>) -> bool
    ensures { result ≡ tables.comes_by asked filled }
{
    match (asked, filled) {
        (None, _) => false,
        (Some(_), None) => true,
        (Some(asked), Some(filled)) => asked <= filled,
    }
}

/// The table of a run with these events and this trace, by one walk over each. It answers exactly what they say. It keeps 4 bytes for
/// an event and 4 more for a fill, before the room that a growing list has in reserve, and a list for each line of an event and an
/// entry for each accessed line.
pub fn tag_table(
    alloc: Global,
    events: &[CacheEvent],
    trace: &Trace,
    shape: &Shape,
) -> Result<TagTable, OutOfMemory>
    requires shape { IsShape shape.now }
    requires events { IsEventLog shape.now events.now }
    ensures { IfOk result (λ table. IsTableOf events.now trace.now.entries shape.now table) }
{
    let last = last_accesses(alloc, trace)?;
    let asked = asked_lines(alloc, events)?;
    let filled = filled_slots(alloc, events, shape)?;
    Ok(TagTable {
        shape: *shape,
        last,
        asked,
        filled,
    })
}
