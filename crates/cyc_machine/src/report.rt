// What a cycle reports.
ghost use Rattle.std.specs.Prelude.{◌≡◌, ◌<◌, ◌%◌};
ghost use Rattle.rv_table.specs.Effects.{byte_put};
ghost use Rattle.rv_isa.specs.Instruction.{end_of};
ghost use Rattle.cyc_machine.specs.Cycle as cycles;

use crate::fate::Fate;
use crate::port::Move;
use avf_base::End;
use pipe_latch::IdEx;
use rv_table::Action;
use wb_cache::{Cache, CacheEvent, EventKind};

/// What is seen of one cycle.
#[derive(Clone, Copy)]
pub struct CycleReport {
    /// The byte that the program put.
    pub put: Option<u8>,
    /// The word address of the instruction that left EX, the ending cycle included.
    pub issued: Option<u32>,
    /// Whether EX/MEM was occupied and left.
    pub retired: bool,
    /// What happened to the cache.
    pub event: Option<CacheEvent>,
    /// How the run ended in this cycle.
    pub end: Option<End>,
}

// What is seen of a cycle in which M does this.
pub fn report_of(
    action: &Action,
    fate: &Fate,
    decoded: &IdEx,
    retired: bool,
    event: Option<CacheEvent>,
) -> CycleReport
    ensures put { result.put ≡ byte_put action.now }
    ensures issued { result.issued ≡ cycles.issued_from fate.now decoded.now }
    ensures retired { result.retired ≡ retired }
    ensures event { result.event ≡ event }
    ensures end { result.end ≡ end_of action.now }
{
    CycleReport {
        put: put_by(action),
        issued: issued_by(fate, decoded),
        retired,
        event,
        end: end_of(action),
    }
}

// The byte that an action puts.
fn put_by(action: &Action) -> Option<u8>
    ensures { result ≡ byte_put action.now }
{
    match action {
        Action::Puts(value) => Some((*value & 0xff) as u8),
        _ => None,
    }
}

// How an action ends the run.
fn end_of(action: &Action) -> Option<End>
    ensures { result ≡ end_of action.now }
{
    match action {
        Action::Exits(value) => Some(End::Exit((*value & 0xff) as u8)),
        Action::Traps(cause) => Some(End::Trap(*cause)),
        _ => None,
    }
}

// The word address of the instruction that leaves EX.
fn issued_by(fate: &Fate, decoded: &IdEx) -> Option<u32>
    ensures { result ≡ cycles.issued_from fate.now decoded.now }
{
    match fate {
        Fate::Goes { .. } => Some(decoded.pc),
        _ => None,
    }
}

// The event of a cycle in which the port does this; the cache is that before it.
pub fn event_of(motion: &Move, action: &Action, cycle: u32, cache: &Cache) -> Option<CacheEvent>
    ensures { result ≡ cycles.event_by motion.now action.now cycle cache.now }
{
    let sets = cache.sets();
    match motion {
        Move::Reads { word, way } => Some(CacheEvent {
            cycle,
            kind: EventKind::Read,
            line: *word / 4,
            set: *word / 4 % sets,
            way: *way,
            mask: lanes_of(action),
            word: *word % 4,
        }),
        Move::Drains { entry, way } => Some(CacheEvent {
            cycle,
            kind: EventKind::Write,
            line: entry.addr / 4,
            set: entry.addr / 4 % sets,
            way: *way,
            mask: entry.mask,
            word: entry.addr % 4,
        }),
        Move::Misses { line, way, .. } => Some(line_event(
            cycle,
            EventKind::Miss,
            *line,
            *way,
            sets,
        )),
        Move::Fills { line, way } => Some(line_event(cycle, EventKind::Fill, *line, *way, sets)),
        Move::Rests | Move::Waits | Move::Leaves => None,
    }
}

// An event of a whole line.
fn line_event(cycle: u32, kind: EventKind, line: u32, way: u32, sets: u32) -> CacheEvent
    requires { 0 < sets }
    ensures { result ≡ cycles.line_event cycle kind line (line % sets) way }
{
    CacheEvent {
        cycle,
        kind,
        line,
        set: line % sets,
        way,
        mask: 0,
        word: 0,
    }
}

// The lanes that a load takes.
fn lanes_of(action: &Action) -> u8
    ensures { result ≡ cycles.lanes_of action.now }
{
    match action {
        Action::Loads { kind, address, .. } => kind.lanes(*address),
        _ => 0,
    }
}
