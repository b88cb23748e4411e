// The memory side of a cycle: clients, port, memory stage and store buffer.
ghost use Rattle.std.specs.Prelude.{◌≡◌, ◌≤◌, ◌<◌, ◌^◌, ◌/◌, ◌%◌, ◌++◌, ℕ, true, None, length};
ghost use Rattle.std.specs.Option.{ForSome};
ghost use Rattle.elf_load.specs.Image.{IsImage};
ghost use Rattle.store_buf.specs.Pending.{pending, packed};
ghost use Rattle.store_buf.specs.declared.buffer.TheConstants.{SLOTS};
ghost use Rattle.rv_table.specs.Effects.{written_register};
ghost use Rattle.wb_cache.specs.Access.{found};
ghost use Rattle.cyc_machine.specs.Memory as memory_side;

use crate::port::{Move, PortLatch};
use elf_load::Image;
use pipe_latch::MemWb;
use rv_table::{Action, LoadKind, StoreKind, loaded, store_word};
use store_buf::{Cover, Pending, SLOTS, StoreBuf};
use wb_cache::Cache;

/// How many cycles a miss waits for its line.
pub const REFILL_CYCLES: u8 = 8;

/// How many cycles a miss waits where the victim must be written back first.
pub const WRITE_BACK_CYCLES: u8 = 16;

/// Whether the instruction in EX/MEM leaves in this cycle, and the value for its register.
#[derive(Clone, Copy)]
pub struct Served {
    pub goes: bool,
    pub value: u32,
}

// The load client: the word address that M's load asks the cache for.
#[tactic(auto, unfolding(crate::specs::Memory::load_client))]
pub fn load_client(image: &Image, action: &Action, stores: &StoreBuf) -> Option<u32>
    ensures client { result ≡ memory_side.load_client image.now action.now (pending stores.now) }
    ensures within { ForSome result (λ word. word < 2 ^ 30) }
{
    match action {
        Action::Loads { kind, address, .. } => load_word(image, *kind, *address, stores),
        _ => None,
    }
}

#[tactic(auto, unfolding(crate::specs::Memory::asked_word))]
fn load_word(image: &Image, kind: LoadKind, address: u32, stores: &StoreBuf) -> Option<u32>
    ensures client { result ≡ memory_side.asked_word image.now kind address (pending stores.now) }
    ensures within { ForSome result (λ word. word < 2 ^ 30) }
{
    let word = address / 4;
    if !image.word_in_ram(word) {
        return None;
    }
    match stores.cover(word, kind.lanes(address)) {
        Cover::None => Some(word),
        Cover::Full(_) | Cover::Part => None,
    }
}

// The store client: the oldest pending store, where its word is in RAM.
#[tactic(auto, unfolding(crate::specs::Memory::store_client))]
pub fn store_client(image: &Image, stores: &StoreBuf) -> Option<Pending>
    ensures { result ≡ memory_side.store_client image.now (pending stores.now) }
{
    match stores.oldest() {
        Some(entry) => in_ram_entry(image, entry),
        None => None,
    }
}

fn in_ram_entry(image: &Image, entry: Pending) -> Option<Pending>
    ensures { result ≡ memory_side.in_ram_entry image.now (Some entry) }
{
    if image.word_in_ram(entry.addr) {
        Some(entry)
    } else {
        None
    }
}

// What the port does in this cycle.
#[tactic(auto, unfolding(crate::specs::Memory::move_of))]
pub fn port_move(port: &PortLatch, cache: &Cache, load: Option<u32>, store: Option<Pending>) -> Move
    requires { ForSome load (λ word. word < 2 ^ 30) }
    ensures motion { result ≡ memory_side.move_of port.now cache.now load store }
    ensures fills { memory_side.FillsMiss result cache.now }
    ensures count { memory_side.move_count result < 32 }
{
    if port.count == 0 {
        start(cache, load, store)
    } else {
        go_on(port.count, cache, owned_word(port.owner, load, store))
    }
}

fn start(cache: &Cache, load: Option<u32>, store: Option<Pending>) -> Move
    ensures motion { result ≡ memory_side.starts cache.now load store }
    ensures fills { memory_side.FillsMiss result cache.now }
    ensures count { memory_side.move_count result < 32 }
{
    match load {
        Some(word) => start_load(cache, word),
        None => match store {
            Some(entry) => start_store(cache, entry),
            None => Move::Rests,
        },
    }
}

fn start_load(cache: &Cache, word: u32) -> Move
    ensures motion { result ≡ memory_side.starts cache.now (Some word) None }
    ensures fills { memory_side.FillsMiss result cache.now }
    ensures count { memory_side.move_count result < 32 }
{
    match cache.lookup(word / 4) {
        Some(way) => Move::Reads { word, way },
        None => miss(cache, word / 4, false),
    }
}

fn start_store(cache: &Cache, entry: Pending) -> Move
    ensures motion { result ≡ memory_side.starts cache.now None (Some entry) }
    ensures fills { memory_side.FillsMiss result cache.now }
    ensures count { memory_side.move_count result < 32 }
{
    match cache.lookup(entry.addr / 4) {
        Some(way) => Move::Drains { entry, way },
        None => miss(cache, entry.addr / 4, true),
    }
}

fn miss(cache: &Cache, line: u32, owner: bool) -> Move
    ensures motion { result ≡ memory_side.missed cache.now line owner }
    ensures fills { memory_side.FillsMiss result cache.now }
    ensures count { memory_side.move_count result < 32 }
{
    let set = line % cache.sets();
    let way = cache.victim(set);
    let written_back = cache.valid(set, way) && cache.dirty(set, way);
    Move::Misses {
        line,
        way,
        count: if written_back {
            WRITE_BACK_CYCLES
        } else {
            REFILL_CYCLES
        },
        owner,
    }
}

// The word that the owner of the busy port asks for.
fn owned_word(owner: bool, load: Option<u32>, store: Option<Pending>) -> Option<u32>
    requires { ForSome load (λ word. word < 2 ^ 30) }
    ensures word { result ≡ memory_side.owned_word owner load store }
    ensures within { ForSome result (λ word. word < 2 ^ 30) }
{
    if owner {
        match store {
            Some(entry) => Some(entry.addr),
            None => None,
        }
    } else {
        load
    }
}

fn go_on(count: u8, cache: &Cache, word: Option<u32>) -> Move
    requires { ForSome word (λ word. word < 2 ^ 30) }
    ensures motion { result ≡ memory_side.continues count cache.now word }
    ensures fills { memory_side.FillsMiss result cache.now }
    ensures count { memory_side.move_count result < 32 }
{
    match word {
        Some(word) => {
            if count > 1 {
                Move::Waits
            } else {
                finish(cache, word / 4)
            }
        }
        None => Move::Leaves,
    }
}

fn finish(cache: &Cache, line: u32) -> Move
    requires { line < 2 ^ 28 }
    ensures motion { result ≡ memory_side.filled_by (found cache.now line) cache.now line }
    ensures fills { memory_side.FillsMiss result cache.now }
    ensures count { memory_side.move_count result < 32 }
{
    match cache.lookup(line) {
        Some(_) => Move::Leaves,
        None => Move::Fills {
            line,
            way: cache.victim(line % cache.sets()),
        },
    }
}

// The port's next latch.
#[tactic(auto, unfolding(crate::specs::Memory::port_after))]
pub fn port_after(motion: &Move, port: &PortLatch) -> PortLatch
    requires { memory_side.move_count motion.now < 32 }
    ensures { result ≡ memory_side.port_after motion.now port.now }
{
    match motion {
        Move::Misses { count, owner, .. } => PortLatch {
            count: *count,
            owner: *owner,
        },
        Move::Waits => PortLatch {
            count: port.count.saturating_sub(1),
            owner: port.owner,
        },
        _ => PortLatch {
            count: 0,
            owner: port.owner,
        },
    }
}

// Whether M leaves, and the value for its register; `word` is the word that the port reads.
#[tactic(auto, unfolding(crate::specs::Memory::served))]
pub fn serve(image: &Image, action: &Action, stores: &StoreBuf, word: Option<u32>) -> Served
    ensures { result ≡ memory_side.served image.now action.now (pending stores.now) word }
{
    match action {
        Action::Loads { kind, address, .. } => served_by(load_value(
            image, *kind, *address, stores, word,
        )),
        Action::Stores { address, .. } => Served {
            goes: has_room(image, *address / 4, stores),
            value: 0,
        },
        Action::Writes { value, .. } => Served {
            goes: true,
            value: *value,
        },
        _ => Served {
            goes: true,
            value: 0,
        },
    }
}

fn served_by(value: Option<u32>) -> Served
    ensures { result ≡ memory_side.served_by value }
{
    match value {
        Some(value) => Served { goes: true, value },
        None => Served {
            goes: false,
            value: 0,
        },
    }
}

// A store is done where there is room for it, or at once outside RAM.
fn has_room(image: &Image, word: u32, stores: &StoreBuf) -> bool
    requires { word < 2 ^ 30 }
    ensures { result ≡ memory_side.has_room image.now word (pending stores.now) }
{
    if image.word_in_ram(word) {
        stores.len() < SLOTS as u32
    } else {
        true
    }
}

// The value of M's load, if it is done.
#[tactic(auto, unfolding(crate::specs::Memory::load_value))]
fn load_value(
    image: &Image,
    kind: LoadKind,
    address: u32,
    stores: &StoreBuf,
    word: Option<u32>,
) -> Option<u32>
    ensures { result ≡ memory_side.load_value image.now kind address (pending stores.now) word }
{
    if !image.word_in_ram(address / 4) {
        return Some(0);
    }
    match stores.cover(address / 4, kind.lanes(address)) {
        Cover::Full(word) => Some(loaded(kind, address, word)),
        Cover::Part => None,
        Cover::None => match word {
            Some(word) => Some(loaded(kind, address, word)),
            None => None,
        },
    }
}

// The next MEM/WB.
#[tactic(auto, unfolding(crate::specs::Memory::result_after))]
pub fn result_after(action: &Action, served: &Served) -> MemWb
    requires { written_register action.now < 32 }
    ensures { result ≡ memory_side.result_after action.now served.now }
{
    if served.goes {
        MemWb {
            rd: target(action),
            value: served.value,
        }
    } else {
        MemWb::empty()
    }
}

// The store buffer after the cycle.
#[tactic(auto, unfolding(crate::specs::Memory::stores_after))]
pub fn update_stores(stores: &mut StoreBuf, image: &Image, action: &Action, motion: &Move)
    ensures { stores.new ≡ packed (memory_side.stores_after image.now action.now motion.now (pending stores.old)) }
{
    let room = stores.len() < SLOTS as u32;
    leave(stores, image, motion);
    append(stores, image, action, room);
}

// The register that an action writes, or 0.
fn target(action: &Action) -> u8
    ensures { result ≡ written_register action.now }
{
    match action {
        Action::Writes { rd, .. } | Action::Loads { rd, .. } => *rd,
        _ => 0,
    }
}

// The oldest store leaves where it is drained, or where it is outside RAM.
fn leave(stores: &mut StoreBuf, image: &Image, motion: &Move)
    ensures { stores.new ≡ packed (memory_side.kept_stores image.now motion.now (pending stores.old)) }
{
    match motion {
        Move::Drains { .. } => {
            let _oldest = stores.drain();
        }
        _ => drop_stray(stores, image),
    }
}

fn drop_stray(stores: &mut StoreBuf, image: &Image)
    ensures { stores.new ≡ packed (memory_side.without_stray image.now (pending stores.old)) }
{
    if is_stray(stores.oldest(), image) {
        let _oldest = stores.drain();
    } else {
        stores.ripple();
    }
}

// Whether the oldest store is outside RAM.
fn is_stray(oldest: Option<Pending>, image: &Image) -> bool
    ensures { result ≡ memory_side.is_stray image.now oldest }
{
    match oldest {
        Some(entry) => !image.word_in_ram(entry.addr),
        None => false,
    }
}

// M's done store in RAM becomes the youngest pending store.
#[tactic(auto, unfolding(crate::specs::Memory::appended))]
fn append(stores: &mut StoreBuf, image: &Image, action: &Action, room: bool)
    requires { room ≡ true → length (pending stores.old) < SLOTS }
    ensures { stores.new ≡ packed (pending stores.old ++ memory_side.appended image.now action.now room) }
{
    match action {
        Action::Stores {
            kind,
            address,
            value,
        } => {
            if room && image.word_in_ram(*address / 4) {
                stores.push(pending_store(*kind, *address, *value));
            } else {
                stores.ripple();
            }
        }
        _ => stores.ripple(),
    }
}

fn pending_store(kind: StoreKind, address: u32, value: u32) -> Pending
    ensures entry { result ≡ memory_side.entry_of kind address value }
    ensures some { 0 < result.mask }
{
    Pending {
        mask: kind.lanes(address),
        addr: address / 4,
        value: store_word(kind, address, value),
    }
}
