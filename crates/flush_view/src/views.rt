// The byte that the program sees.
ghost use Rattle.std.specs.Prelude.{◌≡◌};
ghost use Rattle.flush_view.specs.Views as views;
ghost use Rattle.elf_load.specs.Image.{in_ram, ram_byte};
ghost use Rattle.wb_cache.specs.Contents.{slots};
ghost use Rattle.std.specs.Prelude.{true, length};
ghost use Rattle.store_buf.specs.Pending.{pending};

use bit_field::{Struck, has_lane, lane_byte};
use cyc_machine::Machine;
use store_buf::{Pending, StoreBuf};

/// The byte at a byte address that main memory, the line that the cache holds and the pending stores together give; 0 outside
/// RAM.
#[tactic(auto, unfolding(crate::specs::Views::view))]
pub fn view_byte(m: &Machine<'_>, addr: u32) -> u8
    ensures { result ≡ views.view m.now addr }
{
    if m.image().in_ram(addr) {
        stored_byte(m.store_buf(), addr, cached_byte(m, addr))
    } else {
        0
    }
}

// The byte of the first way that holds the line, else main memory's.
#[tactic(auto, unfolding(crate::specs::Views::cached), using(crate::proofs::Memory::FoundByte::founds))]
fn cached_byte(m: &Machine<'_>, addr: u32) -> u8
    requires { in_ram m.now.image addr ≡ true }
    ensures { result ≡ views.cached m.now.cache.shape (ram_byte m.now.image m.now.memory) (slots m.now.cache) addr }
{
    match m.cache().byte(addr) {
        Some(byte) => byte,
        None => memory_byte(m, addr),
    }
}

// Main memory's byte.
#[tactic(auto, using(crate::proofs::Memory::FoundByte::founds, crate::proofs::Memory::FoundByte::inside))]
fn memory_byte(m: &Machine<'_>, addr: u32) -> u8
    requires { in_ram m.now.image addr ≡ true }
    ensures { result ≡ ram_byte m.now.image m.now.memory addr }
{
    m.is_machine();
    m.memory()[(addr - m.image().base()) as usize]
}

// The byte of the youngest pending store that holds it, else the byte below.
fn stored_byte(stores: &StoreBuf, addr: u32, below: u8) -> u8
    ensures { result ≡ views.overlaid (pending stores.now) addr below }
{
    stores.fits();
    let first = over(&stores.slot(0), addr, below);
    let second = over(&stores.slot(1), addr, first);
    let third = over(&stores.slot(2), addr, second);
    over(&stores.slot(3), addr, third)
}

// The byte that a store holds, else the byte below.
fn over(store: &Pending, addr: u32, below: u8) -> u8
    ensures { result ≡ views.over store.now addr below }
{
    if store.addr == addr / 4 && has_lane(store.mask, addr % 4) {
        lane_byte(store.value, addr % 4)
    } else {
        below
    }
}
