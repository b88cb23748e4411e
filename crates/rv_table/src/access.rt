// Which bytes a load or a store accesses, and what it makes of them.
ghost use Rattle.std.specs.Prelude.{◌≡◌, ◌<◌, ◌^◌, ◌%◌};
ghost use Rattle.rv_table.specs.Accesses.{byte_of, lane_mask, load_size, loaded, store_size, store_word, extended_byte, extended_half};

use crate::{LoadKind, StoreKind};

impl LoadKind {
    /// How many bytes it accesses: 1, 2 or 4.
    pub fn size(self) -> u32
        ensures { result ≡ load_size self }
    {
        match self {
            LoadKind::Lb | LoadKind::Lbu => 1,
            LoadKind::Lh | LoadKind::Lhu => 2,
            LoadKind::Lw => 4,
        }
    }

    /// The lanes of its word that a load at byte address `address` reads: bit i for byte i.
    pub fn lanes(self, address: u32) -> u8
        ensures mask { result ≡ lane_mask (load_size self) address }
        ensures some { 0 < result }
        ensures within { result < 16 }
    {
        match self {
            LoadKind::Lb | LoadKind::Lbu => byte_lane(address),
            LoadKind::Lh | LoadKind::Lhu => half_lanes(address),
            LoadKind::Lw => word_lanes(address),
        }
    }
}

impl StoreKind {
    /// How many bytes it accesses: 1, 2 or 4.
    pub fn size(self) -> u32
        ensures { result ≡ store_size self }
    {
        match self {
            StoreKind::Sb => 1,
            StoreKind::Sh => 2,
            StoreKind::Sw => 4,
        }
    }

    /// The lanes of its word that a store at byte address `address` writes: bit i for byte i.
    pub fn lanes(self, address: u32) -> u8
        ensures mask { result ≡ lane_mask (store_size self) address }
        ensures some { 0 < result }
        ensures within { result < 16 }
    {
        match self {
            StoreKind::Sb => byte_lane(address),
            StoreKind::Sh => half_lanes(address),
            StoreKind::Sw => word_lanes(address),
        }
    }
}

#[tactic(auto, unfolding(crate::specs::Accesses::loaded, crate::specs::Accesses::byte_of))]
/// The value that a load at byte address `address` takes from the aligned word that holds it, little-endian.
pub fn loaded(kind: LoadKind, address: u32, word: u32) -> u32
    ensures { result ≡ loaded kind address (λ p. byte_of word (p % 4)) }
{
    let byte = (word >> (8 * (address % 4))) % 256;
    let half = (word >> (16 * (address / 2 % 2))) % 65_536;
    match kind {
        LoadKind::Lb => signed_byte(byte),
        LoadKind::Lh => signed_half(half),
        LoadKind::Lw => word,
        LoadKind::Lbu => byte,
        LoadKind::Lhu => half,
    }
}

fn signed_byte(byte: u32) -> u32
    requires { byte < 256 }
    ensures { result ≡ extended_byte byte }
{
    if byte < 0x80 {
        byte
    } else {
        byte + 0xFFFF_FF00
    }
}

fn signed_half(half: u32) -> u32
    requires { half < 65536 }
    ensures { result ≡ extended_half half }
{
    if half < 0x8000 {
        half
    } else {
        half + 0xFFFF_0000
    }
}

#[tactic(auto, using(crate::proofs::Lanes::masks))]
fn byte_lane(address: u32) -> u8
    ensures mask { result ≡ lane_mask 1 address }
    ensures some { 0 < result }
    ensures within { result < 16 }
{
    1 << (address % 4)
}

#[tactic(auto, using(crate::proofs::Lanes::masks))]
fn half_lanes(address: u32) -> u8
    ensures mask { result ≡ lane_mask 2 address }
    ensures some { 0 < result }
    ensures within { result < 16 }
{
    if address / 2 % 2 == 0 { 0b0011 } else { 0b1100 }
}

#[tactic(auto, using(crate::proofs::Lanes::masks))]
fn word_lanes(address: u32) -> u8
    ensures mask { result ≡ lane_mask 4 address }
    ensures some { 0 < result }
    ensures within { result < 16 }
{
    let _ = address;
    0b1111
}

#[tactic(auto, using(crate::proofs::Lanes::stored_words))]
fn stored_byte(address: u32, value: u32) -> u32
    ensures { result ≡ store_word StoreKind.Sb address value }
{
    value % 256 << (8 * (address % 4))
}

#[tactic(auto, using(crate::proofs::Lanes::stored_words))]
fn stored_half(address: u32, value: u32) -> u32
    ensures { result ≡ store_word StoreKind.Sh address value }
{
    value % 65_536 << (16 * (address / 2 % 2))
}

#[tactic(auto, using(crate::proofs::Lanes::stored_words))]
/// The low bytes of `value` in the lanes of its word that a store at byte address `address` accesses, 0 in the others.
pub fn store_word(kind: StoreKind, address: u32, value: u32) -> u32
    ensures { result ≡ store_word kind address value }
{
    match kind {
        StoreKind::Sb => stored_byte(address, value),
        StoreKind::Sh => stored_half(address, value),
        StoreKind::Sw => value,
    }
}
