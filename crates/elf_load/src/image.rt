//! An image as loaded: RAM, which of its bytes are code, and the entry.
ghost use Rattle.std.specs.Prelude.{◌≡◌, ℕ, ◌+◌, ◌*◌, ◌%◌, ◌^◌, ◌<◌, ◌≤◌};
ghost use Rattle.elf_load.specs.Image.{IsImage, LoadedImage};
ghost use Rattle.elf_load.specs.Image as spec;

use byteorder::{ByteOrder, LittleEndian};
use std::marker::Model;

/// An image as loaded. RAM is a whole number of blocks of 65,536 bytes, below 2^32.
#[derive(Drop)]
pub struct Image {
    base: u32,
    ram: Vec<u8>,
    code: Vec<bool>,
    entry: u32,
}

impl Model for Image {
    ghost use Rattle.elf_load.specs.Image.{IsImage, LoadedImage};

    ghost Value = { LoadedImage };

    ghost view = { λ i. record { base = i.base; ram = i.ram.items; code = i.code.items; entry = i.entry } };

    ghost invariant = { λ i. IsImage (record { base = i.base; ram = i.ram.items; code = i.code.items; entry = i.entry }) };
}

impl Image {
    /// An image of its parts.
    pub(crate) fn from_parts(base: u32, ram: Vec<u8>, code: Vec<bool>, entry: u32) -> Image
        requires { IsImage (record { base = base; ram = ram.items; code = code.items; entry = entry }) }
        ensures { result ≡ record { base = base; ram = ram.items; code = code.items; entry = entry } }
    {
        Image {
            base,
            ram,
            code,
            entry,
        }
    }

    /// The byte address of the first byte of RAM, a multiple of 65,536.
    pub fn base(&self) -> u32
        ensures { result ≡ self.now.base }
    {
        self.base
    }

    /// The bytes of RAM as loaded.
    pub fn ram(&self) -> &[u8]
        ensures { result.now ≡ self.now.ram }
    {
        &self.ram
    }

    /// The byte address of the first instruction, a multiple of 4.
    pub fn entry(&self) -> u32
        ensures { result ≡ self.now.entry }
    {
        self.entry
    }

    /// Says what holds of every image: see `IsImage`. It does nothing.
    pub fn is_image(&self)
        ensures { IsImage self.now }
    {
        let _base = self.base;
    }

    /// Whether the byte at a byte address lies in RAM.
    #[tactic(auto, unfolding(crate::specs::Image::in_ram))]
    pub fn in_ram(&self, addr: u32) -> bool
        ensures { result ≡ spec.in_ram self.now addr }
    {
        self.base <= addr && ((addr - self.base) as usize) < self.ram.len()
    }

    /// Whether the byte at a byte address lies in RAM and an executable segment holds it.
    #[tactic(auto, unfolding(crate::specs::Image::in_ram, crate::specs::Image::executable))]
    pub fn executable(&self, addr: u32) -> bool
        ensures { result ≡ spec.executable self.now addr }
    {
        self.in_ram(addr) && self.code[(addr - self.base) as usize]
    }

    /// Whether one of the `size` bytes from a byte address on is executable.
    #[tactic(auto, using(crate::proofs::Executable::any_executable_steps))]
    pub fn any_executable(&self, addr: u32, size: u32) -> bool
        requires { addr + size ≤ 2 ^ 32 }
        ensures { result ≡ spec.any_executable self.now addr size }
    {
        for k in 0..size {
            if self.executable(addr + k) {
                return true;
            }
        }
        false
    }

    /// Whether all four bytes at a word address lie in RAM.
    #[tactic(auto, unfolding(crate::specs::Image::in_ram, crate::specs::Image::word_in_ram))]
    pub fn word_in_ram(&self, word_addr: u32) -> bool
        requires { word_addr < 2 ^ 30 }
        ensures { result ≡ spec.word_in_ram self.now word_addr }
    {
        self.is_image();
        self.in_ram(4 * word_addr)
    }

    /// Whether all four bytes at a word address are executable.
    #[tactic(auto, unfolding(crate::specs::Image::word_executable))]
    fn word_executable(&self, word_addr: u32) -> bool
        requires { word_addr < 2 ^ 30 }
        ensures { result ≡ spec.word_executable self.now word_addr }
    {
        let addr = 4 * word_addr;
        self.executable(addr)
            && self.executable(addr + 1)
            && self.executable(addr + 2)
            && self.executable(addr + 3)
    }

    /// The word at a word address of the image as loaded, lowest byte first; `None` where one of its four bytes
    /// isn't executable.
    #[tactic(auto, unfolding(crate::specs::Image::in_ram, crate::specs::Image::executable, crate::specs::Image::word_executable, crate::specs::Image::fetch))]
    pub fn fetch(&self, word_addr: u32) -> Option<u32>
        requires { word_addr < 2 ^ 30 }
        ensures { result ≡ spec.fetch self.now word_addr }
    {
        if self.word_executable(word_addr) {
            let at = (4 * word_addr - self.base) as usize;
            Some(LittleEndian::read_u32(&self.ram[at..]))
        } else {
            None
        }
    }
}
