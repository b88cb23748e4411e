// Main memory behind the cache.
ghost use Rattle.std.specs.Prelude.{◌≡◌, length};
ghost use Rattle.cyc_machine.specs.Memory as memory_side;

use crate::port::Move;
use elf_load::Image;
use wb_cache::Cache;

/// The cache, and main memory from the image's base on.
#[derive(Drop)]
pub(crate) struct CachedMemory {
    pub cache: Cache,
    pub memory: Vec<u8>,
}

impl CachedMemory {
    /// Does what the port does, and gives the word that it reads.
    #[tactic(auto, unfolding(crate::specs::Memory::cache_after, crate::specs::Memory::memory_after, crate::specs::Memory::word_read))]
    pub fn access(&mut self, image: &Image, motion: &Move) -> Option<u32>
        requires fills { memory_side.FillsMiss motion.now self.old.cache }
        requires size { length self.old.memory.items ≡ length image.now.ram }
        ensures cache { self.new.cache ≡ memory_side.cache_after image.now motion.now self.old.memory.items self.old.cache }
        ensures memory { self.new.memory.items ≡ memory_side.memory_after image.now motion.now self.old.cache self.old.memory.items }
        ensures size { length self.new.memory.items ≡ length self.old.memory.items }
        ensures word { result ≡ memory_side.word_read motion.now self.old.cache }
    {
        match motion {
            Move::Reads { word, .. } => self.cache.read(*word / 4, *word % 4),
            Move::Drains { entry, .. } => {
                let _way = self
                    .cache
                    .write(entry.addr / 4, entry.addr % 4, entry.mask, entry.value);
                None
            }
            Move::Fills { line, .. } => {
                self.cache.refill(*line, image, &mut self.memory);
                None
            }
            Move::Rests | Move::Misses { .. } | Move::Waits | Move::Leaves => None,
        }
    }
}
