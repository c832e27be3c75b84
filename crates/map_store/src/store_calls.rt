// Making the store, and its calls.
ghost use Rattle.std.specs.Prelude.{◌≡◌, ℕ, ◌<◌, [], ◌∷◌, IfOk};
ghost use Rattle.block.specs.Blocks.{all_free};
ghost use Rattle.block.specs.Calls.{Takes};
ghost use Rattle.block_slab.specs.Held.{held, stands_on};
ghost use Rattle.layout.specs.Layout.{past, room};
ghost use Rattle.layout.proofs.Wholes.{laid_whole};

use crate::bit_map::BitMap;
use crate::store::MapStore;
use block::{BlockStore, Refusal};
use block_slab::Slab;

impl<'a> MapStore<'a> {
    // A store of as many blocks as the memory has room for, all of them free: the least of a sixteenth of the words, the cells, and 16,384.
    pub fn new(words: &'a mut [u32], cells: &'a mut [u16]) -> MapStore<'a>
        ensures after { held result.slab ≡ all_free (room words.old cells.old) }
        ensures stays { stands_on result.slab ≡ past (words.entry.ghost_name ∷ cells.entry.ghost_name ∷ []) words.old cells.old }
    {
        let mut slab = Slab::new(words, cells);
        slab.clear();
        let mut map = BitMap::full();
        for b in 0..slab.view().size() as u32 {
            map.turn(b);
        }
        MapStore {
            slab,
            map,
            first: 0,
        }
    }
}

impl<'a> BlockStore for MapStore<'a> {
    ghost blocks = { λ s. held s.slab };

    ghost whole = { λ s. laid_whole s.slab.words.now s.slab.cells.now s.slab.fits };

    ghost frame = { λ s. stands_on s.slab };

    // Takes the lowest free number.
    fn take(&mut self) -> Result<u32, Refusal>
        ensures after { Takes (held self.old.slab) result (held self.new.slab) }
        ensures stays { stands_on self.new.slab ≡ stands_on self.old.slab }
        ensures lowest { IfOk result (λ b. (k : ℕ) → k < b → 0 < (held self.old.slab).holders k) }
    {
        let b = self.map.lowest(self.first).ok_or(Refusal::NoneFree)?;
        self.slab.claim(b);
        self.map.turn(b);
        self.first = b as usize / 32;
        Ok(b)
    }

    fn keep(&mut self, b: u32) -> Result<(), Refusal> {
        self.slab.keep(b)
    }

    fn release(&mut self, b: u32) -> Result<(), Refusal> {
        if self.slab.release(b)? {
            self.map.turn(b);
            self.first = self.first.min(b as usize / 32);
        }
        Ok(())
    }

    fn get(&self, b: u32, i: u32) -> Result<u32, Refusal> {
        self.slab.view().get(b, i)
    }

    fn put(&mut self, b: u32, i: u32, w: u32) -> Result<(), Refusal> {
        self.slab.put(b, i, w)
    }

    fn holders(&self, b: u32) -> Result<u16, Refusal> {
        self.slab.view().holders(b)
    }

    // The numbers that the map marks as gone, less those that there are not, are out; the others are left.
    fn left(&self) -> u32 {
        16384 - self.map.ones()
    }

    fn size(&self) -> u32 {
        self.slab.view().size() as u32
    }
}
