// Making the store, and its calls.
ghost use Rattle.std.specs.Prelude.{◌≡◌, [], ◌∷◌, is_ok, if◌then◌else◌, MatchResult, nat_eq};
ghost use Rattle.std.specs.List.{range_with_len};
ghost use Rattle.block.specs.Blocks.{all_free, free_count};
ghost use Rattle.block.specs.Calls.{Takes, keep_answer, kept, put_answer, release_answer, released, written};
ghost use Rattle.layout.specs.Layout.{past, room};
ghost use Rattle.layout.proofs.Wholes.{laid_whole};
ghost use Rattle.links.specs.Chain.{Threads};
ghost use Rattle.chain_store.specs.Order.{held, order, stands_on};

use crate::store::ChainStore;
use block::{BlockStore, Refusal};
use block_slab::Slab;

impl<'a> ChainStore<'a> {
    // A store of as many blocks as the memory has room for, all of them free, 0 first: the least of a sixteenth of the words, the cells, and 16,384.
    pub fn new(words: &'a mut [u32], cells: &'a mut [u16]) -> ChainStore<'a>
        ensures after { held result ≡ all_free (room words.old cells.old) }
        ensures stays { stands_on result ≡ past (words.entry.ghost_name ∷ cells.entry.ghost_name ∷ []) words.old cells.old }
        ensures order { order result ≡ range_with_len 0 (room words.old cells.old) }
    {
        let mut slab = Slab::new(words, cells);
        slab.clear();
        let size = slab.view().size() as u32;
        for b in 0..size {
            slab.link(b, b + 1);
        }
        ChainStore {
            slab,
            top: 0,
            free: size,
        }
    }
}

impl<'a> BlockStore for ChainStore<'a> {
    ghost blocks = { held };

    ghost whole = { λ s. laid_whole s.slab.words.now s.slab.cells.now s.slab.fits };

    ghost frame = { stands_on };

    // Takes the number that was freed last.
    fn take(&mut self) -> Result<u32, Refusal>
        ensures after { Takes (held self.old) result (held self.new) }
        ensures stays { stands_on self.new ≡ stands_on self.old }
        ensures order { MatchResult result (λ b. order self.old ≡ b ∷ order self.new) (λ _. order self.new ≡ order self.old) }
    {
        self.free = self.free.checked_sub(1).ok_or(Refusal::NoneFree)?;
        let b = self.top;
        self.top = self.slab.view().linked(b);
        self.slab.claim(b);
        Ok(b)
    }

    fn keep(&mut self, b: u32) -> Result<(), Refusal>
        ensures answer { result ≡ keep_answer (held self.old) b }
        ensures after { held self.new ≡ (if is_ok result then kept (held self.old) b else held self.old) }
        ensures stays { stands_on self.new ≡ stands_on self.old }
        ensures order { order self.new ≡ order self.old }
    {
        self.slab.keep(b)
    }

    // The last release puts the number before all that were freed earlier.
    fn release(&mut self, b: u32) -> Result<(), Refusal>
        ensures answer { result ≡ release_answer (held self.old) b }
        ensures after { held self.new ≡ (if is_ok result then released (held self.old) b else held self.old) }
        ensures stays { stands_on self.new ≡ stands_on self.old }
        ensures order { order self.new ≡ (if nat_eq ((held self.old).holders b) 1 then b ∷ order self.old else order self.old) }
    {
        if self.slab.release(b)? {
            self.slab.link(b, self.top);
            self.top = b;
            self.free += 1;
        }
        Ok(())
    }

    fn get(&self, b: u32, i: u32) -> Result<u32, Refusal> {
        self.slab.view().get(b, i)
    }

    fn put(&mut self, b: u32, i: u32, w: u32) -> Result<(), Refusal>
        ensures answer { result ≡ put_answer (held self.old) b i }
        ensures after { held self.new ≡ (if is_ok result then written (held self.old) b i w else held self.old) }
        ensures stays { stands_on self.new ≡ stands_on self.old }
        ensures order { order self.new ≡ order self.old }
    {
        self.slab.put(b, i, w)
    }

    fn holders(&self, b: u32) -> Result<u16, Refusal> {
        self.slab.view().holders(b)
    }

    // The chain has every free number once, and no other.
    fn left(&self) -> u32
        ensures value { result ≡ free_count (held self.now) }
        ensures order { Threads (order self.now) (held self.now) }
    {
        self.free
    }

    fn size(&self) -> u32 {
        self.slab.view().size() as u32
    }
}
