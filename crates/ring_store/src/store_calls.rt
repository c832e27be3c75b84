// Making the store, and its calls.
ghost use Rattle.std.specs.Prelude.{◌≡◌, ℕ, ◌<◌, is_ok, IfOk, if◌then◌else◌, MatchOption, MatchResult, slice_index};
ghost use Rattle.block.specs.Blocks.{all_free};
ghost use Rattle.block.specs.Calls.{Takes, keep_answer, kept, put_answer, release_answer, released, written};
ghost use Rattle.layout.proofs.Wholes.{laid_whole};
ghost use Rattle.ring_store.specs.Ring.{ahead, held, stands_on};

use crate::store::RingStore;
use block::{BlockStore, Refusal};
use block_slab::{Slab, SlabView};

impl RingStore {
    // A store of 128 blocks, all of them free. The first number that it takes is 0.
    pub fn new() -> RingStore
        ensures after { held result ≡ all_free 128 }
        ensures last { result.last ≡ 127 }
    {
        RingStore {
            words: [0; 2048],
            cells: [0; 128],
            last: 127,
        }
    }

    // The memory, to be read.
    fn view(&self) -> SlabView<'_>
        ensures words { result.words.now ≡ self.now.words }
        ensures cells { result.cells.now ≡ self.now.cells }
    {
        SlabView {
            words: &self.words,
            cells: &self.cells,
        }
    }

    // The first free number above the one that was taken last, going round.
    fn next(&self) -> Option<u32>
        ensures { MatchOption result ((k : ℕ) → k < 128 → 0 < slice_index self.now.cells k) (λ b. (b < 128) × (slice_index self.now.cells b ≡ 0) × ((k : ℕ) → k < 128 → ahead self.now.last k < ahead self.now.last b → 0 < slice_index self.now.cells k)) }
    {
        (1..129)
            .map(|step| (self.last + step) % 128)
            .find(|b| self.cells[*b as usize] == 0)
    }
}

impl BlockStore for RingStore {
    ghost blocks = { held };

    ghost whole = { λ s. laid_whole s.words s.cells s.fits };

    ghost frame = { stands_on };

    // Takes the first free number above the one taken last, going round: all numbers on the way are out.
    fn take(&mut self) -> Result<u32, Refusal>
        ensures after { Takes (held self.old) result (held self.new) }
        ensures stays { stands_on self.new ≡ stands_on self.old }
        ensures next { IfOk result (λ b. (k : ℕ) → k < 128 → ahead self.old.last k < ahead self.old.last b → 0 < (held self.old).holders k) }
        ensures last { MatchResult result (λ b. self.new.last ≡ b) (λ _. self.new.last ≡ self.old.last) }
    {
        let b = self.next().ok_or(Refusal::NoneFree)?;
        Slab::new(&mut self.words, &mut self.cells).claim(b);
        self.last = b;
        Ok(b)
    }

    fn keep(&mut self, b: u32) -> Result<(), Refusal>
        ensures answer { result ≡ keep_answer (held self.old) b }
        ensures after { held self.new ≡ (if is_ok result then kept (held self.old) b else held self.old) }
        ensures stays { stands_on self.new ≡ stands_on self.old }
        ensures last { self.new.last ≡ self.old.last }
    {
        Slab::new(&mut self.words, &mut self.cells).keep(b)
    }

    fn release(&mut self, b: u32) -> Result<(), Refusal>
        ensures answer { result ≡ release_answer (held self.old) b }
        ensures after { held self.new ≡ (if is_ok result then released (held self.old) b else held self.old) }
        ensures stays { stands_on self.new ≡ stands_on self.old }
        ensures last { self.new.last ≡ self.old.last }
    {
        Slab::new(&mut self.words, &mut self.cells).release(b)?;
        Ok(())
    }

    fn get(&self, b: u32, i: u32) -> Result<u32, Refusal> {
        self.view().get(b, i)
    }

    fn put(&mut self, b: u32, i: u32, w: u32) -> Result<(), Refusal>
        ensures answer { result ≡ put_answer (held self.old) b i }
        ensures after { held self.new ≡ (if is_ok result then written (held self.old) b i w else held self.old) }
        ensures stays { stands_on self.new ≡ stands_on self.old }
        ensures last { self.new.last ≡ self.old.last }
    {
        Slab::new(&mut self.words, &mut self.cells).put(b, i, w)
    }

    fn holders(&self, b: u32) -> Result<u16, Refusal> {
        self.view().holders(b)
    }

    fn left(&self) -> u32 {
        self.view().left()
    }

    fn size(&self) -> u32 {
        self.view().size() as u32
    }
}
