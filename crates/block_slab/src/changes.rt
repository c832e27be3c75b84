// What alters blocks. No cell past them is ever written, and a refused call writes none.
ghost use Rattle.std.specs.Prelude.{◌≡◌, ◌+◌, ◌-◌, ◌*◌, is_ok, if◌then◌else◌, nat_lt, slice_index, slice_set};
ghost use Rattle.block.specs.Blocks.{all_free};
ghost use Rattle.block.specs.Calls.{keep_answer, kept, put_answer, released, taken, written};
ghost use Rattle.layout.specs.Layout.{Claimed, Cleared, release_tells};
ghost use Rattle.block_slab.specs.Held.{held, stands_on};

use crate::memory::Slab;
use block::Refusal;

impl Slab<'_> {
    // Writes word i of block b.
    pub fn put(&mut self, b: u32, i: u32, w: u32) -> Result<(), Refusal>
        ensures answer { result ≡ put_answer (held self.old) b i }
        ensures after { held self.new ≡ (if is_ok result then written (held self.old) b i w else held self.old) }
        ensures stays { stands_on self.new ≡ stands_on self.old }
        ensures words { self.new.words.now ≡ (if is_ok result then slice_set self.old.words.now (16 * b + i) w else self.old.words.now) }
        ensures cells { self.new.cells.now ≡ self.old.cells.now }
    {
        let k = self.view().word_at(b, i)?;
        self.words[k] = w;
        Ok(())
    }

    // One more holder for block b.
    pub fn keep(&mut self, b: u32) -> Result<(), Refusal>
        ensures answer { result ≡ keep_answer (held self.old) b }
        ensures after { held self.new ≡ (if is_ok result then kept (held self.old) b else held self.old) }
        ensures stays { stands_on self.new ≡ stands_on self.old }
        ensures words { self.new.words.now ≡ self.old.words.now }
        ensures cells { self.new.cells.now ≡ (if is_ok result then slice_set self.old.cells.now b (slice_index self.old.cells.now b + 1) else self.old.cells.now) }
    {
        let held = self.view().holders(b)?;
        self.cells[b as usize] = held.checked_add(1).ok_or(Refusal::TooMany)?;
        Ok(())
    }

    // One holder fewer for block b; the answer says whether it is free now.
    pub fn release(&mut self, b: u32) -> Result<bool, Refusal>
        ensures answer { result ≡ release_tells (held self.old) b }
        ensures after { held self.new ≡ (if is_ok result then released (held self.old) b else held self.old) }
        ensures stays { stands_on self.new ≡ stands_on self.old }
        ensures words { self.new.words.now ≡ self.old.words.now }
        ensures cells { self.new.cells.now ≡ (if is_ok result then slice_set self.old.cells.now b (slice_index self.old.cells.now b - 1) else self.old.cells.now) }
    {
        let held = self.view().holders(b)?;
        self.cells[b as usize] = held - 1;
        Ok(held == 1)
    }

    // Puts number b out: one holder, and zeros for words. A number past the last block is none, and alters nothing.
    pub fn claim(&mut self, b: u32)
        ensures after { held self.new ≡ (if nat_lt b (held self.old).size then taken (held self.old) b else held self.old) }
        ensures stays { stands_on self.new ≡ stands_on self.old }
        ensures cells { Claimed self.old.words.now self.old.cells.now b self.new.words.now self.new.cells.now }
    {
        let k = b as usize;
        if k < self.view().size() {
            self.words[16 * k..16 * k + 16].fill(0);
            self.cells[k] = 1;
        }
    }

    // Frees all blocks.
    pub fn clear(&mut self)
        ensures after { held self.new ≡ all_free (held self.old).size }
        ensures stays { stands_on self.new ≡ stands_on self.old }
        ensures words { self.new.words.now ≡ self.old.words.now }
        ensures cells { Cleared (held self.old).size self.old.cells.now self.new.cells.now }
    {
        let size = self.view().size();
        self.cells[..size].fill(0);
    }

    // Writes a number into the first word of block b, where nobody sees it while the block is free.
    pub fn link(&mut self, b: u32, next: u32)
        ensures after { (held self.old).holders b ≡ 0 → held self.new ≡ held self.old }
        ensures stays { stands_on self.new ≡ stands_on self.old }
        ensures words { self.new.words.now ≡ (if nat_lt b (held self.old).size then slice_set self.old.words.now (16 * b) next else self.old.words.now) }
        ensures cells { self.new.cells.now ≡ self.old.cells.now }
    {
        let k = b as usize;
        if k < self.view().size() {
            self.words[16 * k] = next;
        }
    }
}
