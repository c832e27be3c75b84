// Questions about blocks in memory that is only read.
ghost use Rattle.std.specs.Prelude.{◌≡◌, ◌*◌, if◌then◌else◌, nat_lt, slice_index};
ghost use Rattle.block.specs.Blocks.{free_count};
ghost use Rattle.block.specs.Calls.{get_answer, holders_answer};
ghost use Rattle.layout.specs.Layout.{place_answer};
ghost use Rattle.block_slab.specs.Held.{shown};

use crate::views::SlabView;
use block::Refusal;

impl SlabView<'_> {
    // How many blocks the memory has room for: at most 16,384.
    pub fn size(&self) -> usize
        ensures { result ≡ (shown self.now).size }
    {
        (self.words.len() / 16).min(self.cells.len()).min(16384)
    }

    // Where word i of block b lies among the words.
    pub(crate) fn word_at(&self, b: u32, i: u32) -> Result<usize, Refusal>
        ensures { result ≡ place_answer (shown self.now) b i }
    {
        self.holders(b)?;
        if i > 15 {
            return Err(Refusal::NoWord);
        }
        Ok(16 * b as usize + i as usize)
    }

    // Word i of block b.
    pub fn get(&self, b: u32, i: u32) -> Result<u32, Refusal>
        ensures { result ≡ get_answer (shown self.now) b i }
    {
        let k = self.word_at(b, i)?;
        Ok(self.words[k])
    }

    // How many hold block b.
    pub fn holders(&self, b: u32) -> Result<u16, Refusal>
        ensures { result ≡ holders_answer (shown self.now) b }
    {
        match self.cells[..self.size()].get(b as usize) {
            Some(held) if *held > 0 => Ok(*held),
            _ => Err(Refusal::NotOut),
        }
    }

    // How many blocks are free.
    pub fn left(&self) -> u32
        ensures { result ≡ free_count (shown self.now) }
    {
        self.cells[..self.size()]
            .iter()
            .map(|held| u32::from(*held == 0))
            .sum()
    }

    // The number that stands in the first word of block b: 0 where there is no such block.
    pub fn linked(&self, b: u32) -> u32
        ensures { result ≡ (if nat_lt b (shown self.now).size then slice_index self.now.words.now (16 * b) else 0) }
    {
        let k = b as usize;
        if k < self.size() {
            self.words[16 * k]
        } else {
            0
        }
    }
}
