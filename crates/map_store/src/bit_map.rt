// A map of bits: one number's bit turned, and the lowest number whose bit is 0.
ghost use Rattle.std.specs.Prelude.{◌≡◌, ℕ, ◌*◌, ◌<◌, ◌≤◌, length, MatchOption, ◌≢◌, ◌-◌, ◌^◌, slice_index};
ghost use Rattle.block.specs.Blocks.{sum_to};
ghost use Rattle.marks.specs.Map.{mark};

// A bit for each of 16,384 numbers, 32 of them to a word.
#[derive(Drop)]
pub(crate) struct BitMap {
    pub(crate) words: [u32; 512],
    // there are as many words as that, of 32 bits each
    ghost long: { length words ≡ 512 },
    ghost wide: { (k : ℕ) → slice_index words k < 2 ^ 32 },
}

impl BitMap {
    // The map in which every bit is 1.
    pub(crate) fn full() -> BitMap
        ensures { (k : ℕ) → k < 16384 → mark result.words k ≡ 1 }
    {
        BitMap {
            words: [u32::MAX; 512],
        }
    }

    // Turns the bit of number b; a number past the map has none.
    pub(crate) fn turn(&mut self, b: u32)
        ensures turned { b < 16384 → mark self.new.words b ≡ 1 - mark self.old.words b }
        ensures others { (k : ℕ) → (k ≢ b) → mark self.new.words k ≡ mark self.old.words k }
    {
        let at = b as usize / 32;
        if at < self.words.len() {
            self.words[at] ^= 1 << (b % 32);
        }
    }

    // The first word that has a 0, from the given word on. By the words' numbers: an iterator over the words that skips some makes a take slower by two thirds.
    fn first_with_zero(&self, from: usize) -> Option<usize>
        ensures { MatchOption result ((w : ℕ) → from ≤ w → w < 512 → slice_index self.now.words w ≡ 4294967295) (λ w. (w < 512) × (slice_index self.now.words w ≢ 4294967295) × ((v : ℕ) → from ≤ v → v < w → slice_index self.now.words v ≡ 4294967295)) }
    {
        (from..self.words.len()).find(|w| self.words[*w] != u32::MAX)
    }

    // The lowest number whose bit is 0, from the given word of the map on.
    pub(crate) fn lowest(&self, from: usize) -> Option<u32>
        ensures { MatchOption result ((k : ℕ) → 32 * from ≤ k → k < 16384 → mark self.now.words k ≡ 1) (λ b. (b < 16384) × (mark self.now.words b ≡ 0) × ((k : ℕ) → 32 * from ≤ k → k < b → mark self.now.words k ≡ 1)) }
    {
        let w = self.first_with_zero(from)?;
        // the inverted word's trailing zeros: the rule by which this store picks
        Some(32 * w as u32 + (!self.words[w]).trailing_zeros())
    }

    // How many bits are 1.
    pub(crate) fn ones(&self) -> u32
        ensures value { result ≡ sum_to 16384 (mark self.now.words) }
        ensures most { result ≤ 16384 }
    {
        self.words.iter().map(|word| word.count_ones()).sum()
    }
}
