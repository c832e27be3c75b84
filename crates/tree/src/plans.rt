// What a rebuild is to do.
ghost use Rattle.std.specs.Prelude.{◌≡◌, ℕ, false};
ghost use Rattle.forest.specs.Plans.{Quiet, one_cell};

use crate::trees::Stretch;

// A plan: the new word of each cell, and which stretches certainly stay as they are.
pub trait Plan {
    // the new word of the cell at an index, from its old one
    ghost new: { Self → ℕ → ℕ → ℕ };

    fn new_word(&self, index: u32, old: u32) -> u32
        ensures { result ≡ new self.now index old };

    // Whether a cell of the stretch may change: where it answers no, none does, whatever the cells are.
    fn touches(&self, stretch: Stretch) -> bool
        ensures { result ≡ false → Quiet (new self.now) stretch.order stretch.at };
}

// The plan that gives one cell another word.
#[derive(Clone, Copy, Debug, PartialEq, Eq)]
pub struct OneCell {
    pub index: u32,
    pub word: u32,
}

impl Plan for OneCell {
    ghost new = { λ p. one_cell p.index p.word };

    fn new_word(&self, index: u32, old: u32) -> u32 {
        if index == self.index { self.word } else { old }
    }

    fn touches(&self, stretch: Stretch) -> bool {
        self.index >> (4 * u32::from(stretch.order)) == stretch.at
    }
}
