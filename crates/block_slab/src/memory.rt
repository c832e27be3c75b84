// The memory of a store, lent for as long as the store works on it.
ghost use Rattle.std.specs.Prelude.{◌≡◌};
ghost use Rattle.layout.specs.Layout.{Fits, laid};

use crate::views::SlabView;

#[derive(Drop)]
pub struct Slab<'a> {
    // words 16b to 16b + 15 are block b's
    pub words: &'a mut [u32],
    // cell b has the number of block b's holders: 0 where it is free
    pub cells: &'a mut [u16],
    // holders fit their cells, and words theirs
    ghost fits: { Fits (laid words.now cells.now) },
}

impl<'a> Slab<'a> {
    // The blocks that two slices have room for, as they stand.
    pub fn new(words: &'a mut [u32], cells: &'a mut [u16]) -> Slab<'a>
        ensures words { result.words.now ≡ words.old }
        ensures cells { result.cells.now ≡ cells.old }
        ensures words_name { result.words.ghost_name ≡ words.entry.ghost_name }
        ensures cells_name { result.cells.ghost_name ≡ cells.entry.ghost_name }
    {
        Slab { words, cells }
    }

    // The same memory, to be read.
    pub fn view(&self) -> SlabView<'_>
        ensures words { result.words.now ≡ self.now.words.now }
        ensures cells { result.cells.now ≡ self.now.cells.now }
    {
        SlabView {
            words: self.words,
            cells: self.cells,
        }
    }
}
