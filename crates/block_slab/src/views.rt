// The memory of blocks, lent to be read.
#[derive(Clone, Copy, Debug, PartialEq, Eq)]
pub struct SlabView<'a> {
    // words 16b to 16b + 15 are block b's
    pub words: &'a [u32],
    // cell b has the number of block b's holders: 0 where it is free
    pub cells: &'a [u16],
}
