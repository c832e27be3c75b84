// The store's parts, and what always holds of them.
ghost use Rattle.std.specs.Prelude.{◌≡◌, ◌<◌, length};
ghost use Rattle.layout.specs.Layout.{Fits, laid};

#[derive(Drop)]
pub struct RingStore {
    // sixteen words for each block
    pub(crate) words: [u32; 2048],
    // how many hold each block
    pub(crate) cells: [u16; 128],
    // the number that was taken last
    pub(crate) last: u32,
    ghost full: { length words ≡ 2048 },
    ghost all: { length cells ≡ 128 },
    ghost near: { last < 128 },
    // as in a slab, which this store lends its arrays to for the length of a call
    ghost fits: { Fits (laid words cells) },
}
