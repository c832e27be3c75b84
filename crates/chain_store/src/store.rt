// The store's parts, and what always holds of them.
ghost use Rattle.block_slab.specs.Held.{held};
ghost use Rattle.links.specs.Chain.{Threads, chain};

use block_slab::Slab;

#[derive(Drop)]
pub struct ChainStore<'a> {
    // the memory that was lent: the first word of a free block is the number of the next free block
    pub(crate) slab: Slab<'a>,
    // the number that was freed last, where any is free
    pub(crate) top: u32,
    // how many numbers are free
    pub(crate) free: u32,
    ghost threads: { Threads (chain slab.words.now top free) (held slab) },
}
