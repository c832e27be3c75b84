// The store's parts, and what always holds of them.
ghost use Rattle.std.specs.Prelude.{◌≡◌, ℕ, ◌*◌, ◌<◌};
ghost use Rattle.block_slab.specs.Held.{held};
ghost use Rattle.marks.specs.Map.{Marks, mark};

use crate::bit_map::BitMap;
use block_slab::Slab;

#[derive(Drop)]
pub struct MapStore<'a> {
    // the memory that was lent
    pub(crate) slab: Slab<'a>,
    // the bit of a number is 0 where the number is free
    pub(crate) map: BitMap,
    // no number in a word of the map before this one is free
    pub(crate) first: usize,
    ghost marks: { Marks map.words (held slab) },
    ghost full: { (k : ℕ) → k < 32 * first → k < 16384 → mark map.words k ≡ 1 },
}
