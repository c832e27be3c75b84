// Trees and their stretches.
ghost use Rattle.std.specs.Prelude.{◌≡◌, ◌-◌, ◌^◌, ◌<◌, ◌≤◌};

use crate::cells::CellKind;

// A tree in a store, by the word of its highest stretch. Its cells stand at the indices below 16 ^ depth.
//
// The word of a stretch of order 0 is its cell's own. Of a higher order it is 0 where nothing was ever put,
// or else 1 plus the number of the block that has the words of the sixteen stretches in it.
#[derive(Clone, Copy, Debug, PartialEq, Eq)]
pub struct Tree {
    pub depth: u8,
    pub top: u32,
    ghost shallow: { depth ≤ 4 },
}

// A stretch of order k: all cells whose indices have the same quotient by 16 ^ k. At order 0 it is one cell.
#[derive(Clone, Copy, Debug, PartialEq, Eq)]
pub struct Stretch {
    pub order: u8,
    // that quotient
    pub at: u32,
    ghost shallow: { order ≤ 4 },
    ghost within: { at < 16 ^ (4 - order) },
}

impl Tree {
    // The tree of cells of a kind under a word.
    pub fn of<K: CellKind>(top: u32) -> Tree
        ensures depth { result.depth ≡ K.CellKind.depth }
        ensures top { result.top ≡ top }
    {
        Tree {
            depth: K::depth(),
            top,
        }
    }
}
