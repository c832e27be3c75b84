// Strips: the cells of a frisket, the mask that protects dots from edits.
ghost use Rattle.std.specs.Prelude.{◌≡◌, refl, ℕ};
ghost use Rattle.kinds.specs.Packings.{three_low};

use tree::CellKind;

// 32 dots of a row, the leftmost highest: a bit that is set protects its dot.
#[derive(Clone, Copy, Debug, PartialEq, Eq)]
pub struct Strip {
    pub bits: u32,
}

// The kind of strips: a strip packs into its bits.
#[derive(Clone, Copy, Debug, PartialEq, Eq)]
pub struct Strips;

impl CellKind for Strips {
    type Cell = Strip;

    ghost depth = { 3 };

    ghost shallow = { three_low };

    ghost Value = { ℕ };

    ghost value = { λ s. s.bits };

    ghost blank = { 0 };

    ghost packed = { λ bits. bits };

    ghost unpacked = { λ word. word };

    ghost Fits = { λ _. Unit {0} };

    ghost bare = { refl };

    ghost back = { λ v _. refl };

    fn depth() -> u8 {
        3
    }

    fn blank() -> Strip {
        Strip { bits: 0 }
    }

    fn pack(cell: Strip) -> u32 {
        cell.bits
    }

    fn unpack(word: u32) -> Strip {
        Strip { bits: word }
    }
}
