// Dots: the cells of a layer.
ghost use Rattle.std.specs.Prelude.{◌≡◌, refl};
ghost use Rattle.rules.specs.Cells.{dot_word};
ghost use Rattle.rules.specs.Dots as dots;
ghost use Rattle.ink.specs.Meanings.{dot_of};
ghost use Rattle.kinds.specs.Kinds.{word_cell};
ghost use Rattle.kinds.specs.Packings.{dot_back, four_low};

use ink::{Channels, Dot};
use tree::CellKind;

// The kind of dots: a dot packs into a byte a channel, red highest, alpha lowest.
#[derive(Clone, Copy, Debug, PartialEq, Eq)]
pub struct Dots;

impl CellKind for Dots {
    type Cell = Dot;

    ghost depth = { 4 };

    ghost shallow = { four_low };

    ghost Value = { dots.Dot };

    ghost value = { dot_of };

    ghost blank = { dots.blank };

    ghost packed = { dot_word };

    ghost unpacked = { word_cell };

    ghost Fits = { dots.Sound };

    ghost bare = { refl };

    ghost back = { dot_back };

    fn depth() -> u8 {
        4
    }

    fn blank() -> Dot {
        Dot::blank()
    }

    fn pack(cell: Dot) -> u32 {
        let Channels {
            red,
            green,
            blue,
            alpha,
        } = Channels::from(cell);
        u32::from_be_bytes([red, green, blue, alpha])
    }

    // A word that is no dot's, with a colour above alpha, reads as blank.
    fn unpack(word: u32) -> Dot {
        let [red, green, blue, alpha] = word.to_be_bytes();
        let channels = Channels {
            red,
            green,
            blue,
            alpha,
        };
        Dot::try_from(channels).unwrap_or(Dot::blank())
    }
}
