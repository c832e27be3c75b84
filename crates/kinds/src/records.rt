// Layer records: which layers a sheet has.
ghost use Rattle.std.specs.Prelude.{◌≡◌, refl, ℕ, Option, None};
ghost use Rattle.rules.specs.Cells.{record_word};
ghost use Rattle.kinds.specs.Kinds.{Byte, word_record};
ghost use Rattle.kinds.specs.Packings.{one_low, record_back};

use tree::CellKind;

// The kind of layer records. A record is the opacity of a layer, or none where there is no such layer; one packs into 256 and its opacity.
#[derive(Clone, Copy, Debug, PartialEq, Eq)]
pub struct LayerRecords;

impl CellKind for LayerRecords {
    type Cell = Option<u8>;

    ghost depth = { 1 };

    ghost shallow = { one_low };

    ghost Value = { Option ℕ };

    ghost value = { λ r. r };

    ghost blank = { None };

    ghost packed = { record_word };

    ghost unpacked = { word_record };

    ghost Fits = { Byte };

    ghost bare = { refl };

    ghost back = { record_back };

    fn depth() -> u8 {
        1
    }

    fn blank() -> Option<u8> {
        None
    }

    fn pack(cell: Option<u8>) -> u32 {
        cell.map_or(0, |opacity| 256 + u32::from(opacity))
    }

    // A word that is no record's reads as the record of its lowest byte, or as none below 256.
    fn unpack(word: u32) -> Option<u8> {
        if word < 256 {
            None
        } else {
            Some((word % 256) as u8)
        }
    }
}
