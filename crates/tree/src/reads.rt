// Reading trees: it alters nothing, and answers for any word at all.
ghost use Rattle.std.specs.Prelude.{◌≡◌};
ghost use Rattle.forest.specs.Trees.{lookup};

use crate::cells::CellKind;
use crate::trees::Tree;
use block::BlockStore;

impl Tree {
    // The word of the cell at an index, counted round past the last.
    pub fn word_at<S: BlockStore>(self, store: &S, index: u32) -> u32
        ensures { result ≡ lookup (S.BlockStore.blocks store.now) self.depth self.top index }
    {
        let mut word = self.top;
        for order in (0..self.depth).rev() {
            word = node::child_of(store, word, (index >> (4 * u32::from(order))) % 16);
        }
        word
    }

    // The cell at an index.
    pub fn read<S: BlockStore, K: CellKind>(self, store: &S, index: u32) -> K::Cell
        ensures { K.CellKind.value result ≡ K.CellKind.unpacked (lookup (S.BlockStore.blocks store.now) self.depth self.top index) }
    {
        K::unpack(self.word_at(store, index))
    }
}
