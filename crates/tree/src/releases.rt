// Letting trees go.
ghost use Rattle.std.specs.Prelude.{◌≡◌};
ghost use Rattle.forest.specs.Trees.{let_go};
ghost use Rattle.forest.specs.Promises.{Released};

use crate::trees::Tree;
use block::BlockStore;

impl Tree {
    // Lets the tree go: whoever held it holds it no more.
    pub fn release<S: BlockStore>(self, store: &mut S)
        ensures after { S.BlockStore.blocks store.new ≡ let_go self.depth (S.BlockStore.blocks store.old) self.top }
        ensures stays { Released (S.BlockStore.blocks store.old) (S.BlockStore.blocks store.new) self.depth self.top }
    {
        node::let_go(store, self.depth, self.top)
    }
}
