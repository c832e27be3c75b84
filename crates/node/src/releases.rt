// Letting stretches go.
ghost use Rattle.std.specs.Prelude.{◌≡◌, ◌==◌};
ghost use Rattle.forest.specs.Trees.{let_go};
ghost use Rattle.forest.specs.Rebuilds.{Dropped};
ghost use Rattle.node.specs.Children.{fresh_at, word_at};

use crate::children::Child;
use crate::words::words_of;
use block::BlockStore;

fn held_once<S: BlockStore>(store: &S, b: u32) -> bool
    ensures { result ≡ ((S.BlockStore.blocks store.now).holders b == 1) }
{
    store.holders(b) == Ok(1)
}

// Takes one holder away from a stretch, and from the stretches in it where that was its last.
pub fn let_go<S: BlockStore>(store: &mut S, order: u8, word: u32)
    ensures { S.BlockStore.blocks store.new ≡ let_go order (S.BlockStore.blocks store.old) word }
{
    let (Some(below), Some(b)) = (order.checked_sub(1), word.checked_sub(1)) else {
        return;
    };
    if below > 0 && held_once(store, b) {
        // the words are gone with the block
        let children = words_of(store, word);
        let _ = store.release(b);
        for child in children {
            let_go(store, below, child);
        }
    } else {
        let _ = store.release(b);
    }
}

// Lets the fresh ones of sixteen children go.
pub fn drop_fresh<S: BlockStore>(store: &mut S, order: u8, children: &[Child; 16])
    ensures { Dropped order (word_at children.now) (fresh_at children.now) (S.BlockStore.blocks store.old) (S.BlockStore.blocks store.new) }
{
    for child in children {
        child.drop_fresh(store, order);
    }
}
