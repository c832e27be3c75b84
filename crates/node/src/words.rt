// The words of a block.
ghost use Rattle.std.specs.Prelude.{◌≡◌};
ghost use Rattle.forest.specs.Trees.{child, words};

use block::BlockStore;
use std::array;

// The word of stretch i of the sixteen in the stretch that has this word.
pub fn child_of<S: BlockStore>(store: &S, word: u32, i: u32) -> u32
    ensures { result ≡ child (S.BlockStore.blocks store.now) word i }
{
    let Some(b) = word.checked_sub(1) else {
        return 0;
    };
    store.get(b, i).unwrap_or(0)
}

// The words of all sixteen.
pub fn words_of<S: BlockStore>(store: &S, word: u32) -> [u32; 16]
    ensures { result ≡ words (S.BlockStore.blocks store.now) word }
{
    array::from_fn(|i| child_of(store, word, i as u32))
}
