// What the benchmark of trees times, over the store with a map of bits. It is called from C.
#![tactic(auto)]

use block::BlockStore;
use map_store::MapStore;
use scattered::Scattered;
use tree::{OneCell, Tree};

// The tree with another word at an index, in place of the old one.
fn put<S: BlockStore>(store: &mut S, tree: Tree, index: u32, word: u32) -> Tree {
    let Ok(Some(new)) = tree.rebuild(store, &OneCell { index, word }) else {
        return tree;
    };
    tree.release(store);
    new
}

// A tree with so many puts at indices without a pattern.
fn planted<S: BlockStore>(store: &mut S, count: u32) -> Tree {
    (Scattered { last: 7 })
        .take(count as usize)
        .fold(Tree { depth: 4, top: 0 }, |tree, x| {
            put(store, tree, x >> 16, x | 1)
        })
}

// Plants a tree, and reads so many of its cells; the answer is the sum of their words.
#[unsafe(no_mangle)]
pub extern "C" fn tree_look_ups(
    words: &mut [u32],
    cells: &mut [u16],
    planted_cells: u32,
    count: u32,
) -> u32 {
    let mut store = MapStore::new(words, cells);
    let tree = planted(&mut store, planted_cells);
    (Scattered { last: 1 }).take(count as usize).fold(
        0u32,
        |sum, x| sum.wrapping_add(tree.word_at(&store, x >> 16)),
    )
}

// Rebuilds a tree so many times, one cell at a time; the answer is how many blocks are left.
#[unsafe(no_mangle)]
pub extern "C" fn tree_rebuilds(words: &mut [u32], cells: &mut [u16], count: u32) -> u32 {
    let mut store = MapStore::new(words, cells);
    let _tree = planted(&mut store, count);
    store.left()
}
