// Walks.
ghost use Rattle.std.specs.Prelude.{◌≡◌, ◌*◌, ◌^◌};
ghost use Rattle.forest.specs.Trees.{lookup};
ghost use Rattle.walk.specs.Walks.{over, visit};

use crate::regions::Region;
use crate::visitors::Visitor;
use block::BlockStore;
use tree::{Branch, Stretch, Tree};

// It takes the branch as its stretch and its word, which pass in registers, and goes part by part: by whole branches and the array of `parts`, a walk took two to six times the time.
fn walk_branch<S: BlockStore, R: Region, V: Visitor>(
    store: &S,
    region: &R,
    visitor: &mut V,
    stretch: Stretch,
    word: u32,
)
    ensures { visitor.new ≡ over (visit (R.Region.has region.now) V.Visitor.step (lookup (S.BlockStore.blocks store.now) stretch.order word)) (stretch.at * 16 ^ stretch.order) (16 ^ stretch.order) visitor.old }
{
    if word == 0 {
        return;
    }
    if !region.meets(stretch) {
        return;
    }
    if stretch.order == 0 {
        if region.has(stretch.at) {
            visitor.visit(stretch.at, word);
        }
        return;
    }
    for i in 0..16 {
        if let Some(part) = (Branch { stretch, word }).part_at(store, i) {
            walk_branch(store, region, visitor, part.stretch, part.word);
        }
    }
}

// Shows the visitor every cell of the tree that is in the region, in the order of their indices; blank stretches are not touched.
pub fn walk<S: BlockStore, R: Region, V: Visitor>(
    store: &S,
    tree: Tree,
    region: &R,
    visitor: &mut V,
)
    ensures { visitor.new ≡ over (visit (R.Region.has region.now) V.Visitor.step (lookup (S.BlockStore.blocks store.now) tree.depth tree.top)) 0 (16 ^ tree.depth) visitor.old }
{
    let trunk = tree.trunk();
    walk_branch(store, region, visitor, trunk.stretch, trunk.word)
}
