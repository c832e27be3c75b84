// Rebuilding: a new tree by a plan, which shares with the old one every stretch in which nothing changes.
ghost use Rattle.std.specs.Prelude.{◌≡◌, true, false, MatchOption, MatchResult};
ghost use Rattle.forest.specs.Frames.{Live};
ghost use Rattle.forest.specs.Rebuilds.{Counted, Done, Undone, Why};
ghost use Rattle.forest.specs.Promises.{Rebuilt, Refused};
ghost use Rattle.node.specs.Children.{is_fresh, word_of};

use crate::branches::Branch;
use crate::plans::Plan;
use crate::trees::{Stretch, Tree};
use block::{BlockStore, Refusal};
use node::Child;

// A branch with each cell's new word. Where none changes it is the old one; what was begun is let go again on a refusal.
//
// It takes the branch as its stretch and its word, which pass in registers: by whole branches the edit of a record took a fifth more time.
fn build<S: BlockStore, P: Plan>(
    store: &mut S,
    plan: &P,
    stretch: Stretch,
    word: u32,
) -> Result<Child, Refusal>
    ensures { MatchResult result (λ x. (Live (S.BlockStore.blocks store.old) stretch.order word → Done (P.Plan.new plan.now) (S.BlockStore.blocks store.old) (S.BlockStore.blocks store.new) stretch.order word stretch.at (word_of x) (is_fresh x) × Counted (P.Plan.new plan.now) (S.BlockStore.blocks store.old) (S.BlockStore.blocks store.new) stretch.order word stretch.at (word_of x) (is_fresh x))) (λ e. (Live (S.BlockStore.blocks store.old) stretch.order word → Undone (S.BlockStore.blocks store.old) (S.BlockStore.blocks store.new) stretch.order word stretch.at × Why e (P.Plan.new plan.now) (S.BlockStore.blocks store.old) stretch.order word stretch.at)) }
{
    if !plan.touches(stretch) {
        return Ok(Child::Kept(word));
    }
    if stretch.order == 0 {
        let new = plan.new_word(stretch.at, word);
        return Ok(if new == word {
            Child::Kept(new)
        } else {
            Child::Fresh(new)
        });
    }
    let order = stretch.order - 1;
    let mut children = [Child::Kept(0); 16];
    // part by part: over the array that `parts` gives, a rebuild takes 1.7 to 1.9 times the time of the same algorithm in C, and may take 1.5
    for (i, child) in children.iter_mut().enumerate() {
        let part = Branch { stretch, word }.part(store, i as u32);
        match build(store, plan, part.stretch, part.word) {
            Ok(built) => *child = built,
            Err(e) => {
                node::drop_fresh(store, order, &children);
                return Err(e);
            }
        }
    }
    if !node::any_fresh(&children) {
        return Ok(Child::Kept(word));
    }
    // no `inspect_err`: nothing is told of a store that its closure alters
    match node::fill(store, order, &children) {
        Ok(new) => Ok(Child::Fresh(new)),
        Err(e) => {
            node::drop_fresh(store, order, &children);
            Err(e)
        }
    }
}

impl Tree {
    // The tree that the plan makes of this one: a new one, which its caller alone holds, or none where no cell changes.
    // Where the blocks do not suffice it is refused, and the store is as it was.
    pub fn rebuild<S: BlockStore, P: Plan>(
        self,
        store: &mut S,
        plan: &P,
    ) -> Result<Option<Tree>, Refusal>
        ensures { MatchResult result (λ new. MatchOption new (Live (S.BlockStore.blocks store.old) self.depth self.top → Rebuilt (P.Plan.new plan.now) (S.BlockStore.blocks store.old) (S.BlockStore.blocks store.new) self.depth self.top self.top false) (λ t. (t.depth ≡ self.depth) × (Live (S.BlockStore.blocks store.old) self.depth self.top → Rebuilt (P.Plan.new plan.now) (S.BlockStore.blocks store.old) (S.BlockStore.blocks store.new) self.depth self.top t.top true))) (λ e. (Live (S.BlockStore.blocks store.old) self.depth self.top → Refused (P.Plan.new plan.now) (S.BlockStore.blocks store.old) (S.BlockStore.blocks store.new) self.depth self.top e)) }
    {
        let trunk = self.trunk();
        match build(store, plan, trunk.stretch, trunk.word)? {
            Child::Kept(_) => Ok(None),
            Child::Fresh(top) => Ok(Some(Tree {
                depth: self.depth,
                top,
            })),
        }
    }
}
