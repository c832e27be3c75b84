// How many blocks a rebuild takes, counted before anything is altered.
ghost use Rattle.std.specs.Prelude.{◌≡◌, true, false, MatchOption};
ghost use Rattle.forest.specs.Plans.{changes, needed};

use crate::branches::Branch;
use crate::plans::Plan;
use crate::trees::{Stretch, Tree};
use block::BlockStore;

// How many stretches of a branch, of order 1 and above and itself included, hold a cell that the plan changes; none where no cell of it changes.
//
// It takes the branch as its stretch and its word, which pass in registers, and goes part by part: by whole branches and the array of `parts`, the need of a tree took two to twelve times the time.
fn count<S: BlockStore, P: Plan>(store: &S, plan: &P, stretch: Stretch, word: u32) -> Option<u32>
    ensures { MatchOption result (changes (P.Plan.new plan.now) (S.BlockStore.blocks store.now) stretch.order word stretch.at ≡ false) (λ blocks. (changes (P.Plan.new plan.now) (S.BlockStore.blocks store.now) stretch.order word stretch.at ≡ true) × (blocks ≡ needed (P.Plan.new plan.now) (S.BlockStore.blocks store.now) stretch.order word stretch.at)) }
{
    if !plan.touches(stretch) {
        return None;
    }
    if stretch.order == 0 {
        let new = plan.new_word(stretch.at, word);
        return (new != word).then_some(0);
    }
    let mut blocks = None;
    for i in 0..16 {
        let part = Branch { stretch, word }.part(store, i);
        if let Some(of_part) = count(store, plan, part.stretch, part.word) {
            blocks = Some(blocks.unwrap_or(1) + of_part);
        }
    }
    blocks
}

impl Tree {
    // The number of stretches, of order 1 and above, that hold a cell to which the plan gives another word.
    pub fn need<S: BlockStore, P: Plan>(self, store: &S, plan: &P) -> u32
        ensures { result ≡ needed (P.Plan.new plan.now) (S.BlockStore.blocks store.now) self.depth self.top 0 }
    {
        let trunk = self.trunk();
        count(store, plan, trunk.stretch, trunk.word).unwrap_or(0)
    }
}
