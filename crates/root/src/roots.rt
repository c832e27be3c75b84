// Root blocks: each snapshot has one, with the words of its ten trees.
ghost use Rattle.std.specs.Prelude.{◌≡◌, ℕ, ◌-◌, ◌<◌, true, false, MatchOption, MatchResult};
ghost use Rattle.block.specs.Calls.{Picked, Spent};
ghost use Rattle.forest.specs.Trees.{child};
ghost use Rattle.forest.specs.Fills.{Blocked, Filled};
ghost use Rattle.count.specs.Steps.{put};
ghost use Rattle.rules.specs.Cells.{depth};
ghost use Rattle.root.specs.Parts.{slot};
ghost use Rattle.root.specs.Sheets.{Rooted, all_gone};
ghost use Rattle.root.specs.Edits.{Made, Same, Short};

use crate::parts::Part;
use block::{BlockStore, Refusal};
use node::Child;
use std::array;
use tree::{Plan, Tree};

// A snapshot, by the word that leads to its root block: 1 plus the block's number, or 0 for none.
#[derive(Clone, Copy, Debug, PartialEq, Eq)]
pub struct Root {
    pub word: u32,
}

impl Root {
    // The root block of a blank sheet.
    pub fn blank<S: BlockStore>(store: &mut S) -> Result<Root, Refusal>
        ensures { MatchResult result (λ root. (0 < root.word) × Picked (S.BlockStore.blocks store.old) (root.word - 1) (S.BlockStore.blocks store.new)) (λ e. Spent (S.BlockStore.blocks store.old) e (S.BlockStore.blocks store.new)) }
    {
        let b = store.take()?;
        Ok(Root { word: b + 1 })
    }

    // One of its trees.
    pub fn tree<S: BlockStore>(self, store: &S, part: Part) -> Tree
        ensures depth { result.depth ≡ depth (slot part) }
        ensures top { result.top ≡ child (S.BlockStore.blocks store.now) self.word (slot part) }
    {
        Tree {
            depth: part.depth(),
            top: node::child_of(store, self.word, part.slot()),
        }
    }

    // A root block with the trees of this one, but for a new one that its caller holds and passes on.
    fn with<S: BlockStore>(self, store: &mut S, part: Part, new: Tree) -> Result<Root, Refusal>
        ensures { MatchResult result (λ root. (0 < root.word) × Filled (S.BlockStore.blocks store.old) (S.BlockStore.blocks store.new) 1 (root.word - 1) (put (slot part) new.top (child (S.BlockStore.blocks store.old) self.word)) (put (slot part) true (λ _. false))) (λ e. (S.BlockStore.blocks store.new ≡ S.BlockStore.blocks store.old) × Blocked e 1 (put (slot part) new.top (child (S.BlockStore.blocks store.old) self.word)) (S.BlockStore.blocks store.old)) }
    {
        let mut children = array::from_fn(|i| Child::Kept(node::child_of(
            store, self.word, i as u32,
        )));
        children[part.slot() as usize] = Child::Fresh(new.top);
        let word = node::fill(store, 1, &children)?;
        Ok(Root { word })
    }

    // The root of a new snapshot, which has the trees of this one but for one that a plan rebuilds; none where the plan changes no cell.
    // Where the blocks do not suffice it is refused, and the store is as it was.
    pub fn edit<S: BlockStore, P: Plan>(
        self,
        store: &mut S,
        part: Part,
        plan: &P,
    ) -> Result<Option<Root>, Refusal>
        ensures { MatchResult result (λ new. MatchOption new (Rooted (S.BlockStore.blocks store.old) self.word → Same (P.Plan.new plan.now) (S.BlockStore.blocks store.old) (S.BlockStore.blocks store.new) (slot part) self.word) (λ root. (Rooted (S.BlockStore.blocks store.old) self.word → Made (P.Plan.new plan.now) (S.BlockStore.blocks store.old) (S.BlockStore.blocks store.new) (slot part) self.word root.word))) (λ e. (Rooted (S.BlockStore.blocks store.old) self.word → Short (P.Plan.new plan.now) (S.BlockStore.blocks store.old) (S.BlockStore.blocks store.new) (slot part) self.word e)) }
    {
        let Some(new) = self.tree(store, part).rebuild(store, plan)? else {
            return Ok(None);
        };
        // no `inspect_err`: nothing is told of a store that its closure alters
        match self.with(store, part, new) {
            Ok(root) => Ok(Some(root)),
            Err(e) => {
                new.release(store);
                Err(e)
            }
        }
    }

    // Lets the snapshot go: its root block first, and then each of its trees.
    pub fn release<S: BlockStore>(self, store: &mut S)
        ensures { S.BlockStore.blocks store.new ≡ all_gone (S.BlockStore.blocks store.old) self.word }
    {
        let Some(b) = self.word.checked_sub(1) else {
            return;
        };
        let tops = node::words_of(store, self.word);
        let _ = store.release(b);
        for part in Part::all() {
            Tree {
                depth: part.depth(),
                top: tops[part.slot() as usize],
            }
            .release(store);
        }
    }
}
