// Branches: a tree and the parts into which it falls.
ghost use Rattle.std.specs.Prelude.{◌≡◌, ℕ, ◌<◌, ◌≤◌, ◌≢◌, MatchOption, slice_index_or};
ghost use Rattle.tree.specs.declared.branches.Branch.{Branch};
ghost use Rattle.tree.specs.Branches.{IsPart};

use crate::trees::{Stretch, Tree};
use block::BlockStore;
use std::array;

// A stretch of a tree, with its word in the blocks of a store.
#[derive(Clone, Copy, Debug, PartialEq, Eq)]
pub struct Branch {
    pub stretch: Stretch,
    pub word: u32,
}

impl Branch {
    // Part i of the sixteen.
    pub(crate) fn part<S: BlockStore>(self, store: &S, i: u32) -> Branch
        requires parted { self.stretch.order ≢ 0 }
        requires sixteen { i < 16 }
        ensures { IsPart (S.BlockStore.blocks store.now) self i result }
    {
        Branch {
            stretch: Stretch {
                order: self.stretch.order - 1,
                at: self.stretch.at * 16 + i,
            },
            word: node::child_of(store, self.word, i),
        }
    }

    // Part i of the sixteen, or none where the branch is a cell or has no such part.
    pub fn part_at<S: BlockStore>(self, store: &S, i: u32) -> Option<Branch>
        ensures { MatchOption result (self.stretch.order ≢ 0 → 16 ≤ i) (λ part. (self.stretch.order ≢ 0) × (i < 16) × IsPart (S.BlockStore.blocks store.now) self i part) }
    {
        if self.stretch.order == 0 || i > 15 {
            return None;
        }
        Some(self.part(store, i))
    }

    // The sixteen branches of which this one consists, or none where it is a cell.
    pub fn parts<S: BlockStore>(self, store: &S) -> Option<[Branch; 16]>
        ensures { MatchOption result (self.stretch.order ≡ 0) (λ parts. (self.stretch.order ≢ 0) × ((i : ℕ) (d : Branch) → i < 16 → IsPart (S.BlockStore.blocks store.now) self i (slice_index_or parts i d))) }
    {
        if self.stretch.order == 0 {
            return None;
        }
        Some(array::from_fn(|i| self.part(store, i as u32)))
    }
}

impl Tree {
    // The whole tree as one branch.
    pub fn trunk(self) -> Branch
        ensures order { result.stretch.order ≡ self.depth }
        ensures at { result.stretch.at ≡ 0 }
        ensures word { result.word ≡ self.top }
    {
        Branch {
            stretch: Stretch {
                order: self.depth,
                at: 0,
            },
            word: self.top,
        }
    }
}
