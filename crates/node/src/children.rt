// The children that a block is filled with, and what filling and letting go does at each.
ghost use Rattle.std.specs.Prelude.{◌≡◌, ℕ, suc, ◌<◌, ◌≢◌, true, false, if◌then◌else◌, MatchOption};
ghost use Rattle.forest.specs.Balance.{hold};
ghost use Rattle.forest.specs.Trees.{let_go};
ghost use Rattle.forest.specs.Fills.{Cramped, Holdable, held};
ghost use Rattle.node.specs.Children.{is_fresh, word_of};

use crate::releases::let_go;
use block::BlockStore;

// A stretch that a block leads to, by its word.
#[derive(Clone, Copy, Debug, PartialEq, Eq)]
pub enum Child {
    // one that others hold already: the block is one holder more
    Kept(u32),
    // a new one: its one holder, so far its maker, is now the block
    Fresh(u32),
}

impl Child {
    pub(crate) fn word(self) -> u32
        ensures { result ≡ word_of self }
    {
        match self {
            Child::Kept(word) | Child::Fresh(word) => word,
        }
    }

    // Whether the child is a new stretch.
    pub(crate) fn is_fresh(self) -> bool
        ensures { result ≡ is_fresh self }
    {
        matches!(self, Child::Fresh(_))
    }

    // The block that gets one more holder: none where the child is fresh, a cell, or blank.
    fn kept_block(self, order: u8) -> Option<u32>
        ensures { MatchOption result (is_fresh self ≡ false → (c : ℕ) → hold order (word_of self) c ≡ 0) (λ b. (is_fresh self ≡ false) × (order ≢ 0) × (word_of self ≡ suc b)) }
    {
        match self {
            Child::Kept(word) if order > 0 => word.checked_sub(1),
            _ => None,
        }
    }

    // Whether what the child leads to can take sixteen holders more, or needs none.
    pub(crate) fn has_room<S: BlockStore>(self, store: &S, order: u8) -> bool
        ensures room { result ≡ true → Holdable order (word_of self) (is_fresh self) (S.BlockStore.blocks store.now) 65520 }
        ensures none { result ≡ false → Cramped order (word_of self) (S.BlockStore.blocks store.now) }
    {
        self.kept_block(order)
            .is_none_or(|b| store.holders(b).is_ok_and(|holders| holders < 65520))
    }

    // One more holder for what the child leads to, unless it is fresh.
    pub(crate) fn hold<S: BlockStore>(self, store: &mut S, order: u8)
        ensures { Holdable order (word_of self) (is_fresh self) (S.BlockStore.blocks store.old) 65535 → S.BlockStore.blocks store.new ≡ (if is_fresh self then S.BlockStore.blocks store.old else held order (word_of self) (S.BlockStore.blocks store.old)) }
    {
        if let Some(b) = self.kept_block(order) {
            let _ = store.keep(b);
        }
    }

    // Lets the child go where it is fresh.
    pub(crate) fn drop_fresh<S: BlockStore>(self, store: &mut S, order: u8)
        ensures { S.BlockStore.blocks store.new ≡ (if is_fresh self then let_go order (S.BlockStore.blocks store.old) (word_of self) else S.BlockStore.blocks store.old) }
    {
        if let Child::Fresh(word) = self {
            let_go(store, order, word);
        }
    }
}
