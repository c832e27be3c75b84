// Filling a block with sixteen words.
ghost use Rattle.std.specs.Prelude.{◌≡◌, ℕ, ◌-◌, ◌<◌, true, false, MatchResult};
ghost use Rattle.forest.specs.Fills.{Blocked, Cramped, Filled, Room};
ghost use Rattle.forest.specs.Plans.{any_to};
ghost use Rattle.node.specs.Children.{fresh_at, word_at};

use crate::children::Child;
use block::{BlockStore, Refusal};

fn have_room<S: BlockStore>(store: &S, order: u8, children: &[Child; 16]) -> bool
    ensures room { result ≡ true → Room order (word_at children.now) (fresh_at children.now) (S.BlockStore.blocks store.now) 16 }
    ensures none { result ≡ false → ((j : ℕ) × (j < 16) × Cramped order (word_at children.now j) (S.BlockStore.blocks store.now)) }
{
    children.iter().all(|child| child.has_room(store, order))
}

// Whether any of sixteen children is new.
pub fn any_fresh(children: &[Child; 16]) -> bool
    ensures { result ≡ any_to 16 (fresh_at children.now) }
{
    children.iter().any(|child| child.is_fresh())
}

// Takes a block for sixteen children of an order. Each that is kept gets one more holder; a fresh one's holder is now the block.
pub fn fill<S: BlockStore>(store: &mut S, order: u8, children: &[Child; 16]) -> Result<u32, Refusal>
    ensures { MatchResult result (λ p. (0 < p) × Filled (S.BlockStore.blocks store.old) (S.BlockStore.blocks store.new) order (p - 1) (word_at children.now) (fresh_at children.now)) (λ e. (S.BlockStore.blocks store.new ≡ S.BlockStore.blocks store.old) × Blocked e order (word_at children.now) (S.BlockStore.blocks store.old)) }
{
    if !have_room(store, order, children) {
        return Err(Refusal::TooMany);
    }
    let b = store.take()?;
    for (i, child) in children.iter().enumerate() {
        child.hold(store, order);
        let _ = store.put(b, i as u32, child.word());
    }
    Ok(b + 1)
}
