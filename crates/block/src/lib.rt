// What a block store is: its calls, its refusals and what they mean, and nothing of how a store is kept.
#![tactic(auto)]

mod laws;
mod lent;
mod refusals;
mod stores;

pub use laws::meaning_stands;
pub use refusals::Refusal;
pub use stores::BlockStore;
