// A block store that carries 128 blocks inside itself and goes round upward from the number that it took last.
#![tactic(auto)]

mod store;
mod store_calls;

pub use store::RingStore;
