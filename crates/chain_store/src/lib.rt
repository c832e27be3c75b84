// A block store on lent memory that takes the block freed last, by a chain through the free blocks' own words.
#![tactic(auto)]

mod store;
mod store_calls;

pub use store::ChainStore;
