// A block store on lent memory that takes the lowest free number, found in a map of bits.
#![tactic(auto)]

mod bit_map;
mod store;
mod store_calls;

pub use store::MapStore;
