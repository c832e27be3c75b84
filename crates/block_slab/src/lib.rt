// Blocks that lie side by side in two slices: sixteen words to a block, and one cell for its number of holders.
//
// A store on such memory differs from another only in the free number that it picks. All else is here, once.
#![tactic(auto)]

mod changes;
mod memory;
mod reads;
mod views;

pub use memory::Slab;
pub use views::SlabView;
