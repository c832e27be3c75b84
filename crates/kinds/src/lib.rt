// The kinds of cells that the trees of a sheet have.
#![tactic(auto)]

mod dots;
mod records;
mod strips;

pub use dots::Dots;
pub use records::LayerRecords;
pub use strips::{Strip, Strips};
