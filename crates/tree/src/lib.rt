// Trees of cells: one text for every store of blocks and every kind of cell.
#![tactic(auto)]

mod branches;
mod builds;
mod cells;
mod needs;
mod plans;
mod reads;
mod releases;
mod trees;

pub use branches::Branch;
pub use cells::CellKind;
pub use plans::{OneCell, Plan};
pub use trees::{Stretch, Tree};
