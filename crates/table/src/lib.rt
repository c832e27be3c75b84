// The table of snapshots: for each of 64 numbers the root block and the parent, and the order in which the live ones were made.
#![tactic(auto)]

mod orders;
mod records;
mod tables;

pub use records::Snapshot;
pub use tables::Table;
