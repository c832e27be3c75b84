// Walking over the cells of a tree that lie in a region, without touching what is blank.
#![tactic(auto)]

mod regions;
mod visitors;
mod walks;

pub use regions::Region;
pub use visitors::Visitor;
pub use walks::walk;
