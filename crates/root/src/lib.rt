// Sheets: the ten trees of a snapshot, and the root block that has their words.
#![tactic(auto)]

mod layers;
mod parts;
mod roots;

pub use layers::Layer;
pub use parts::Part;
pub use roots::Root;
