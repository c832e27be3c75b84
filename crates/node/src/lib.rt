// One block as a node of a tree: its sixteen words read, filled in, and let go.
#![tactic(auto)]

mod children;
mod fills;
mod releases;
mod words;

pub use children::Child;
pub use fills::{any_fresh, fill};
pub use releases::{drop_fresh, let_go};
pub use words::{child_of, words_of};
