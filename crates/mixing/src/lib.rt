// What requests to mix inks come to.
#![tactic(auto)]

mod answers;
mod fault;

pub use answers::{answer_line, fade, lay};
pub use fault::Fault;
