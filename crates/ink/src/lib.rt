// Inks: dots, the rules by which ink is laid on them, opacity and paper, and the pens that edits are made with.
#![tactic(auto)]

mod channel;
mod dot;
mod pen;
mod refusal;
mod rows;
mod rule;

pub use dot::{Channels, Dot};
pub use pen::Pen;
pub use refusal::PenRefusal;
pub use rows::{lay_ink, lay_row};
pub use rule::{Erase, InkRule, Over, OverAt, Rule};
