// Requests to mix inks, as they are written.
#![tactic(auto)]

mod reading;
mod words;

pub use reading::{Request, Unread, read};
pub use words::{Word, words_of};
