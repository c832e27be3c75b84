// Calls of a canvas, what they are answered, and why they are refused, as values.
#![tactic(auto)]

mod answers;
mod asked;
mod refusals;
mod shapes;

pub use answers::{Answer, Reply};
pub use asked::Call;
pub use refusals::Refusal;
pub use shapes::{Corners, Point, Size};
