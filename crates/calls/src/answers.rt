// What calls are answered.
use crate::refusals::Refusal;
use crate::shapes::{Corners, Size};
use ink::Dot;

// What a call was answered, or why it was refused, and nothing was altered.
pub type Answer = Result<Reply, Refusal>;

// The answer of a call that was not refused.
#[derive(Clone, Copy, PartialEq, Eq, Debug)]
pub enum Reply {
    // it was done
    Done,
    // the size of the sheet
    Size(Size),
    // the head, or how many blocks are left, or how many dots are inked
    Number(u32),
    // a snapshot's parent, or a layer's opacity
    Maybe(Option<u8>),
    Dot(Dot),
    // whether a dot is protected
    Truth(bool),
    // the smallest rectangle round a layer's inked dots
    Corners(Option<Corners>),
}
