// What a store answers to a call.
ghost use Rattle.std.specs.Prelude.{◌≡◌};
ghost use Rattle.rig.specs.declared.answers.Stop.TheVariants as stops;

use block::Refusal;
use std::fmt;

// What a call gives that is done.
#[derive(Clone, Copy, Debug)]
#[derive_where(PartialEq, Eq)]
pub enum Reply {
    Done,
    Number(u32),
    // the number that `take` picked: stores may differ in it, so a comparison passes over it
    Picked(#[derive_where(skip(EqHashOrd))] u32),
}

// Why a call was not done.
#[derive(Clone, Copy, Debug, PartialEq, Eq)]
pub enum Stop {
    Refused(Refusal),
    // refused after it was done so many times
    After(u32, Refusal),
}

pub type Answer = Result<Reply, Stop>;

impl From<Refusal> for Stop {
    ghost from_gives = { λ refusal stop. stop ≡ stops.Refused refusal };

    fn from(refusal: Refusal) -> Stop {
        Stop::Refused(refusal)
    }
}

impl fmt::Display for Reply {
    fn fmt<W: fmt::Write>(&self, f: &mut fmt::Formatter<W>) -> fmt::Result {
        match self {
            Reply::Done => write!(f, "done"),
            Reply::Number(n) => write!(f, "{n}"),
            Reply::Picked(_) => write!(f, "out"),
        }
    }
}

impl fmt::Display for Stop {
    fn fmt<W: fmt::Write>(&self, f: &mut fmt::Formatter<W>) -> fmt::Result {
        match self {
            Stop::Refused(e) => write!(f, "refused {e}"),
            Stop::After(done, e) => write!(f, "{done} done, then refused {e}"),
        }
    }
}
