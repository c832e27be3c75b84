// Why a line has no dot for its answer.
ghost use Rattle.std.specs.Prelude.{◌≡◌};
ghost use Rattle.mixing.specs.declared.fault.Fault.TheVariants as faults;

use ink::PenRefusal;
use requests::Unread;
use std::error::Error;
use std::fmt;

#[derive(Clone, Copy, Debug, PartialEq, Eq)]
pub enum Fault {
    // the rules refuse what is asked for
    Refused(PenRefusal),
    // the line spells no request
    Unread(Unread),
}

impl fmt::Display for Fault {
    fn fmt<W: fmt::Write>(&self, f: &mut fmt::Formatter<W>) -> fmt::Result {
        match self {
            Fault::Refused(refusal) => write!(f, "refused {refusal}"),
            Fault::Unread(unread) => write!(f, "not understood: {unread}"),
        }
    }
}

impl Error for Fault {}

impl From<PenRefusal> for Fault {
    ghost from_gives = { λ refusal fault. fault ≡ faults.Refused refusal };

    fn from(refusal: PenRefusal) -> Fault {
        Fault::Refused(refusal)
    }
}

impl From<Unread> for Fault {
    ghost from_gives = { λ unread fault. fault ≡ faults.Unread unread };

    fn from(unread: Unread) -> Fault {
        Fault::Unread(unread)
    }
}
