// Why an ink or a pen cannot be made.
ghost use Rattle.std.specs.Prelude.{◌≡◌, [], ◌∷◌};
ghost use Rattle.ink.specs.Meanings.{numbers_of};

use std::error::Error;
use std::fmt;

#[derive(Clone, Copy, Debug, PartialEq, Eq)]
pub enum PenRefusal {
    // a side that is not 1, 3, 5 or 7
    Side(u8),
    // a rule above 1
    Rule(u8),
    // an ink with a colour above its alpha
    Colour,
}

impl PenRefusal {
    // The number by which the refusal is known.
    pub fn number(self) -> u8
        ensures value { result ∷ [] ≡ numbers_of self }
    {
        18
    }
}

// The number, then a sentence.
impl fmt::Display for PenRefusal {
    fn fmt<W: fmt::Write>(&self, f: &mut fmt::Formatter<W>) -> fmt::Result {
        let number = self.number();
        match self {
            PenRefusal::Side(side) => write!(
                f,
                "{number}: a pen's side is 1, 3, 5 or 7, not {side}"
            ),
            PenRefusal::Rule(rule) => write!(f, "{number}: a rule is 0 or 1, not {rule}"),
            PenRefusal::Colour => write!(f, "{number}: a colour is above alpha"),
        }
    }
}

impl Error for PenRefusal {}
