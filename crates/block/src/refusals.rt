// What a block store refuses, by fixed numbers.
ghost use Rattle.std.specs.Prelude.{◌≡◌};
ghost use Rattle.block.specs.Refusals.{number};

use std::fmt;

// Why a store refused a call, by its fixed number; a refused call alters no block.
#[derive(Clone, Copy, PartialEq, Eq, Debug)]
pub enum Refusal {
    // `take`: every number is out
    NoneFree = 1,
    // the block that the call names is not out
    NotOut = 2,
    // `keep`: the block has 65,535 holders
    TooMany = 3,
    // `get` and `put`: a block has no such word
    NoWord = 4,
}

impl Refusal {
    // The number by which the refusal is known.
    pub fn number(self) -> u8
        ensures { result ≡ number self }
    {
        self as u8
    }

    // What was wrong, for a person.
    fn sentence(self) -> &'static str {
        match self {
            Refusal::NoneFree => "no block left",
            Refusal::NotOut => "the block is not out",
            Refusal::TooMany => "the block has 65535 holders",
            Refusal::NoWord => "a block has sixteen words",
        }
    }
}

// The number, then the sentence.
impl fmt::Display for Refusal {
    fn fmt<W: fmt::Write>(&self, f: &mut fmt::Formatter<W>) -> fmt::Result {
        let number = self.number();
        let sentence = self.sentence();
        write!(f, "{number}: {sentence}")
    }
}
