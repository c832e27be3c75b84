// The words that requests are made of.
ghost use Rattle.std.specs.Prelude.{◌≡◌};
ghost use Rattle.requests.specs.Spellings.{Says, Spells, spelling};

use std::alloc::{AllocError, Global};
use std::fmt;
use std::str::FromStr;

// A word with a meaning of its own.
#[derive(Clone, Copy, Debug, PartialEq, Eq)]
pub enum Name {
    Ink,
    Over,
    Erase,
    Fade,
    On,
    At,
}

// A text that is none of the names.
#[derive(Clone, Copy, Debug, PartialEq, Eq)]
pub struct UnknownName;

// A word of a request.
#[derive(Clone, Copy, Debug, PartialEq, Eq)]
pub enum Word {
    Name(Name),
    Number(u8),
    Other,
    // no word; no text says it, and `read` wants it nowhere
    End,
}

impl Name {
    // How it is written.
    pub fn text(self) -> &'static str
        ensures { result.now ≡ spelling self }
    {
        match self {
            Name::Ink => "ink",
            Name::Over => "over",
            Name::Erase => "erase",
            Name::Fade => "fade",
            Name::On => "on",
            Name::At => "at",
        }
    }
}

impl fmt::Display for Name {
    fn fmt<W: fmt::Write>(&self, f: &mut fmt::Formatter<W>) -> fmt::Result {
        f.write_str(self.text())
    }
}

impl FromStr for Name {
    type Err = UnknownName;

    ghost from_str_gives = { Spells };

    fn from_str(text: &str) -> Result<Name, UnknownName> {
        match text {
            "ink" => Ok(Name::Ink),
            "over" => Ok(Name::Over),
            "erase" => Ok(Name::Erase),
            "fade" => Ok(Name::Fade),
            "on" => Ok(Name::On),
            "at" => Ok(Name::At),
            _ => Err(UnknownName),
        }
    }
}

impl From<&str> for Word {
    ghost from_gives = { λ text word. Says text.now word };

    fn from(text: &str) -> Word {
        if let Ok(name) = text.parse::<Name>() {
            Word::Name(name)
        } else if let Ok(number) = text.parse::<u8>() {
            Word::Number(number)
        } else {
            Word::Other
        }
    }
}

// The words of a line, in order.
pub fn words_of(heap: Global, line: &str) -> Result<Vec<Word>, AllocError> {
    line.split_whitespace().map(Word::from).collect(heap)
}
