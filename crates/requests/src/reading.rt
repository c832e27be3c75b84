// Requests, read from their words.
use crate::words::{Name, Word};
use ink::{Channels, Rule};
use std::error::Error;
use std::fmt;
use std::slice::Iter;

// What is asked for.
#[derive(Clone, Copy, Debug, PartialEq, Eq)]
pub enum Request {
    Lay(Rule, Channels, Channels),
    Fade(Channels, u8),
}

// What was wanted at a place.
#[derive(Clone, Copy, Debug, PartialEq, Eq)]
pub enum Wanted {
    Name(Name),
    Number,
    End,
    // one of the words that say what is done with the ink
    Way,
}

impl fmt::Display for Wanted {
    fn fmt<W: fmt::Write>(&self, f: &mut fmt::Formatter<W>) -> fmt::Result {
        match self {
            Wanted::Name(name) => write!(f, "{name}"),
            Wanted::Number => write!(f, "a number from 0 to 255"),
            Wanted::End => write!(f, "the end"),
            Wanted::Way => write!(f, "over, erase or fade"),
        }
    }
}

// A word, counted from 1, in whose place something else was wanted.
#[derive(Clone, Copy, Debug, PartialEq, Eq)]
pub struct Unread {
    place: usize,
    wanted: Wanted,
}

impl fmt::Display for Unread {
    fn fmt<W: fmt::Write>(&self, f: &mut fmt::Formatter<W>) -> fmt::Result {
        write!(f, "word {}: wanted {}", self.place, self.wanted)
    }
}

impl Error for Unread {}

// The words that are still to be read, and how many were asked for. It counts by itself: the place
// past the last word is told too, and `enumerate` has none for it.
#[derive(Drop)]
struct Reader<'a> {
    words: Iter<'a, Word>,
    count: usize,
}

impl Reader<'_> {
    fn word(&mut self) -> Option<Word> {
        self.count = self.count.saturating_add(1);
        self.words.next().copied()
    }

    // That the word that was read last is not the one that was wanted.
    fn unread(&self, wanted: Wanted) -> Unread {
        Unread {
            place: self.count,
            wanted,
        }
    }

    fn name(&mut self, name: Name) -> Result<(), Unread> {
        if self.word() == Some(Word::Name(name)) {
            Ok(())
        } else {
            Err(self.unread(Wanted::Name(name)))
        }
    }

    fn number(&mut self) -> Result<u8, Unread> {
        match self.word() {
            Some(Word::Number(number)) => Ok(number),
            _ => Err(self.unread(Wanted::Number)),
        }
    }

    fn end(&mut self) -> Result<(), Unread> {
        match self.word() {
            None => Ok(()),
            Some(_) => Err(self.unread(Wanted::End)),
        }
    }

    fn channels(&mut self) -> Result<Channels, Unread> {
        Ok(Channels {
            red: self.number()?,
            green: self.number()?,
            blue: self.number()?,
            alpha: self.number()?,
        })
    }

    // INK on DOT
    fn lay(&mut self, rule: Rule) -> Result<Request, Unread> {
        let ink = self.channels()?;
        self.name(Name::On)?;
        Ok(Request::Lay(rule, ink, self.channels()?))
    }

    // INK at OPACITY
    fn fade(&mut self) -> Result<Request, Unread> {
        let ink = self.channels()?;
        self.name(Name::At)?;
        Ok(Request::Fade(ink, self.number()?))
    }

    // over INK on DOT, erase INK on DOT, fade INK at OPACITY
    fn way(&mut self) -> Result<Request, Unread> {
        match self.word() {
            Some(Word::Name(Name::Over)) => self.lay(Rule::Over),
            Some(Word::Name(Name::Erase)) => self.lay(Rule::Erase),
            Some(Word::Name(Name::Fade)) => self.fade(),
            _ => Err(self.unread(Wanted::Way)),
        }
    }
}

// The request that some words spell.
pub fn read(words: &[Word]) -> Result<Request, Unread> {
    let mut reader = Reader {
        words: words.iter(),
        count: 0,
    };
    reader.name(Name::Ink)?;
    let request = reader.way()?;
    reader.end()?;
    Ok(request)
}
