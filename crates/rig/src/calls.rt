// The calls that the rig plays, each as it is printed.
use std::fmt;

// A block: that of an earlier take, counted from 0, or a bare number.
#[derive(Clone, Copy, Debug, PartialEq, Eq)]
pub enum Block {
    Taken(usize),
    Numbered(u32),
}

#[derive(Clone, Copy, Debug, PartialEq, Eq)]
pub enum Call {
    Size,
    Left,
    Take,
    // until the store refuses
    TakeRest,
    Keep(Block),
    // so many times, or until the store refuses
    KeepOften(Block, u32),
    Release(Block),
    // the word at a place
    Get(Block, u32),
    // at a place, a word
    Put(Block, u32, u32),
    Holders(Block),
}

// A block that was taken goes by a letter.
impl fmt::Display for Block {
    fn fmt<W: fmt::Write>(&self, f: &mut fmt::Formatter<W>) -> fmt::Result {
        match self {
            Block::Taken(nth) => {
                let nth = u8::try_from(*nth).unwrap_or(u8::MAX);
                f.write_char(char::from(b'a'.saturating_add(nth)))
            }
            Block::Numbered(number) => write!(f, "number {number}"),
        }
    }
}

impl fmt::Display for Call {
    fn fmt<W: fmt::Write>(&self, f: &mut fmt::Formatter<W>) -> fmt::Result {
        match self {
            Call::Size => write!(f, "size"),
            Call::Left => write!(f, "left"),
            Call::Take => write!(f, "take"),
            Call::TakeRest => write!(f, "take until refused"),
            Call::Keep(b) => write!(f, "keep {b}"),
            Call::KeepOften(b, times) => write!(f, "keep {b} {times} times"),
            Call::Release(b) => write!(f, "release {b}"),
            Call::Get(b, i) => write!(f, "get {b} word {i}"),
            Call::Put(b, i, w) => write!(f, "put {b} word {i}: {w}"),
            Call::Holders(b) => write!(f, "holders {b}"),
        }
    }
}
