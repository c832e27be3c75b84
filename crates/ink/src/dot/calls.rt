// Making dots, reading them, printing them, fading them, and seeing them on paper.
ghost use Rattle.std.specs.Prelude.{◌≡◌, ◌≤◌};
ghost use Rattle.ink.specs.Meanings.{MakesDot, channels_of, dot_of};
ghost use Rattle.rules.specs.Bytes.{paper_bytes};
ghost use Rattle.rules.specs.Dots.{over, erase, blank, faded, laid, same_dot};
ghost use Rattle.rules.specs.Pens.{black};

use crate::channel::scale;
use crate::dot::{Channels, Dot};
use crate::refusal::PenRefusal;
use std::fmt;

// The dot of four numbers; refused where a colour is above alpha.
impl TryFrom<Channels> for Dot {
    type Error = PenRefusal;

    ghost try_from_gives = { MakesDot };

    fn try_from(channels: Channels) -> Result<Dot, PenRefusal> {
        let Channels {
            red,
            green,
            blue,
            alpha,
        } = channels;
        if red > alpha || green > alpha || blue > alpha {
            return Err(PenRefusal::Colour);
        }
        Ok(Dot {
            red,
            green,
            blue,
            alpha,
        })
    }
}

// The four numbers of a dot.
impl From<Dot> for Channels {
    ghost from_gives = { λ dot channels. channels_of channels ≡ dot_of dot };

    fn from(dot: Dot) -> Channels {
        Channels {
            red: dot.red,
            green: dot.green,
            blue: dot.blue,
            alpha: dot.alpha,
        }
    }
}

// Its four numbers, as they are written in a request.
impl fmt::Display for Dot {
    fn fmt<W: fmt::Write>(&self, f: &mut fmt::Formatter<W>) -> fmt::Result {
        let Channels {
            red,
            green,
            blue,
            alpha,
        } = Channels::from(*self);
        write!(f, "{red} {green} {blue} {alpha}")
    }
}

impl Dot {
    // The dot on which nothing was laid.
    pub fn blank() -> Dot
        ensures value { dot_of result ≡ blank }
    {
        Dot {
            red: 0,
            green: 0,
            blue: 0,
            alpha: 0,
        }
    }

    // Opaque black.
    pub fn black() -> Dot
        ensures value { dot_of result ≡ black }
    {
        Dot {
            red: 0,
            green: 0,
            blue: 0,
            alpha: 255,
        }
    }

    // Whether nothing was laid on it: then alpha is 0, and so are the colours.
    pub fn is_blank(self) -> bool
        ensures value { result ≡ same_dot (dot_of self) blank }
    {
        self.alpha == 0
    }

    // The dot at an opacity; no channel is then above the opacity.
    pub fn faded(self, opacity: u8) -> Dot
        ensures value { dot_of result ≡ faded opacity (dot_of self) }
        ensures within { result.alpha ≤ opacity }
    {
        Dot {
            red: scale(self.red, opacity),
            green: scale(self.green, opacity),
            blue: scale(self.blue, opacity),
            alpha: scale(self.alpha, opacity),
        }
    }

    // This ink laid over a dot. What is seen of the dot is within what the ink leaves free, so no sum passes 255.
    pub fn over(self, dot: Dot) -> Dot
        ensures value { dot_of result ≡ laid over (dot_of self) (dot_of dot) }
    {
        let seen = dot.faded(255 - self.alpha);
        Dot {
            red: self.red + seen.red,
            green: self.green + seen.green,
            blue: self.blue + seen.blue,
            alpha: self.alpha + seen.alpha,
        }
    }

    // What is left of a dot that this ink erases from.
    pub fn erase(self, from: Dot) -> Dot
        ensures value { dot_of result ≡ laid erase (dot_of self) (dot_of from) }
    {
        from.faded(255 - self.alpha)
    }

    // Its colours as they are seen on white paper.
    pub fn on_paper(self) -> [u8; 3]
        ensures value { result ≡ paper_bytes (dot_of self) }
    {
        let paper = 255 - self.alpha;
        [self.red + paper, self.green + paper, self.blue + paper]
    }
}
