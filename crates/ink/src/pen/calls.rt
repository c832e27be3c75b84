// Making pens and reading them.
ghost use Rattle.std.specs.Prelude.{◌≡◌, MatchResult};
ghost use Rattle.ink.specs.Meanings.{channels_of, dot_of, fault_of, pen_of, rule_of};
ghost use Rattle.rules.specs.Pens.{first_pen, make_pen};

use crate::dot::{Channels, Dot};
use crate::pen::Pen;
use crate::refusal::PenRefusal;
use crate::rule::Rule;

impl Pen {
    // A pen of four numbers, a side and a rule's number; the first of them that is wrong is told.
    pub fn new(ink: Channels, side: u8, rule: u8) -> Result<Pen, PenRefusal>
        ensures answer { MatchResult result (λ pen. make_pen (channels_of ink) side rule ≡ Some (pen_of pen)) (λ e. (make_pen (channels_of ink) side rule ≡ None) × (fault_of ink side rule ≡ Some e)) }
    {
        if !matches!(side, 1 | 3 | 5 | 7) {
            return Err(PenRefusal::Side(side));
        }
        let rule = Rule::try_from(rule)?;
        let ink = Dot::try_from(ink)?;
        Ok(Pen { ink, side, rule })
    }

    // What a new player draws with: black of side 1, laid over.
    pub fn first() -> Pen
        ensures value { pen_of result ≡ first_pen }
    {
        Pen {
            ink: Dot::black(),
            side: 1,
            rule: Rule::Over,
        }
    }

    pub fn ink(self) -> Dot
        ensures value { dot_of result ≡ (pen_of self).ink }
    {
        self.ink
    }

    pub fn side(self) -> u8
        ensures value { result ≡ (pen_of self).side }
    {
        self.side
    }

    pub fn rule(self) -> Rule
        ensures value { rule_of result ≡ (pen_of self).rule }
    {
        self.rule
    }
}
