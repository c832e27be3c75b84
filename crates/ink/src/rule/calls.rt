// The rules, each with its meaning and its blank law; a rule by its name is the one that it names.
ghost use Rattle.ink.specs.Meanings.{MakesRule, rule_of};
ghost use Rattle.rules.proofs.Inks.{blank_keeps, faded_keeps};
ghost use Rattle.rules.specs.Dots.{over, erase, faded, laid};

use crate::dot::Dot;
use crate::refusal::PenRefusal;
use crate::rule::{Erase, InkRule, Over, OverAt, Rule};

impl InkRule for Over {
    ghost lays = { λ _. laid over };

    ghost keeps = { λ _. blank_keeps over };

    fn lay(&self, ink: Dot, dot: Dot) -> Dot {
        ink.over(dot)
    }
}

impl InkRule for Erase {
    ghost lays = { λ _. laid erase };

    ghost keeps = { λ _. blank_keeps erase };

    fn lay(&self, ink: Dot, dot: Dot) -> Dot {
        ink.erase(dot)
    }
}

impl InkRule for OverAt {
    ghost lays = { λ rule ink dot. laid over (faded rule.opacity ink) dot };

    ghost keeps = { λ rule. faded_keeps rule.opacity };

    fn lay(&self, ink: Dot, dot: Dot) -> Dot {
        ink.faded(self.opacity).over(dot)
    }
}

impl InkRule for Rule {
    ghost lays = { λ rule. laid (rule_of rule) };

    ghost keeps = { λ rule. blank_keeps (rule_of rule) };

    fn lay(&self, ink: Dot, dot: Dot) -> Dot {
        match self {
            Rule::Over => Over.lay(ink, dot),
            Rule::Erase => Erase.lay(ink, dot),
        }
    }
}

// The rule that has a number.
impl TryFrom<u8> for Rule {
    type Error = PenRefusal;

    ghost try_from_gives = { MakesRule };

    fn try_from(number: u8) -> Result<Rule, PenRefusal> {
        match number {
            0 => Ok(Rule::Over),
            1 => Ok(Rule::Erase),
            _ => Err(PenRefusal::Rule(number)),
        }
    }
}
