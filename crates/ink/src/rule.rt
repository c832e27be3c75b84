// The rules by which ink is laid on a dot.
ghost use Rattle.std.specs.Prelude.{◌≡◌};
ghost use Rattle.ink.specs.Meanings.{Laying, KeepsBlank, dot_of};

mod calls;

use crate::dot::Dot;

// A rule says what an ink and a dot give, and must show that blank ink leaves every dot unaltered.
pub trait InkRule {
    ghost lays: { Self → Laying };

    ghost keeps: { (rule : Self) → KeepsBlank (lays rule) };

    // Ink laid on a dot.
    fn lay(&self, ink: Dot, dot: Dot) -> Dot
        ensures value { dot_of result ≡ lays self.now (dot_of ink) (dot_of dot) };
}

// Ink covers the dot as far as it is opaque.
#[derive(Clone, Copy, Debug, PartialEq, Eq)]
pub struct Over;

// Ink takes away of the dot as far as it is opaque.
#[derive(Clone, Copy, Debug, PartialEq, Eq)]
pub struct Erase;

// Over, after an opacity: how a layer is laid on those below it.
#[derive(Clone, Copy, Debug, PartialEq, Eq)]
pub struct OverAt {
    pub opacity: u8,
}

// A rule by its name, as a pen has it.
#[derive(Clone, Copy, Debug, PartialEq, Eq)]
pub enum Rule {
    Over,
    Erase,
}
