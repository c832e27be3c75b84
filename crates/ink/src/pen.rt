// Pens.
ghost use Rattle.std.specs.Prelude.{◌≡◌, true};
ghost use Rattle.rules.specs.Pens.{good_side};

mod calls;

use crate::dot::Dot;
use crate::rule::Rule;

// A pen: an ink, a side that is 1, 3, 5 or 7, and a rule.
#[derive(Clone, Copy, Debug, PartialEq, Eq)]
pub struct Pen {
    ink: Dot,
    side: u8,
    rule: Rule,
    ghost sided: { good_side side ≡ true },
}
