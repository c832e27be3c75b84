// Ink over rows of dots: loops with no branch and no clamp in them.
ghost use Rattle.std.specs.Prelude.{◌≡◌, map};
ghost use Rattle.ink.specs.Meanings.{dot_of, dots_of, laid_row};

use crate::dot::Dot;
use crate::rule::InkRule;

// Ink laid on the dot at a place.
fn lay_on<R: InkRule>(rule: &R, ink: Dot, dot: &mut Dot)
    ensures after { dot_of dot.new ≡ R.InkRule.lays rule.now (dot_of ink) (dot_of dot.old) }
{
    *dot = rule.lay(ink, *dot);
}

// One ink laid on every dot of a row.
pub fn lay_ink<R: InkRule>(rule: &R, ink: Dot, dots: &mut [Dot])
    ensures after { dots_of dots.new ≡ map (R.InkRule.lays rule.now (dot_of ink)) (dots_of dots.old) }
{
    for dot in dots {
        lay_on(rule, ink, dot);
    }
}

// A row of inks laid on a row of dots, each on the dot at its place; dots past the inks stay.
// Not by a `zip` with `iter_mut`: after that, nothing is known of the dots.
pub fn lay_row<R: InkRule>(rule: &R, inks: &[Dot], dots: &mut [Dot])
    ensures after { dots_of dots.new ≡ laid_row (R.InkRule.lays rule.now) (dots_of inks.now) (dots_of dots.old) }
{
    for (i, ink) in inks.iter().enumerate().take(dots.len()) {
        lay_on(rule, *ink, &mut dots[i]);
    }
}
