// What a request comes to.
ghost use Rattle.std.specs.Prelude.{◌≡◌, true, false, ◌&&◌, MatchResult};
ghost use Rattle.ink.specs.Meanings.{channels_of, dot_of, rule_of};
ghost use Rattle.rules.specs.Dots.{faded, laid};
ghost use Rattle.rules.specs.Pens.{good_ink};

use crate::fault::Fault;
use ink::{Channels, Dot, InkRule, PenRefusal, Rule};
use requests::{Request, Word, read, words_of};
use std::alloc::{AllocError, Global};

// Ink laid on a dot; refused where either has a colour above its alpha.
pub fn lay(rule: Rule, ink: Channels, dot: Channels) -> Result<Dot, PenRefusal>
    ensures answer { MatchResult result (λ d. (dot_of d ≡ laid (rule_of rule) (channels_of ink) (channels_of dot)) × (good_ink (channels_of ink) && good_ink (channels_of dot) ≡ true)) (λ e. (e ≡ PenRefusal.Colour) × (good_ink (channels_of ink) && good_ink (channels_of dot) ≡ false)) }
{
    let ink = Dot::try_from(ink)?;
    let dot = Dot::try_from(dot)?;
    Ok(rule.lay(ink, dot))
}

// A dot at an opacity.
pub fn fade(ink: Channels, opacity: u8) -> Result<Dot, PenRefusal>
    ensures answer { MatchResult result (λ d. (dot_of d ≡ faded opacity (channels_of ink)) × (good_ink (channels_of ink) ≡ true)) (λ e. (e ≡ PenRefusal.Colour) × (good_ink (channels_of ink) ≡ false)) }
{
    let ink = Dot::try_from(ink)?;
    Ok(ink.faded(opacity))
}

// What some words ask for.
fn answer(words: &[Word]) -> Result<Dot, Fault> {
    let dot = match read(words)? {
        Request::Lay(rule, ink, dot) => lay(rule, ink, dot)?,
        Request::Fade(ink, opacity) => fade(ink, opacity)?,
    };
    Ok(dot)
}

// The answer to a line.
pub fn answer_line(heap: Global, line: &str) -> Result<Result<Dot, Fault>, AllocError> {
    let words = words_of(heap, line)?;
    Ok(answer(&words))
}
