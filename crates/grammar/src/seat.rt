ghost use Rattle.std.specs.Prelude.{◌≡◌, ◌<◌, ◌⊎◌, MatchResult};
ghost use Rattle.stream.specs.declared.refusal.Refusal.TheVariants.{NoSuchLine};
ghost use Rattle.grammar.specs.Words.{line_ends};
ghost use Rattle.grammar.specs.Seats.{LineAt};

use crate::word::split_line;
use stream::Refusal;

/// The line of a seat, counted from 1, as a part of the text, its end byte left off. A tail that is not ended is no line.
pub fn line_of<'a>(text: &'a [u8], seat: u8) -> Result<&'a [u8], Refusal>
    ensures { MatchResult result (λ line. LineAt text.now seat line.now) (λ e. (e ≡ NoSuchLine) × ((seat ≡ 0) ⊎ (line_ends text.now < seat))) }
{
    if seat == 0 {
        return Err(Refusal::NoSuchLine);
    }
    let mut rest = text;
    for _ in 1..seat {
        (_, rest) = split_line(rest).ok_or(Refusal::NoSuchLine)?;
    }
    let (line, _) = split_line(rest).ok_or(Refusal::NoSuchLine)?;
    Ok(line)
}
