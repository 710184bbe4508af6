ghost use Rattle.std.specs.Prelude.{◌≡◌, ◌≤◌, ◌∷◌, ◌++◌, length, MatchOption};
ghost use Rattle.grammar.specs.Words.{up_to};

/// How many bytes stand before the first `stop`, or all.
pub(crate) fn length_to(s: &[u8], stop: u8) -> usize
    ensures long { result ≡ length (up_to stop s.now) }
    ensures inside { result ≤ length s.now }
{
    s.iter().position(|b| *b == stop).unwrap_or(s.len())
}

/// The first line of a text, its end byte left off, and what follows it; nothing where no line is ended.
pub(crate) fn split_line(text: &[u8]) -> Option<(&[u8], &[u8])>
    ensures { MatchOption result (up_to 10 text.now ≡ text.now) (λ p. (p.0.now ≡ up_to 10 text.now) × (text.now ≡ p.0.now ++ (10 ∷ p.1.now))) }
{
    let len = length_to(text, b'\n');
    let rest = text.get(len + 1..)?;
    Some((&text[..len], rest))
}
