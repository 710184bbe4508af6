ghost use Rattle.std.specs.Prelude.{◌≡◌, ◌<◌};
ghost use Rattle.grammar.specs.Numbers.{reading_of};

/// Why a word is no number of at most some limit.
#[derive(Clone, Copy, PartialEq, Eq, Debug)]
pub enum Misread {
    WrongForm,
    TooHigh,
}

/// Reads digits with no leading zero, up to `limit`. What is above is counted no further, so that no length overflows.
pub(crate) fn read_numeral(word: &[u8], limit: u32) -> Result<u32, Misread>
    requires { limit < 1000000000 }
    ensures { result ≡ reading_of limit word.now }
{
    if word.is_empty() || (word[0] == b'0' && word.len() > 1) {
        return Err(Misread::WrongForm);
    }
    let cap = limit as u64 + 1;
    let mut n: u64 = 0;
    for b in word {
        if !b.is_ascii_digit() {
            return Err(Misread::WrongForm);
        }
        n = (n * 10 + (*b - b'0') as u64).min(cap);
    }
    if n < cap {
        Ok(n as u32)
    } else {
        Err(Misread::TooHigh)
    }
}
