ghost use Rattle.std.specs.Prelude.{◌≡◌};
ghost use Rattle.grammar.specs.Tokens.{first_key, keywords, bare_of, signal_of, token_text, TokenIs};

use crate::number::{Misread, read_numeral};
use stream::Signal;

/// The words that a line is built with.
#[derive(Clone, Copy, PartialEq, Eq)]
pub enum Keyword {
    After,
    Never,
    From,
    Hold,
    Least,
    Under,
    Repeat,
    Within,
    Answer,
    By,
    Keep,
    For,
    Since,
    Or,
    Allow,
}

/// A word, by what it looks like, with its part of the text.
#[derive(Clone, Copy)]
pub enum Token<'a> {
    Keyword(Keyword, &'a [u8]),
    Signal(Signal, &'a [u8]),
    Number(&'a [u8]),
    Other(&'a [u8]),
}

pub(crate) fn read_keyword(word: &[u8]) -> Option<Keyword>
    ensures { result ≡ first_key word.now keywords }
{
    match word {
        b"after" => Some(Keyword::After),
        b"never" => Some(Keyword::Never),
        b"from" => Some(Keyword::From),
        b"hold" => Some(Keyword::Hold),
        b"least" => Some(Keyword::Least),
        b"under" => Some(Keyword::Under),
        b"repeat" => Some(Keyword::Repeat),
        b"within" => Some(Keyword::Within),
        b"answer" => Some(Keyword::Answer),
        b"by" => Some(Keyword::By),
        b"keep" => Some(Keyword::Keep),
        b"for" => Some(Keyword::For),
        b"since" => Some(Keyword::Since),
        b"or" => Some(Keyword::Or),
        b"allow" => Some(Keyword::Allow),
        _ => None,
    }
}

fn read_bare(b: u8) -> Option<Signal>
    ensures { result ≡ bare_of b }
{
    match b as char {
        '*' => Some(Signal::every()),
        'a'..='x' => Signal::letter(b - b'a').ok(),
        _ => None,
    }
}

pub(crate) fn read_signal(word: &[u8]) -> Option<Signal>
    ensures { result ≡ signal_of word.now }
{
    match word {
        [b] => read_bare(*b),
        [mark, b] => match *mark as char {
            '!' => Some(read_bare(*b)?.negated()),
            _ => None,
        },
        _ => None,
    }
}

impl<'a> From<&'a [u8]> for Token<'a> {
    ghost from_gives = { λ word token. (token_text token ≡ word.now) × TokenIs token };

    fn from(word: &'a [u8]) -> Token<'a> {
        if read_numeral(word, 999_999_999) != Err(Misread::WrongForm) {
            Token::Number(word)
        } else if let Some(keyword) = read_keyword(word) {
            Token::Keyword(keyword, word)
        } else if let Some(signal) = read_signal(word) {
            Token::Signal(signal, word)
        } else {
            Token::Other(word)
        }
    }
}
