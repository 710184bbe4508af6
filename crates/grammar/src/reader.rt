ghost use Rattle.std.specs.Prelude.{◌≡◌, ◌+◌, ◌-◌, ◌<◌, ◌≤◌, [], ◌∷◌, length, IfOk, MatchOption};
ghost use Rattle.grammar.specs.Words.{unwords, left};
ghost use Rattle.grammar.specs.Tokens.{token_text, TokenIs};
ghost use Rattle.grammar.specs.Reading.{bad, none_left, read_number, read_ticks, read_clause, read_signal, read_key, refuse};
ghost use Rattle.grammar.specs.Contract.{left_of, len_of, NextIs, Reads, Takes};

use crate::clause::ClauseNumber;
use crate::fault::Cause;
use crate::number::read_numeral;
use crate::snag::Snag;
use crate::token::{Keyword, Token};
use crate::word::length_to;
use monitor::Ticks;
use stream::Signal;

/// Stands at a word of a line, or past its end.
#[derive(Drop)]
pub struct Reader<'a> {
    pub(crate) line: &'a [u8],
    pub(crate) at: usize,
}

impl<'a> Reader<'a> {
    /// The next word, which stays.
    fn word(&self) -> Option<&'a [u8]>
        ensures { MatchOption result (left_of self.now ≡ []) (λ w. NextIs self.now w.now) }
    {
        let rest = self.line.get(self.at..)?;
        Some(&rest[..length_to(rest, b' ')])
    }

    /// The next word by its kind; it stays.
    fn peek(&self) -> Option<Token<'a>>
        ensures { MatchOption result (left_of self.now ≡ []) (λ t. TokenIs t × NextIs self.now (token_text t)) }
    {
        self.word().map(Token::from)
    }

    /// A snag at the next word, or at the line's end.
    fn snag(&self, cause: Cause) -> Snag
        ensures cause { result.cause ≡ cause }
        ensures place { length (unwords (left_of self.now)) ≡ len_of self.now - result.place }
        ensures inside { result.place ≤ len_of self.now }
    {
        Snag {
            cause,
            place: self.at.min(self.line.len()),
        }
    }

    /// Takes the word that `peek` gave.
    fn pass(&mut self, word: &[u8])
        requires { self.old.at + length word.now ≤ length self.old.line.now }
        ensures { (self.new.at ≡ self.old.at + length word.now + 1) × (self.new.line ≡ self.old.line) }
    {
        self.at += word.len() + 1;
    }

    /// Takes the next word if it is this one.
    pub(crate) fn takes(&mut self, owed: Keyword) -> bool
        ensures { Takes self.old self.new result owed }
    {
        match self.peek() {
            Some(Token::Keyword(keyword, word)) if keyword == owed => {
                self.pass(word);
                true
            }
            _ => false,
        }
    }

    /// No word is allowed here: the next is not, or one is missing.
    pub(crate) fn refuse(&self) -> Snag
        ensures place { refuse {X = Unit {0}} (left_of self.now) ≡ bad result.cause (len_of self.now - result.place) }
        ensures inside { result.place ≤ len_of self.now }
    {
        match self.peek() {
            None => self.snag(Cause::WordMissing),
            Some(_) => self.snag(Cause::WordNotAllowed),
        }
    }

    pub(crate) fn ended(&self) -> bool
        ensures { result ≡ none_left (left_of self.now) }
    {
        self.peek().is_none()
    }

    pub(crate) fn keyword(&mut self, owed: Keyword) -> Result<(), Snag>
        ensures { Reads self.old self.new result (read_key owed (left_of self.old)) }
    {
        if self.takes(owed) {
            Ok(())
        } else {
            Err(self.refuse())
        }
    }

    pub(crate) fn signal(&mut self) -> Result<Signal, Snag>
        ensures { Reads self.old self.new result (read_signal (left_of self.old)) }
    {
        match self.peek() {
            Some(Token::Signal(signal, word)) => {
                self.pass(word);
                Ok(signal)
            }
            Some(_) => Err(self.snag(Cause::WordNotAllowed)),
            None => Err(self.snag(Cause::WordMissing)),
        }
    }

    pub(crate) fn number(&mut self, low: u32, high: u32) -> Result<u32, Snag>
        requires { high < 1000000000 }
        ensures reads { Reads self.old self.new result (read_number low high (left_of self.old)) }
        ensures range { IfOk result (λ n. (low ≤ n) × (n ≤ high)) }
    {
        let token = self.peek().ok_or(self.snag(Cause::WordMissing))?;
        let owed = self.snag(Cause::NumberOwed);
        let Token::Number(word) = token else {
            return Err(owed);
        };
        match read_numeral(word, high) {
            Ok(n) if low <= n => {
                self.pass(word);
                Ok(n)
            }
            _ => Err(owed),
        }
    }

    pub(crate) fn ticks(&mut self) -> Result<Ticks, Snag>
        ensures { Reads self.old self.new result (read_ticks (left_of self.old)) }
    {
        let n = self.number(0, 999_999_999)?;
        Ok(Ticks::new(n).unwrap())
    }

    pub(crate) fn clause(&mut self) -> Result<ClauseNumber, Snag>
        ensures { Reads self.old self.new result (read_clause (left_of self.old)) }
    {
        let n = self.number(1, 9999)?;
        Ok(ClauseNumber::new(n as u16).unwrap())
    }
}
