ghost use Rattle.grammar.specs.Bodies.{read_never, read_hold, read_repeat, read_answer, read_keep, read_body};
ghost use Rattle.grammar.specs.Lines.{read_term, read_second, read_allow, line_end, after_number};
ghost use Rattle.grammar.specs.Contract.{left_of, Reads};

use crate::clause::ClauseNumber;
use crate::reader::Reader;
use crate::snag::Snag;
use crate::token::Keyword;
use crate::tree::{Line, Term};
use monitor::Pattern;

impl<'a> Reader<'a> {
    fn never(&mut self) -> Result<Pattern, Snag>
        ensures { Reads self.old self.new result (read_never (left_of self.old)) }
    {
        let p = self.signal()?;
        if self.takes(Keyword::From) {
            let t = self.ticks()?;
            Ok(Pattern::NeverFrom { p, t })
        } else {
            Ok(Pattern::Never { p })
        }
    }

    fn hold(&mut self) -> Result<Pattern, Snag>
        ensures { Reads self.old self.new result (read_hold (left_of self.old)) }
    {
        let p = self.signal()?;
        if self.takes(Keyword::Least) {
            let t = self.ticks()?;
            Ok(Pattern::HoldLeast { p, t })
        } else if self.takes(Keyword::Under) {
            let t = self.ticks()?;
            Ok(Pattern::HoldUnder { p, t })
        } else {
            Err(self.refuse())
        }
    }

    fn repeat(&mut self) -> Result<Pattern, Snag>
        ensures { Reads self.old self.new result (read_repeat (left_of self.old)) }
    {
        let p = self.signal()?;
        self.keyword(Keyword::Within)?;
        let t = self.ticks()?;
        Ok(Pattern::Repeat { p, t })
    }

    fn answer(&mut self) -> Result<Pattern, Snag>
        ensures { Reads self.old self.new result (read_answer (left_of self.old)) }
    {
        let p = self.signal()?;
        self.keyword(Keyword::By)?;
        let s = self.signal()?;
        self.keyword(Keyword::Within)?;
        let t = self.ticks()?;
        Ok(Pattern::Answer { p, s, t })
    }

    fn keep(&mut self) -> Result<Pattern, Snag>
        ensures { Reads self.old self.new result (read_keep (left_of self.old)) }
    {
        let s = self.signal()?;
        self.keyword(Keyword::For)?;
        let t = self.ticks()?;
        self.keyword(Keyword::Since)?;
        let p = self.signal()?;
        Ok(Pattern::Keep { s, t, p })
    }

    fn body(&mut self) -> Result<Pattern, Snag>
        ensures { Reads self.old self.new result (read_body (left_of self.old)) }
    {
        // No `match` on the word, here and in `hold`: each arm would have to take it as well, which `takes` does once.
        if self.takes(Keyword::Never) {
            self.never()
        } else if self.takes(Keyword::Hold) {
            self.hold()
        } else if self.takes(Keyword::Repeat) {
            self.repeat()
        } else if self.takes(Keyword::Answer) {
            self.answer()
        } else if self.takes(Keyword::Keep) {
            self.keep()
        } else {
            Err(self.refuse())
        }
    }

    fn term(&mut self) -> Result<Term, Snag>
        ensures { Reads self.old self.new result (read_term (left_of self.old)) }
    {
        let after = if self.takes(Keyword::After) {
            Some(self.signal()?)
        } else {
            None
        };
        let pattern = self.body()?;
        Ok(Term { after, pattern })
    }

    // `term`, `second` and `allow` ask for a word each by itself: of `takes(..).then(|| ..).transpose()` the proof did not close, since what the closure leaves of the reader has no name there.
    fn second(&mut self) -> Result<Option<Term>, Snag>
        ensures { Reads self.old self.new result (read_second (left_of self.old)) }
    {
        if self.takes(Keyword::Or) {
            Ok(Some(self.term()?))
        } else {
            Ok(None)
        }
    }

    fn allow(&mut self) -> Result<Option<u8>, Snag>
        ensures { Reads self.old self.new result (read_allow (left_of self.old)) }
    {
        if self.takes(Keyword::Allow) {
            let n = self.number(0, 255)?;
            Ok(Some(n as u8))
        } else {
            Ok(None)
        }
    }

    fn end(&self, line: Line) -> Result<Line, Snag>
        ensures { Reads self.now self.now result (line_end line (left_of self.now)) }
    {
        if self.ended() {
            Ok(line)
        } else {
            Err(self.refuse())
        }
    }

    /// What follows the clause number, up to the line's end.
    pub(crate) fn terms(&mut self, number: ClauseNumber) -> Result<Line, Snag>
        ensures { Reads self.old self.new result (after_number number (left_of self.old)) }
    {
        let first = self.term()?;
        let second = self.second()?;
        let allow = self.allow()?;
        self.end(Line {
            number,
            first,
            second,
            allow,
        })
    }
}
