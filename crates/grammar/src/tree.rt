ghost use Rattle.std.specs.Prelude.{◌≡◌};
ghost use Rattle.grammar.specs.Unread.{unread_line};

use crate::clause::ClauseNumber;
use monitor::Pattern;
use stream::Signal;

/// One rule of a line: its pattern, and the signal that it waits for.
#[derive(Clone, Copy)]
pub struct Term {
    pub after: Option<Signal>,
    pub pattern: Pattern,
}

/// A line of a book: what it says, part by part.
#[derive(Clone, Copy)]
pub struct Line {
    pub number: ClauseNumber,
    pub first: Term,
    pub second: Option<Term>,
    pub allow: Option<u8>,
}

/// The line `1 never !*`, which no sample fails.
impl Default for Line {
    ghost is_default = { λ l. l ≡ unread_line };

    fn default() -> Line {
        let p = Signal::every().negated();
        Line {
            number: ClauseNumber::new(1).unwrap(),
            first: Term {
                after: None,
                pattern: Pattern::Never { p },
            },
            second: None,
            allow: None,
        }
    }
}
