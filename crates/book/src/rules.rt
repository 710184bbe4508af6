ghost use Rattle.std.specs.Prelude.{List, Decides};
ghost use Rattle.stream.specs.declared.sample.Sample.{Sample};
ghost use Rattle.book.specs.Meaning.{TermFails, RulesFail};

use grammar::{Line, Term};
use layers::{After, Choice, Either};
use monitor::{Monitor, Rule};

/// A rule, or the same under after where its term says so.
pub(crate) type Guarded = Choice<Rule, After<Rule>>;

/// The rules of a line: a single one, or either of two.
pub(crate) type Body = Choice<Guarded, Either<Guarded, Guarded>>;

// Functions, and no From: both types are another crate's, under a name of this one.
fn guarded_of(term: &Term) -> Guarded
    ensures { (l : List Sample) → Decides (⟦<Guarded as Monitor>⟧.fails_new result l) (TermFails term.now l) }
{
    let rule = Rule::new(term.pattern);
    match term.after {
        None => Choice::One(rule),
        Some(trigger) => Choice::Other(After::new(trigger, rule)),
    }
}

pub(crate) fn body_of(line: &Line) -> Body
    ensures { (l : List Sample) → Decides (⟦<Body as Monitor>⟧.fails_new result l) (RulesFail line.now.first line.now.second l) }
{
    let first = guarded_of(&line.first);
    match &line.second {
        None => Choice::One(first),
        Some(term) => Choice::Other(Either::new(first, guarded_of(term))),
    }
}
