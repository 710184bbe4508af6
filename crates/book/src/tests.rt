use crate::book::Book;
use grammar::{ClauseNumber, Line, Term};
use monitor::{Pattern, Ticks};
use panel::Panel;
use std::test::Fail;
use stream::{Refusal, Sample, Signal};

const A: u32 = 1;

const C: u32 = 4;

const D: u32 = 8;

/// `7 after c never a`
fn after_never() -> Result<Line, Refusal> {
    Ok(Line {
        number: ClauseNumber::new(7).unwrap(),
        first: Term {
            after: Some(Signal::letter(2)?),
            pattern: Pattern::Never {
                p: Signal::letter(0)?,
            },
        },
        second: None,
        allow: None,
    })
}

/// `40 hold d under 4 allow 1`
fn hold_under() -> Result<Line, Refusal> {
    Ok(Line {
        number: ClauseNumber::new(40).unwrap(),
        first: Term {
            after: None,
            pattern: Pattern::HoldUnder {
                p: Signal::letter(3)?,
                t: Ticks::new(4)?,
            },
        },
        second: None,
        allow: Some(1),
    })
}

#[test]
fn two_lines(rt: HostRuntime) -> Result<(), Fail> {
    let mut book = Book::of(&[after_never()?, hold_under()?]);
    assert!(rt; book.judge(Sample::new(0, A | D)?).is_empty());
    assert!(rt; book.judge(Sample::new(4, C | D)?).is_empty());
    assert!(rt; book.judge(Sample::new(1, A)?).has(1));
    assert!(rt; !book.judge(Sample::new(1, D)?).has(2));
    assert_eq!(rt; book.judge(Sample::new(4, D)?).count(), 2);
    assert_eq!(rt; book.seats(), 2);
    assert_eq!(rt; book.clause_number(2), Some(40));
    assert_eq!(rt; book.clause_number(3), None);
    Ok(())
}

#[test]
fn never_read(rt: HostRuntime) -> Result<(), Fail> {
    let mut book = Book::new();
    assert!(rt; book.judge(Sample::new(0, A)?).is_empty());
    assert_eq!(rt; book.seats(), 1);
    assert_eq!(rt; book.clause_number(1), Some(1));
    Ok(())
}
