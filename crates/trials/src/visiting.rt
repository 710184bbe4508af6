use callers::{cut_in_two, pay_visit, play_twice};
use monitor::{Pattern, Rule};
use panel::Solo;
use std::test::Fail;
use stream::{Refusal, Signal};
use watch::{Notice, PlayAnswer, PlayCall, Watch};

/// A watch on `never a` alone.
fn never_a() -> Result<Solo<Rule>, Refusal> {
    let p = Signal::letter(0)?;
    Ok(Solo::new(Rule::new(Pattern::Never { p })))
}

#[test]
fn a_list_of_the_callers_own(rt: HostRuntime) -> Result<(), Fail> {
    let own = Notice { seat: 9, number: 7 };
    let lost = Notice { seat: 1, number: 2 };
    let mut out = [own; 3];
    let (watch, visit) = pay_visit(
        never_a()?,
        &[0x4000_0002, 0x4000_0001, 0x8000_0000],
        &mut out,
    );
    assert_eq!(rt; visit.taken, 2);
    assert_eq!(rt; visit.refused, Some(Refusal::UnusedKind));
    assert_eq!(rt; (visit.written, visit.waiting), (1, 1));
    assert_eq!(rt; out, [lost, own, own]);
    assert_eq!(rt; visit.first, Ok(lost));
    assert_eq!(rt; watch.next_number(), 3);
    Ok(())
}

#[test]
fn two_cuts(rt: HostRuntime) -> Result<(), Fail> {
    let mut a = Watch::new(never_a()?);
    let mut b = Watch::new(never_a()?);
    let words = [1, 0x4000_0001, 0x4000_0000, 0xC000_0001, 0x4000_0000];
    let (first, second) = cut_in_two(&mut a, &mut b, &words, 1, 4);
    assert_eq!(rt; first, (3, Some(Refusal::EndPayload)));
    assert_eq!(rt; second, first);
    assert_eq!(rt; a.collect(), b.collect());
    Ok(())
}

/// The first notice in an answer.
fn notice_in(answer: PlayAnswer) -> Option<Notice> {
    match answer {
        PlayAnswer::Listed { out, .. } => Some(out[0]),
        PlayAnswer::Collected(notice) => notice.ok(),
        _ => None,
    }
}

#[test]
fn one_list_of_calls(rt: HostRuntime) -> Result<(), Fail> {
    let lost = Notice { seat: 1, number: 1 };
    let words = [0x4000_0001];
    let calls = [
        PlayCall::Deliver(&words),
        PlayCall::List { room: 2 },
        PlayCall::Collect,
    ];
    let mut xs = [PlayAnswer::Done(Ok(())); 3];
    let mut ys = [PlayAnswer::Done(Ok(())); 3];
    let (a, b) = play_twice(never_a()?, never_a()?, &calls, &mut xs, &mut ys);
    assert_eq!(rt; notice_in(xs[1]), Some(lost));
    assert_eq!(rt; notice_in(ys[2]), Some(lost));
    assert_eq!(rt; a.next_number(), b.next_number());
    Ok(())
}
