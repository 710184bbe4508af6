use crate::{After, Allow, Either};
use monitor::{Monitor, Pattern, Rule};
use std::test::Fail;
use stream::{Refusal, Sample, Signal};

const A: u32 = 1;

const B: u32 = 2;

const C: u32 = 4;

fn never(bit: u8) -> Result<Rule, Refusal> {
    Ok(Rule::new(Pattern::Never {
        p: Signal::letter(bit)?,
    }))
}

// It has its like in the tests of monitor: tests of two crates share no code.
/// The number of the sample at which a monitor that is begun as new is lost, if it is, on samples of these letters.
fn lost_at<M: Monitor>(monitor: &mut M, letters: &[u32]) -> Result<Option<usize>, Refusal> {
    monitor.renew();
    for (i, set) in letters.iter().enumerate() {
        if monitor.judge(Sample::new(1, *set)?) {
            return Ok(Some(i + 1));
        }
    }
    Ok(None)
}

#[test]
fn each_layer_at_its_bound(rt: HostRuntime) -> Result<(), Fail> {
    let mut after = After::new(Signal::letter(2)?, never(0)?);
    assert_eq!(rt; lost_at(&mut after, &[A, 0])?, None);
    assert_eq!(rt; lost_at(&mut after, &[A, 0, A | C])?, Some(3));
    let mut allow = Allow::new(1, never(0)?);
    assert_eq!(rt; lost_at(&mut allow, &[A])?, None);
    assert_eq!(rt; lost_at(&mut allow, &[A, A])?, Some(2));
    let mut either = Either::new(never(0)?, never(1)?);
    assert_eq!(rt; lost_at(&mut either, &[A, A])?, None);
    assert_eq!(rt; lost_at(&mut either, &[A, 0, B])?, Some(3));
    Ok(())
}

#[test]
fn layers_on_layers(rt: HostRuntime) -> Result<(), Fail> {
    let after = After::new(Signal::letter(2)?, never(0)?);
    let mut clause = Allow::new(1, Either::new(after, never(1)?));
    assert_eq!(rt; lost_at(&mut clause, &[A | B | C, A | B, C])?, None);
    assert_eq!(rt; lost_at(&mut clause, &[A | B | C, A | B, A | C])?, Some(3));
    Ok(())
}
