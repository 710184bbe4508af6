ghost use Rattle.std.specs.Prelude.{◌≡◌, ℕ, [], ◌∷◌};
ghost use Rattle.panel.specs.Seating.{has_seat};

use crate::judging::Panel;
use crate::seats::Seats;
use crate::solo::Solo;
use monitor::{Monitor, Pattern, Rule};
use std::test::Fail;
use stream::{Sample, Signal};

#[test]
fn first_and_last(rt: HostRuntime) {
    let ends = Seats::only(1).union(Seats::only(64));
    assert!(rt; ends.has(1) && ends.has(64) && !ends.has(2));
    assert_eq!(rt; ends.count(), 2);
    let last = ends.without(Seats::only(1));
    assert!(rt; !last.has(1) && last.has(64));
}

#[test]
fn no_seat(rt: HostRuntime) {
    let odd = Seats::only(0).union(Seats::only(65));
    assert!(rt; odd.is_empty() && !odd.has(0) && !odd.has(65));
    assert!(rt; !Seats::only(64).is_empty());
}

/// What any panel answers at one sample and then at another: the seats lost on the first, and on both.
fn judge_two<P: Panel>(panel: &mut P, first: Sample, second: Sample) -> (Seats, Seats)
    ensures one { (k : ℕ) → has_seat result.0 k ≡ (P.meaning panel.old).lost (first ∷ []) k }
    ensures both { (k : ℕ) → has_seat result.1 k ≡ (P.meaning panel.old).lost (first ∷ second ∷ []) k }
{
    let one = panel.judge(first);
    (one, panel.judge(second))
}

#[test]
fn never_a(rt: HostRuntime) -> Result<(), Fail> {
    let p = Signal::letter(0)?;
    let mut panel = Solo::new(Rule::new(Pattern::Never { p }));
    let (before, at) = judge_two(&mut panel, Sample::new(0, 2)?, Sample::new(1, 1)?);
    assert!(rt; before.is_empty());
    assert!(rt; at.has(1));
    assert_eq!(rt; at.count(), 1);
    assert_eq!(rt; panel.lost().count(), 1);
    assert_eq!(rt; panel.seats(), 1);
    Ok(())
}
