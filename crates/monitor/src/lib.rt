//! Monitors: what judges a stream of samples one by one, and the seven rules as such.
//! A rule fails on a list of samples exactly where its quantified sentence holds, for every list.

#![tactic(auto)]

mod clock;
mod judging;
mod limit;
mod passing;
mod pattern;
mod rule;

pub use judging::Monitor;
pub use limit::Ticks;
pub use passing::judge_on;
pub use pattern::Pattern;
pub use rule::Rule;

#[cfg(test)]
mod tests {
    use super::*;
    use std::test::Fail;
    use stream::{Refusal, Sample, Signal};

    const A: u32 = 1;

    const B: u32 = 2;

    // The number of the sample at which the rule is lost, if it is; it has its like in the tests of layers, and tests of two crates share no code. A trace is a list of gaps and letters.
    fn lost_at(pattern: Pattern, trace: &[(u32, u32)]) -> Result<Option<usize>, Refusal> {
        let mut rule = Rule::new(pattern);
        for (i, (gap, letters)) in trace.iter().enumerate() {
            if rule.judge(Sample::new(*gap, *letters)?) {
                return Ok(Some(i + 1));
            }
        }
        Ok(None)
    }

    #[test]
    fn either_side_of_each_bound(rt: HostRuntime) -> Result<(), Fail> {
        let p = Signal::letter(0)?;
        let s = Signal::letter(1)?;
        let t = Ticks::new(5)?;
        let cases: [(Pattern, &[(u32, u32)], Option<usize>); 14] = [
            (Pattern::Never { p }, &[], None),
            (Pattern::Never { p }, &[(9, A)], Some(1)),
            (Pattern::NeverFrom { p, t }, &[(0, A), (4, A)], None),
            (
                Pattern::NeverFrom { p, t },
                &[(0, A), (4, A), (1, A)],
                Some(3),
            ),
            (Pattern::HoldLeast { p, t }, &[(0, A), (5, 0)], None),
            (Pattern::HoldLeast { p, t }, &[(0, A), (4, 0)], Some(2)),
            (Pattern::HoldUnder { p, t }, &[(0, A), (2, 0), (3, A)], None),
            (Pattern::HoldUnder { p, t }, &[(0, A), (5, A)], Some(2)),
            (Pattern::Repeat { p, t }, &[(0, 0), (5, A)], None),
            (Pattern::Repeat { p, t }, &[(0, 0), (6, A)], Some(2)),
            (Pattern::Answer { p, s, t }, &[(0, A), (5, B)], None),
            (Pattern::Answer { p, s, t }, &[(0, A), (6, B)], Some(2)),
            (Pattern::Keep { s, t, p }, &[(0, A + B), (5, 0)], None),
            (Pattern::Keep { s, t, p }, &[(0, A + B), (4, 0)], Some(2)),
        ];
        for (pattern, trace, lost) in cases {
            assert_eq!(rt; lost_at(pattern, trace)?, lost);
        }
        Ok(())
    }

    #[test]
    fn ways_to_go_astray(rt: HostRuntime) -> Result<(), Fail> {
        let p = Signal::letter(0)?;
        let s = Signal::letter(1)?;
        let t = Ticks::new(5)?;
        // a further p does not restart the clock
        assert_eq!(rt;
            lost_at(Pattern::Answer { p, s, t }, &[(0, A), (4, A), (2, B)])?,
            Some(3)
        );
        // a clock that wrapped would stand at 3
        assert_eq!(rt;
            lost_at(
                Pattern::HoldLeast { p, t },
                &[(0, A), (u32::MAX, A), (4, 0)],
            )?,
            None
        );
        assert!(rt; Ticks::new(1_000_000_000).is_err());
        Ok(())
    }
}
