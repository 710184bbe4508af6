//! Whether a rule, a branch or a row fails on a list of samples, by trying every position that its sentence speaks of.
//! Positions are counted from 1. Nothing is carried from one list to the next: there is no clock.
use crate::model::{Branch, Reading, Row, Rule, Sign};

/// A list of samples, as the sentences of the rules speak of it.
#[derive(Clone, Copy)]
struct Samples<'a>(&'a [Reading]);

impl Samples<'_> {
    /// Whether the sample at a position has the signal.
    fn has(self, i: usize, p: Sign) -> bool {
        i.checked_sub(1)
            .and_then(|before| self.0.get(before))
            .is_some_and(|reading| p.holds(*reading))
    }

    /// The time from i to j: the gaps of the samples behind i, up to j.
    fn span(self, i: usize, j: usize) -> u64 {
        self.0.iter().take(j).skip(i).fold(
            0u64,
            |time, reading| time.saturating_add(u64::from(reading.gap)),
        )
    }

    /// Whether some position is so.
    fn some<F: Fn(usize) -> bool>(self, so: F) -> bool
        requires { F.IsAlwaysCallable so }
    {
        (1..=self.0.len()).any(so)
    }

    /// Whether some two positions are so, the second not before the first.
    fn some_pair<F: Fn(usize, usize) -> bool>(self, so: F) -> bool
        requires { F.IsAlwaysCallable so }
    {
        (1..=self.0.len()).any(|i| (i..=self.0.len()).any(|j| so(i, j)))
    }

    // A signal and a limit, as each sentence names them: no rule is judged by another's.
    /// Some i has p.
    fn never(self, p: Sign) -> bool {
        self.some(|i| self.has(i, p))
    }

    /// Some i with d(1,i) >= T has p.
    fn never_from(self, p: Sign, limit: u64) -> bool {
        self.some(|i| self.span(1, i) >= limit && self.has(i, p))
    }

    /// For some a < c: p holds at a to c-1 and not at c; a is 1, or p does not hold at a-1; and d(a,c) < T.
    fn hold_least(self, p: Sign, limit: u64) -> bool {
        self.some_pair(|a, c| {
            a < c
                && (a..c).all(|k| self.has(k, p))
                && !self.has(c, p)
                && (a == 1 || !self.has(a.saturating_sub(1), p))
                && self.span(a, c) < limit
        })
    }

    /// For some a <= b: p holds at all of a to b, and d(a,b) >= T.
    fn hold_under(self, p: Sign, limit: u64) -> bool {
        self.some_pair(|a, b| (a..=b).all(|k| self.has(k, p)) && self.span(a, b) >= limit)
    }

    /// For some i < j: i is 1 or has p; d(i,j) > T; and no k with i < k <= j and d(i,k) <= T has p.
    fn repeat(self, p: Sign, limit: u64) -> bool {
        self.some_pair(|i, j| {
            i < j
                && (i == 1 || self.has(i, p))
                && self.span(i, j) > limit
                && !(i..=j).any(|k| i < k && self.span(i, k) <= limit && self.has(k, p))
        })
    }

    /// For some i < j: i has p; d(i,j) > T; and no k with i <= k <= j and d(i,k) <= T has s.
    fn answer(self, p: Sign, s: Sign, limit: u64) -> bool {
        self.some_pair(|i, j| {
            i < j
                && self.has(i, p)
                && self.span(i, j) > limit
                && !(i..=j).any(|k| self.span(i, k) <= limit && self.has(k, s))
        })
    }

    /// For some i <= j: i has p; d(i,j) < T; and s does not hold at j.
    fn keep(self, p: Sign, s: Sign, limit: u64) -> bool {
        self.some_pair(|i, j| self.has(i, p) && self.span(i, j) < limit && !self.has(j, s))
    }
}

/// The shortest opening of the list that is so, and what is left of the list behind it.
fn shortest<'a, F: Fn(&'a [Reading]) -> bool>(
    list: &'a [Reading],
    so: F,
) -> Option<(&'a [Reading], &'a [Reading])>
    requires { F.IsAlwaysCallable so }
{
    (0..=list.len())
        .filter_map(|n| list.split_at_checked(n))
        .find(|(opening, _)| so(opening))
}

impl Rule {
    fn fails(self, list: &[Reading]) -> bool {
        let list = Samples(list);
        match self {
            Rule::Never { p } => list.never(p),
            Rule::NeverFrom { p, limit } => list.never_from(p, limit.into()),
            Rule::HoldLeast { p, limit } => list.hold_least(p, limit.into()),
            Rule::HoldUnder { p, limit } => list.hold_under(p, limit.into()),
            Rule::Repeat { p, limit } => list.repeat(p, limit.into()),
            Rule::Answer { p, s, limit } => list.answer(p, s, limit.into()),
            Rule::Keep { p, s, limit } => list.keep(p, s, limit.into()),
        }
    }
}

impl Branch {
    /// The part of the list that the rule sees. Behind `after` it is that from the first sample that has the signal, if there is one.
    fn part(self, list: &[Reading]) -> Option<&[Reading]> {
        match self.after {
            Some(from) => {
                let first = list.iter().position(|reading| from.holds(*reading))?;
                list.get(first..)
            }
            None => Some(list),
        }
    }

    fn fails(self, list: &[Reading]) -> bool {
        self.part(list).is_some_and(|part| self.rule.fails(part))
    }
}

impl Row {
    /// Whether the row's one or two branches all fail: what `allow` counts.
    fn breaks(self, list: &[Reading]) -> bool {
        self.first.fails(list) && self.second.is_none_or(|second| second.fails(list))
    }

    /// What is left of the list behind the shortest opening that breaks, if one does.
    fn cut(self, list: &[Reading]) -> Option<&[Reading]> {
        let (_, rest) = shortest(list, |opening| self.breaks(opening))?;
        Some(rest)
    }

    /// Whether more failures are found, one behind another, than are allowed.
    fn fails(self, list: &[Reading]) -> bool {
        (0..=self.allow.unwrap_or(0))
            .try_fold(list, |rest, _| self.cut(rest))
            .is_some()
    }

    /// The shortest opening of the list that fails.
    pub(crate) fn lost_in(self, list: &[Reading]) -> Option<&[Reading]> {
        let (opening, _) = shortest(list, |opening| self.fails(opening))?;
        Some(opening)
    }
}
