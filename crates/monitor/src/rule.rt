ghost use Rattle.std.specs.Prelude.{◌≡◌, List, Decides, refl};
ghost use Rattle.stream.specs.declared.sample.Sample.{Sample};
ghost use Rattle.monitor.specs.Sentences.{Sentence};
ghost use Rattle.monitor.specs.Turns.{while, never_turn, never_from_turn, hold_least_turn, hold_under_turn, repeat_turn, answer_turn, keep_turn, turn_of, unjudged, fails_rule, fresh_rule};
ghost use Rattle.monitor.specs.Laws.{stays_on};

use crate::clock::{Clock, begun, later, passed, reached, short_of};
use crate::judging::Monitor;
use crate::limit::Ticks;
use crate::pattern::Pattern;
use stream::Sample;

/// What one sample does to a rule: the clock after it, and whether the rule fails at it.
#[derive(Clone, Copy)]
struct Turn {
    clock: Clock,
    fault: bool,
}

fn never(p: bool) -> Turn
    ensures { result ≡ never_turn p }
{
    Turn {
        clock: None,
        fault: p,
    }
}

// Clock, limit and signals go side by side: the clock is the rule's and the others its pattern's, and a struct of them would be made at each sample, to be taken apart again.
/// The clock runs since the first sample.
fn never_from(clock: Clock, t: Ticks, p: bool) -> Turn
    ensures { result ≡ never_from_turn clock t.value p }
{
    let clock = begun(clock);
    Turn {
        clock,
        fault: p && reached(clock, t),
    }
}

/// The clock runs while p holds, since p began to hold.
fn holding(clock: Clock, p: bool) -> Clock
    ensures { result ≡ while clock p }
{
    if p { begun(clock) } else { None }
}

fn hold_least(clock: Clock, t: Ticks, p: bool) -> Turn
    ensures { result ≡ hold_least_turn clock t.value p }
{
    Turn {
        clock: holding(clock, p),
        fault: !p && short_of(clock, t),
    }
}

fn hold_under(clock: Clock, t: Ticks, p: bool) -> Turn
    ensures { result ≡ hold_under_turn clock t.value p }
{
    let clock = holding(clock, p);
    Turn {
        clock,
        fault: reached(clock, t),
    }
}

/// The clock runs since the last p, or since the first sample. A p that comes late is a fault all the same.
fn repeat(clock: Clock, t: Ticks, p: bool) -> Turn
    ensures { result ≡ repeat_turn clock t.value p }
{
    let late = passed(clock, t);
    Turn {
        clock: if p { Some(0) } else { begun(clock) },
        fault: late,
    }
}

/// The clock runs since the first p after which no s came. A further p does not restart it.
fn answer(clock: Clock, t: Ticks, p: bool, s: bool) -> Turn
    ensures { result ≡ answer_turn clock t.value p s }
{
    let waiting = if p { begun(clock) } else { clock };
    Turn {
        clock: if s { None } else { waiting },
        fault: passed(clock, t),
    }
}

/// The clock runs since the last p.
fn keep(clock: Clock, t: Ticks, p: bool, s: bool) -> Turn
    ensures { result ≡ keep_turn clock t.value p s }
{
    let clock = if p { Some(0) } else { clock };
    Turn {
        clock,
        fault: !s && short_of(clock, t),
    }
}

/// A monitor that fails exactly by its pattern's sentence.
#[derive(Clone, Copy)]
pub struct Rule {
    pattern: Pattern,
    clock: Clock,
    /// A flag, and no enum of two states: a lost rule keeps its pattern, by which it is renewed.
    lost: bool,
}

impl Rule {
    /// A rule that has judged nothing.
    pub fn new(pattern: Pattern) -> Rule
        ensures meaning { (l : List Sample) → Decides (fresh_rule result l) (Sentence pattern l) }
        ensures made { (l : List Sample) → fails_rule result l ≡ fresh_rule result l }
    {
        Rule::unjudged(pattern)
    }

    fn unjudged(pattern: Pattern) -> Rule
        ensures { result ≡ unjudged pattern }
    {
        Rule {
            pattern,
            clock: None,
            lost: false,
        }
    }

    /// What a sample does to the rule as it stands.
    fn turn(&self, sample: Sample) -> Turn
        ensures { result ≡ turn_of self.now.pattern self.now.clock sample }
    {
        let clock = later(self.clock, sample.gap());
        match self.pattern {
            Pattern::Never { p } => never(p.holds(&sample)),
            Pattern::NeverFrom { p, t } => never_from(clock, t, p.holds(&sample)),
            Pattern::HoldLeast { p, t } => hold_least(clock, t, p.holds(&sample)),
            Pattern::HoldUnder { p, t } => hold_under(clock, t, p.holds(&sample)),
            Pattern::Repeat { p, t } => repeat(clock, t, p.holds(&sample)),
            Pattern::Answer { p, s, t } => answer(clock, t, p.holds(&sample), s.holds(&sample)),
            Pattern::Keep { s, t, p } => keep(clock, t, p.holds(&sample), s.holds(&sample)),
        }
    }
}

impl Monitor for Rule {
    ghost fails_now = { fails_rule };

    ghost fails_new = { fresh_rule };

    ghost lasting_now = { λ m l k h. stays_on l k m h };

    ghost lasting_new = { λ m l k h. stays_on l k (unjudged m.pattern) h };

    ghost starts = { λ m. refl };

    fn judge(&mut self, sample: Sample) -> bool {
        let turn = self.turn(sample);
        let lost = self.lost || turn.fault;
        *self = Rule {
            clock: turn.clock,
            lost,
            ..*self
        };
        lost
    }

    fn lost(&self) -> bool {
        self.lost
    }

    fn renew(&mut self) {
        *self = Rule::unjudged(self.pattern);
    }
}
