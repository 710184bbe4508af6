ghost use Rattle.std.specs.Prelude.{◌≡◌};
ghost use Rattle.monitor.specs.Clocks.{advanced, begun, reached, passed, short_of};

use crate::limit::Ticks;

/// A clock: while it runs, the ticks since the sample that a rule counts from. A reading stops at `u32::MAX`, which is above every limit, so that no gap makes it wrap.
pub type Clock = Option<u32>;

/// The clock so many ticks later.
pub(crate) fn later(clock: Clock, gap: u32) -> Clock
    ensures { result ≡ advanced clock gap }
{
    // `?`, and not `map`: by that a rule took a quarter longer to judge.
    Some(clock?.saturating_add(gap))
}

/// A running clock goes on, and a stopped one begins.
pub(crate) fn begun(clock: Clock) -> Clock
    ensures { result ≡ begun clock }
{
    clock.or(Some(0))
}

// Three questions of a clock and a limit, each a line: the limit is not the clock's own.
/// Whether it runs and has come to the limit.
pub(crate) fn reached(clock: Clock, limit: Ticks) -> bool
    ensures { result ≡ reached clock limit.value }
{
    clock.is_some_and(|ticks| ticks >= limit.get())
}

/// Whether it runs and has gone past the limit.
pub(crate) fn passed(clock: Clock, limit: Ticks) -> bool
    ensures { result ≡ passed clock limit.value }
{
    clock.is_some_and(|ticks| ticks > limit.get())
}

/// Whether it runs and has not come to the limit.
pub(crate) fn short_of(clock: Clock, limit: Ticks) -> bool
    ensures { result ≡ short_of clock limit.value }
{
    clock.is_some_and(|ticks| ticks < limit.get())
}
