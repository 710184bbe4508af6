use crate::limit::Ticks;
use stream::Signal;

/// The seven kinds of rule, over signals p and s and a limit t.
#[derive(Clone, Copy, PartialEq, Eq, Debug)]
pub enum Pattern {
    /// never p
    Never { p: Signal },
    /// never p from t
    NeverFrom { p: Signal, t: Ticks },
    /// hold p least t
    HoldLeast { p: Signal, t: Ticks },
    /// hold p under t
    HoldUnder { p: Signal, t: Ticks },
    /// repeat p within t
    Repeat { p: Signal, t: Ticks },
    /// answer p by s within t
    Answer { p: Signal, s: Signal, t: Ticks },
    /// keep s for t since p
    Keep { s: Signal, t: Ticks, p: Signal },
}
