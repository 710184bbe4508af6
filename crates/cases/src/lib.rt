//! The cases that the rules mark on either side of a bound, one table of them.
//! Each follows from what the rules say: the sentences of a line, and the checks of a word.

#![tactic(auto)]

ghost use Rattle.cases.specs.Cases.{MarkedCases};

/// The marked cases, on either side of each bound, follow from the sentences.
pub fn marked_cases()
    ensures { MarkedCases }
{}
