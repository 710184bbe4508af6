//! The tests of the report, of readable traces, and of programs that call a watch by themselves, a file for each. A crate with tests is proved
//! twice, so these stand in one of their own.

#![tactic(auto)]

#[cfg(test)]
mod reports;
#[cfg(test)]
mod rowing;
#[cfg(test)]
mod visiting;
