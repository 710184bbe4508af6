//! What the stories met, counted.
use crate::model::{Branch, Row, Rule, Sign, Told};
use crate::refusal::Refusal;
use std::alloc::{AllocError, Global};
use std::collections::BTreeMap;
use std::fmt;
use std::num::Saturating;

/// What a row can have in it: one of the seven rules, of three layers and of two signs.
#[derive(Clone, Copy, PartialEq, Eq, PartialOrd, Ord)]
enum Part {
    Never,
    NeverFrom,
    HoldLeast,
    HoldUnder,
    Repeat,
    Answer,
    Keep,
    After,
    Or,
    Allow,
    Every,
    Opposite,
}

impl From<Rule> for Part {
    fn from(rule: Rule) -> Part {
        match rule {
            Rule::Never { .. } => Part::Never,
            Rule::NeverFrom { .. } => Part::NeverFrom,
            Rule::HoldLeast { .. } => Part::HoldLeast,
            Rule::HoldUnder { .. } => Part::HoldUnder,
            Rule::Repeat { .. } => Part::Repeat,
            Rule::Answer { .. } => Part::Answer,
            Rule::Keep { .. } => Part::Keep,
        }
    }
}

impl fmt::Display for Part {
    fn fmt<W: fmt::Write>(&self, f: &mut fmt::Formatter<W>) -> fmt::Result {
        f.write_str(match self {
            Part::Never => "never",
            Part::NeverFrom => "never from",
            Part::HoldLeast => "hold least",
            Part::HoldUnder => "hold under",
            Part::Repeat => "repeat",
            Part::Answer => "answer",
            Part::Keep => "keep",
            Part::After => "after",
            Part::Or => "or",
            Part::Allow => "allow",
            Part::Every => "*",
            Part::Opposite => "!",
        })
    }
}

/// A count, which would stop at the highest number.
type Count = Saturating<u64>;

/// How often something stood in a row, and how often in a row that was lost.
#[derive(Clone, Copy, Default)]
struct Met {
    rows: Count,
    lost: Count,
}

impl fmt::Display for Met {
    fn fmt<W: fmt::Write>(&self, f: &mut fmt::Formatter<W>) -> fmt::Result {
        write!(f, "{}, lost {}", self.rows, self.lost)
    }
}

#[derive(Drop)]
pub(crate) struct Tally {
    stories: Count,
    calls: Count,
    losses: Count,
    refusals: Count,
    differ: Count,
    parts: BTreeMap<Part, Met>,
    by_refusal: BTreeMap<Refusal, Count>,
}

impl Tally {
    pub(crate) fn new(heap: Global) -> Tally {
        Tally {
            stories: Count::default(),
            calls: Count::default(),
            losses: Count::default(),
            refusals: Count::default(),
            differ: Count::default(),
            parts: BTreeMap::new(heap),
            by_refusal: BTreeMap::new(heap),
        }
    }

    pub(crate) fn differs(&mut self) {
        self.differ += 1;
    }

    /// Counts a call, with its refusal.
    pub(crate) fn called(&mut self, refusal: Option<Refusal>) -> Result<(), AllocError> {
        self.calls += 1;
        match refusal {
            Some(refusal) => self.refused(refusal),
            None => Ok(()),
        }
    }

    /// Counts a refusal of a call, or of a text that is no book.
    pub(crate) fn refused(&mut self, refusal: Refusal) -> Result<(), AllocError> {
        self.refusals += 1;
        *self.by_refusal.entry(refusal)?.or_default() += 1;
        Ok(())
    }

    /// Counts a story with what stands in its rows, and which of them were lost.
    pub(crate) fn story(&mut self, rows: &[Row], losses: &[Told]) -> Result<(), AllocError> {
        self.stories += 1;
        for (seat, row) in (1..=u8::MAX).zip(rows) {
            let lost = losses.iter().any(|told| told.seat == seat);
            self.losses += u64::from(lost);
            let mut counter = Counter {
                parts: &mut self.parts,
                lost,
            };
            counter.row(row)?;
        }
        Ok(())
    }
}

impl fmt::Display for Tally {
    fn fmt<W: fmt::Write>(&self, f: &mut fmt::Formatter<W>) -> fmt::Result {
        writeln!(f, "stories {}", self.stories)?;
        writeln!(f, "calls {}", self.calls)?;
        writeln!(f, "losses {}", self.losses)?;
        writeln!(f, "refusals {}", self.refusals)?;
        for (part, met) in self.parts.iter() {
            writeln!(f, "{part} {met}")?;
        }
        for (refusal, count) in self.by_refusal.iter() {
            writeln!(f, "{refusal} {count}")?;
        }
        write!(f, "differ {}", self.differ)
    }
}

/// Counts what stands in one row, which was lost or not.
#[derive(Drop)]
struct Counter<'a> {
    parts: &'a mut BTreeMap<Part, Met>,
    lost: bool,
}

impl Counter<'_> {
    fn row(&mut self, row: &Row) -> Result<(), AllocError> {
        self.branch(row.first)?;
        if let Some(second) = row.second {
            self.branch(second)?;
            self.part(Part::Or)?;
        }
        if row.allow.is_some() {
            self.part(Part::Allow)?;
        }
        Ok(())
    }

    fn branch(&mut self, branch: Branch) -> Result<(), AllocError> {
        if let Some(from) = branch.after {
            self.part(Part::After)?;
            self.sign(from)?;
        }
        self.part(branch.rule.into())?;
        match branch.rule {
            Rule::Answer { p, s, .. } | Rule::Keep { p, s, .. } => {
                self.sign(p)?;
                self.sign(s)
            }
            Rule::Never { p }
            | Rule::NeverFrom { p, .. }
            | Rule::HoldLeast { p, .. }
            | Rule::HoldUnder { p, .. }
            | Rule::Repeat { p, .. } => self.sign(p),
        }
    }

    fn sign(&mut self, sign: Sign) -> Result<(), AllocError> {
        if sign.letter.is_none() {
            self.part(Part::Every)?;
        }
        if sign.opposite {
            self.part(Part::Opposite)?;
        }
        Ok(())
    }

    fn part(&mut self, part: Part) -> Result<(), AllocError> {
        let met = self.parts.entry(part)?.or_default();
        met.rows += 1;
        met.lost += u64::from(self.lost);
        Ok(())
    }
}
