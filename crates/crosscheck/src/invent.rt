//! What a story is made of: a book's rows and a stream's words, at random, but so that samples fall near the bounds of the rules.
use crate::model::{Branch, Row, Rule, Sign};
use crate::random::Random;
use crate::refusal::Refusal;
use std::alloc::{AllocError, Global};

/// How many rows a book has at most.
pub(crate) const MOST_ROWS: usize = 64;

/// How many bytes a text has at most.
const LONGEST_TEXT: usize = 8192;

const HIGHEST_LIMIT: u32 = 999_999_999;

/// The highest load of a word.
const FULL: u32 = 0x3FFF_FFFF;

const SAMPLE: u32 = 0x4000_0000;

const UNUSED: u32 = 0x8000_0000;

const END: u32 = 0xC000_0000;

/// Invents one story.
#[derive(Drop)]
pub(crate) struct Inventor {
    heap: Global,
    pub(crate) random: Random,
    /// The few letters and the time limit that most of the story turns on.
    letters: [u8; 3],
    limit: u32,
}

/// A text that is no book, made from one that is, and its fault.
#[derive(Drop)]
pub(crate) struct Spoiled {
    pub(crate) text: String,
    pub(crate) fault: Refusal,
}

impl Inventor {
    pub(crate) fn new(heap: Global, story: u32) -> Inventor {
        let mut random = Random::new(u64::from(story));
        let letters = [random.letter(), random.letter(), random.letter()];
        let limit = match random.upto(9) {
            0 => HIGHEST_LIMIT,
            1 => random.upto(HIGHEST_LIMIT),
            2 => 0,
            _ => random.upto(7),
        };
        Inventor {
            heap,
            random,
            letters,
            limit,
        }
    }

    fn sign(&mut self) -> Sign {
        let [often, sometimes, seldom] = self.letters;
        let letter = match self.random.upto(8) {
            0 => None,
            1 | 2 => Some(seldom),
            3 | 4 | 5 => Some(sometimes),
            _ => Some(often),
        };
        let opposite = self.random.once_in(3);
        Sign { letter, opposite }
    }

    fn limit(&mut self) -> u32 {
        match self.random.upto(9) {
            0 => 0,
            1 => self.random.upto(9),
            2 => HIGHEST_LIMIT,
            3 => self.limit.saturating_add(1).min(HIGHEST_LIMIT),
            _ => self.limit,
        }
    }

    fn rule(&mut self) -> Rule {
        let p = self.sign();
        let s = self.sign();
        let limit = self.limit();
        match self.random.upto(6) {
            0 => Rule::Never { p },
            1 => Rule::NeverFrom { p, limit },
            2 => Rule::HoldLeast { p, limit },
            3 => Rule::HoldUnder { p, limit },
            4 => Rule::Repeat { p, limit },
            5 => Rule::Answer { p, s, limit },
            _ => Rule::Keep { p, s, limit },
        }
    }

    fn branch(&mut self) -> Branch {
        let after = self.random.once_in(3).then(|| self.sign());
        let rule = self.rule();
        Branch { after, rule }
    }

    fn row(&mut self, number: u16) -> Row {
        let first = self.branch();
        let second = self.random.once_in(3).then(|| self.branch());
        let allow = self.allowance();
        Row {
            number,
            first,
            second,
            allow,
        }
    }

    fn allowance(&mut self) -> Option<u8> {
        match self.random.upto(19) {
            0 => Some(0),
            1..=4 => Some(1),
            5..=7 => Some(2),
            8 => Some(3),
            9 => Some(255),
            _ => None,
        }
    }

    /// One to six rows, or seldom up to 64, with clause numbers that rise to 9,990 at most.
    pub(crate) fn rows(&mut self) -> Result<Vec<Row>, AllocError> {
        let mut rows = Vec::new(self.heap);
        let (count, step) = match self.random.upto(99) {
            0 => (64, 155),
            1 => (1 + self.random.upto(63), 155),
            _ => (1 + self.random.upto(5), 1664),
        };
        let mut number: u16 = 0;
        for _ in 0..count {
            number = number.saturating_add(1 + self.random.upto(step) as u16);
            rows.push(self.row(number))?;
        }
        Ok(rows)
    }

    /// A text that is no book, made from one that has so many rows.
    pub(crate) fn spoiled(&mut self, book: &str, rows: usize) -> Result<Spoiled, AllocError> {
        let heap = self.heap;
        let (text, fault) = match self.random.upto(6) {
            0 => (String::new(heap), Refusal::NoText),
            1 => (format!(in heap; "{book:>8193}")?, Refusal::LongText),
            2 => (format!(in heap; "{book}10000 never a")?, Refusal::OpenLine),
            3 => (
                format!(in heap; "{book}9999 never y\n")?,
                Refusal::StrayWord,
            ),
            4 => (
                format!(in heap; "{book}9999 hold a least\n")?,
                Refusal::MissingWord,
            ),
            5 => (format!(in heap; "{book}\n")?, Refusal::NoNumber),
            _ => (format!(in heap; "{book}{book}")?, Refusal::NotRising),
        };
        // the faults of the text as a whole come first, and a row too many before what it says
        let fault = match fault {
            _ if text.len() > LONGEST_TEXT => Refusal::LongText,
            _ if fault > Refusal::OpenLine && rows == MOST_ROWS => Refusal::ManyRows,
            _ => fault,
        };
        Ok(Spoiled { text, fault })
    }

    /// A gap near the limit, or none, or one that is very long.
    fn gap(&mut self) -> u32 {
        match self.random.upto(15) {
            0 | 1 => 0,
            2 => 1,
            3 | 4 => self.limit,
            5 | 6 => self.limit.saturating_add(1),
            7 | 8 => self.limit.saturating_sub(1),
            9 => self.limit / 2,
            10 => self.long_gap(),
            _ => self.random.upto(self.limit),
        }
    }

    fn long_gap(&mut self) -> u32 {
        match self.random.upto(4) {
            0 => FULL,
            1 => FULL + 1,
            2 => u32::MAX,
            3 => u32::MAX - 1,
            _ => self.random.upto(u32::MAX),
        }
    }

    fn letters(&mut self) -> u32 {
        let mut letters: u32 = 0;
        for bit in self.letters {
            if self.random.once_in(2) {
                letters |= 1u32.wrapping_shl(u32::from(bit));
            }
        }
        if self.random.once_in(8) {
            letters |= 1u32.wrapping_shl(self.random.upto(23));
        }
        letters
    }

    /// The words of a stream, sound or not.
    pub(crate) fn words(&mut self) -> Result<Vec<u32>, AllocError> {
        let mut words = Vec::new(self.heap);
        for _ in 0..4 + self.random.upto(14) {
            if self.random.once_in(6) {
                self.push_damage(&mut words)?;
            } else {
                self.push_sample(&mut words)?;
            }
        }
        if self.random.once_in(2) {
            words.push(END)?;
            self.push_sample(&mut words)?;
            self.push_damage(&mut words)?;
        }
        Ok(words)
    }

    fn push_sample(&mut self, words: &mut Vec<u32>) -> Result<(), AllocError> {
        let gap = self.gap();
        self.push_gap(gap, words)?;
        words.push(SAMPLE | self.letters())?;
        Ok(())
    }

    /// Words of which one is to be turned away, at least mostly.
    fn push_damage(&mut self, words: &mut Vec<u32>) -> Result<(), AllocError> {
        let load = self.random.upto(FULL);
        match self.random.upto(5) {
            0 => words.push(UNUSED | load)?,
            1 => {
                let gap = self.gap();
                self.push_gap(gap, words)?;
                words.push(SAMPLE | 1u32.wrapping_shl(24 + self.random.upto(5)) | self.letters())?;
            }
            2 => words.push(END | 1u32.wrapping_shl(self.random.upto(29)))?,
            3 => {
                let gap = self.gap().max(1);
                self.push_gap(gap, words)?;
                words.push(END)?;
            }
            _ => self.push_overlong(words)?,
        }
        Ok(())
    }

    /// The words of a gap. A short one is sometimes cut in two, or has a word with no load.
    fn push_gap(&mut self, gap: u32, words: &mut Vec<u32>) -> Result<(), AllocError> {
        let mut left = gap;
        // the longest gap has four full words, and a rest
        for _ in 0..4 {
            if left > FULL {
                words.push(FULL)?;
                left -= FULL;
            }
        }
        if self.random.once_in(5) {
            let part = self.random.upto(left);
            words.push(part)?;
            left -= part;
        }
        if left > 0 || self.random.once_in(9) {
            words.push(left)?;
        }
        Ok(())
    }

    /// A gap that may pass the longest by a tick, or by much, and a sample behind it.
    fn push_overlong(&mut self, words: &mut Vec<u32>) -> Result<(), AllocError> {
        let tick = self.random.upto(1);
        let more = self.random.upto(FULL);
        words.extend_from_slice(&[FULL, FULL, FULL, FULL, 3, tick, more, SAMPLE])
    }

    /// A number for `begin`.
    pub(crate) fn start(&mut self) -> u64 {
        match self.random.upto(9) {
            0 => 0,
            1 => 1,
            2 | 3 => 65_535,
            4 => 1_000_000_000_000 + u64::from(self.random.upto(2)),
            5 => u64::MAX,
            6 => u64::from(self.random.upto(u32::MAX)),
            _ => 999_999_999_999 - u64::from(self.random.upto(6)),
        }
    }
}
