//! The second watch: it keeps every sample that it took, and works out from them, when it is asked, which rows were lost and where.
use crate::model::{Reading, Row, Told};
use crate::refusal::Refusal;
use crate::talk::{Answers, ROOM, Reply};
use std::alloc::{AllocError, Global};

const LAST: u64 = 999_999_999_999;

/// What a word asks for, by its two top bits.
#[derive(Clone, Copy)]
enum Word {
    Gap(u32),
    Sample(u32),
    End(u32),
}

impl TryFrom<u32> for Word {
    type Error = Refusal;

    fn try_from(word: u32) -> Result<Word, Refusal> {
        let load = word % 0x4000_0000;
        match word / 0x4000_0000 {
            0 => Ok(Word::Gap(load)),
            1 => Ok(Word::Sample(load)),
            2 => Err(Refusal::KindTwo),
            _ => Ok(Word::End(load)),
        }
    }
}

/// How far the stream is: before its first word, between its words, or behind its last.
#[derive(Clone, Copy, PartialEq, Eq)]
enum Stage {
    Fresh,
    Begun,
    Ended,
}

#[derive(Drop)]
pub(crate) struct Second {
    heap: Global,
    rows: Vec<Row>,
    history: Vec<Reading>,
    collected: Vec<Told>,
    next: u64,
    /// The ticks since the last sample. The longest gap, 4,294,967,295, is the highest number of the type.
    gap: u32,
    stage: Stage,
}

/// The number of the last sample of an opening of the history, or 0 if that is empty.
fn last_number(opening: &[Reading]) -> u64 {
    opening.last().map_or(0, |reading| reading.number)
}

impl Second {
    pub(crate) fn new(heap: Global, rows: Vec<Row>) -> Second {
        Second {
            heap,
            rows,
            history: Vec::new(heap),
            collected: Vec::new(heap),
            next: 1,
            gap: 0,
            stage: Stage::Fresh,
        }
    }

    pub(crate) fn rows(&self) -> &[Row] {
        &self.rows
    }

    /// What the word asks for, if it may be taken.
    fn read(&self, word: u32) -> Result<Word, Refusal> {
        if self.stage == Stage::Ended {
            return Err(Refusal::Ended);
        }
        match Word::try_from(word)? {
            Word::Gap(load) if self.gap.checked_add(load).is_none() => Err(Refusal::LongGap),
            Word::Sample(load) if load >= 0x0100_0000 => Err(Refusal::Letters),
            Word::Sample(_) if self.next > LAST => Err(Refusal::Spent),
            Word::End(load) if load != 0 => Err(Refusal::Payload),
            Word::End(_) if self.gap != 0 => Err(Refusal::OpenGap),
            word => Ok(word),
        }
    }

    fn take(&mut self, word: Word) -> Result<(), AllocError> {
        self.stage = Stage::Begun;
        match word {
            Word::Gap(load) => self.gap = self.gap.saturating_add(load),
            Word::Sample(letters) => self.remember(letters)?,
            Word::End(_) => self.stage = Stage::Ended,
        }
        Ok(())
    }

    fn remember(&mut self, letters: u32) -> Result<(), AllocError> {
        self.history.push(Reading {
            number: self.next,
            gap: self.gap,
            letters,
        })?;
        self.gap = 0;
        self.next = self.next.saturating_add(1);
        Ok(())
    }

    /// The notice of each row that fails on the history, in the order of notices.
    pub(crate) fn losses(&self) -> Result<Vec<Told>, AllocError> {
        let mut losses: Vec<Told> = (1..=u8::MAX)
            .zip(self.rows.iter())
            .filter_map(|(seat, row)| {
                let number = last_number(row.lost_in(&self.history)?);
                Some(Told { number, seat })
            })
            .collect(self.heap)?;
        losses.sort()?;
        Ok(losses)
    }

    fn waiting(&self) -> Result<Vec<Told>, AllocError> {
        let mut waiting = self.losses()?;
        waiting.retain(|told| !self.collected.contains(told));
        Ok(waiting)
    }
}

impl Answers for Second {
    type Error = AllocError;

    fn begin(&mut self, number: u64) -> Result<Reply, AllocError> {
        let begun = if self.stage != Stage::Fresh {
            Err(Refusal::Late)
        } else if number == 0 || number > LAST {
            Err(Refusal::BadNumber)
        } else {
            self.next = number;
            Ok(())
        };
        Ok(Reply::Begun(begun))
    }

    fn deliver(&mut self, piece: &[u32]) -> Result<Reply, AllocError> {
        for (taken, word) in piece.iter().enumerate() {
            match self.read(*word) {
                Ok(word) => self.take(word)?,
                Err(refusal) => return Ok(Reply::Taken(taken, Some(refusal))),
            }
        }
        Ok(Reply::Taken(piece.len(), None))
    }

    fn list(&self, room: usize) -> Result<Reply, AllocError> {
        let waiting = self.waiting()?;
        let mut out = [None; ROOM];
        for (record, told) in out.iter_mut().take(room).zip(waiting.iter()) {
            *record = Some(*told);
        }
        Ok(Reply::Listed {
            written: room.min(waiting.len()),
            waiting: waiting.len(),
            out,
        })
    }

    fn collect(&mut self) -> Result<Reply, AllocError> {
        let told = self.waiting()?.first().copied().ok_or(Refusal::Nothing);
        if let Ok(told) = told {
            self.collected.push(told)?;
        }
        Ok(Reply::Collected(told))
    }

    fn next_number(&self) -> u64 {
        self.next
    }
}
