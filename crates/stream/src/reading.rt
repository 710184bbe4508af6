ghost use Rattle.std.specs.Prelude.{◌≡◌, ◌+◌, ◌^◌, ◌<◌, ◌≤◌, true, false};
ghost use Rattle.stream.specs.Words.{is_ended, state_of, unread, Took, Began};

use crate::feed::{Feed, LAST_NUMBER, Stage};
use crate::numbered::Numbered;
use crate::refusal::Refusal;
use crate::sample::Sample;

impl Stage {
    fn is_ended(self) -> bool
        ensures { result ≡ is_ended self }
    {
        self == Stage::Ended
    }
}

impl Feed {
    /// Before any word: the first sample will have number 1.
    pub fn new() -> Feed
        ensures { state_of result ≡ unread }
    {
        Feed {
            next: 1,
            pending: 0,
            stage: Stage::Unread,
        }
    }

    /// Numbers the samples from `number` on, while no word was taken.
    pub fn begin(&mut self, number: u64) -> Result<(), Refusal>
        ensures { Began (state_of self.old) number result (state_of self.new) }
    {
        if self.stage != Stage::Unread {
            return Err(Refusal::WordTaken);
        }
        if number == 0 || number > LAST_NUMBER {
            return Err(Refusal::BadStart);
        }
        self.next = number;
        Ok(())
    }

    /// The number that the next sample will have.
    pub fn next_number(&self) -> u64
        ensures { (result ≡ (state_of self.now).next) × (1 ≤ result) }
    {
        let Feed { next, .. } = self;
        *next
    }

    /// Takes one word. Answers the sample that it completes, if it completes one; a refused word alters nothing.
    pub fn take(&mut self, word: u32) -> Result<Option<Numbered>, Refusal>
        ensures { Took (state_of self.old) word result (state_of self.new) }
    {
        // Numbers for the kinds, in a `match` with guards: that form is fixed.
        let load = word % 0x4000_0000;
        match word >> 30 {
            _ if self.stage.is_ended() => Err(Refusal::StreamEnded),
            0 if load > u32::MAX - self.pending => Err(Refusal::GapTooLong),
            0 => {
                self.lengthen(load);
                Ok(None)
            }
            1 if load >> 24 != 0 => Err(Refusal::HighLetter),
            1 if self.next > LAST_NUMBER => Err(Refusal::NumbersSpent),
            1 => Ok(Some(self.complete(load))),
            2 => Err(Refusal::UnusedKind),
            _ if load != 0 => Err(Refusal::EndPayload),
            _ if self.pending != 0 => Err(Refusal::GapAtEnd),
            _ => {
                self.close();
                Ok(None)
            }
        }
    }

    /// A gap word: its ticks join the pending gap.
    fn lengthen(&mut self, ticks: u32)
        requires { self.old.pending + ticks < 2 ^ 32 }
        ensures { state_of self.new ≡ record { next = self.old.next; pending = self.old.pending + ticks; begun = true; ended = false } }
    {
        self.pending += ticks;
        self.stage = Stage::Begun;
    }

    /// A letter word: the sample of the pending gap and these letters.
    // That they are low was found among the checks of the word, whose order is fixed: to make the sample first would test them out of their turn.
    fn complete(&mut self, letters: u32) -> Numbered
        requires low { letters < 2 ^ 24 }
        requires room { self.old.next ≤ 999999999999 }
        ensures number { result.number ≡ self.old.next }
        ensures sample { (result.sample.gap ≡ self.old.pending) × (result.sample.letters ≡ letters) }
        ensures state { state_of self.new ≡ record { next = self.old.next + 1; pending = 0; begun = true; ended = false } }
    {
        let number = self.next;
        let sample = Sample::new(self.pending, letters).unwrap();
        self.next += 1;
        self.pending = 0;
        self.stage = Stage::Begun;
        Numbered { number, sample }
    }

    /// An end word.
    fn close(&mut self)
        ensures { state_of self.new ≡ record { next = self.old.next; pending = self.old.pending; begun = true; ended = true } }
    {
        self.stage = Stage::Ended;
    }
}
