ghost use Rattle.std.specs.Prelude.{◌≡◌, ℕ, ◌≤◌, [], ◌∷◌, length};
ghost use Rattle.panel.specs.Panels.{PanelAfter};
ghost use Rattle.watch.specs.Ledgers.{by_seat};
ghost use Rattle.watch.specs.Seats.{SeatsAfter};
ghost use Rattle.watch.specs.Account.{account, Made, Opened, Delivered, Collected, Listed};
ghost use Rattle.watch.specs.Words.{count_in, refusal_in};

use crate::ledger::Ledger;
use crate::notice::Notice;
use crate::watch::Watch;
use panel::Panel;
use stream::{Feed, Numbered, Refusal};

impl<P: Panel> Watch<P> {
    /// A watch on a panel, before any word. A seat that the panel has lost already has number 0.
    pub fn new(panel: P) -> Watch<P>
        ensures { Made (P.meaning panel) (account P.meaning result) }
    {
        let ledger = Ledger::new(panel.lost());
        Watch {
            panel,
            feed: Feed::new(),
            ledger,
        }
    }

    /// Numbers the samples from `number` on, while no word was taken.
    pub fn begin(&mut self, number: u64) -> Result<(), Refusal>
        ensures { Opened (account P.meaning self.old) number (account P.meaning self.new) result }
    {
        self.feed.begin(number)
    }

    /// Takes the words of a piece in turn, up to the first that is refused. Answers how many were taken, and the refusal if there is one.
    // A pair, and no `Result`: that form is fixed, and so is that of `list`.
    pub fn deliver(&mut self, piece: &[u32]) -> (usize, Option<Refusal>)
        ensures { Delivered (account P.meaning self.old) piece.now (account P.meaning self.new) result.0 result.1 }
    {
        for (taken, word) in piece.iter().enumerate() {
            if let Err(refusal) = self.take(*word) {
                return (taken, Some(refusal));
            }
        }
        (piece.len(), None)
    }

    fn take(&mut self, word: u32) -> Result<(), Refusal>
        ensures { Delivered (account P.meaning self.old) (word ∷ []) (account P.meaning self.new) (count_in result) (refusal_in result) }
    {
        if let Some(numbered) = self.feed.take(word)? {
            self.judge(numbered);
        }
        Ok(())
    }

    /// Has the panel judge a sample, and numbers the seats that it newly loses.
    fn judge(&mut self, numbered: Numbered)
        ensures feed { self.new.feed ≡ self.old.feed }
        ensures panel { PanelAfter (P.meaning self.old.panel) (numbered.sample ∷ []) (P.meaning self.new.panel) }
        ensures seats { SeatsAfter (P.meaning self.old.panel) (numbered ∷ []) (by_seat self.old.ledger) (by_seat self.new.ledger) }
    {
        let lost = self.panel.judge(numbered.sample);
        self.ledger.enter(lost, numbered.number);
    }

    /// Takes the first waiting notice away, and answers it.
    pub fn collect(&mut self) -> Result<Notice, Refusal>
        ensures { Collected (account P.meaning self.old) (account P.meaning self.new) result }
    {
        let notice = self.ledger.next(None).ok_or(Refusal::NothingWaits)?;
        self.ledger.collect(notice.seat);
        Ok(notice)
    }

    /// The number that the next sample will have.
    pub fn next_number(&self) -> u64
        ensures { (result ≡ (account P.meaning self.now).feed.next) × (1 ≤ result) }
    {
        self.feed.next_number()
    }

    /// Writes the waiting notices into `out`, by number and then seat, as far as it reaches. Answers how many were written, and how many wait.
    pub fn list(&self, out: &mut [Notice]) -> (usize, usize)
        ensures listed { Listed (account P.meaning self.now) out.old out.new result.0 result.1 }
        ensures few { (result.0 ≤ length out.old) × (result.1 ≤ 64) }
    {
        self.ledger.list(out)
    }
}
