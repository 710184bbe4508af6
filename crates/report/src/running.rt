ghost use Rattle.std.specs.Prelude.{◌≡◌, [], ◌∷◌, length, MatchResult};
ghost use Rattle.grammar.specs.Books.{BookFault};
ghost use Rattle.stream.specs.Traces.{fed_by};
ghost use Rattle.report.specs.Reports.{stop_by, last_line, Reported};
ghost use Rattle.report.specs.Runs.{Follows, WhereFollows, GoesOn, bytes_on};

use crate::page::Page;
use crate::run::{Ending, Run};
use grammar::Fault;
use stream::{Assembler, Refusal};
use terms_watch::open;
use watch::Notice;

impl Run {
    /// A run on the book of a text, before any byte of its trace.
    pub fn new(text: &[u8]) -> Result<Run, Fault>
        ensures { MatchResult result (λ run. Follows text.now [] run) (λ f. BookFault text.now f) }
    {
        let (watch, terms) = open(text)?;
        Ok(Run {
            watch,
            terms,
            held: Assembler::new(),
            refused: None,
        })
    }

    /// Goes on with the bytes that follow.
    pub fn read(&mut self, bytes: &[u8])
        ensures { GoesOn self.old bytes.now self.new }
    {
        for byte in bytes {
            self.push(*byte);
        }
    }

    fn push(&mut self, byte: u8)
        ensures { GoesOn self.old (byte ∷ []) self.new }
    {
        if self.refused.is_some() {
            return;
        }
        if let Some(word) = self.held.push(byte) {
            let (_, refused) = self.watch.deliver(&[word]);
            self.refused = refused;
        }
    }

    /// Why the run stops, if it does, where the reading of its trace ends so.
    pub fn stop(&self, end: Ending) -> Option<Refusal>
        ensures { WhereFollows self.now (λ text bytes. result ≡ stop_by bytes end) }
    {
        let at_end = match end {
            Ending::Complete => self.held.finish().err(),
            Ending::Unreadable => Some(Refusal::UnreadableFile),
        };
        self.refused.or(at_end)
    }

    /// The last line, where the reading of the trace ends so.
    fn last_line(&self, end: Ending) -> [u8; 17]
        ensures { WhereFollows self.now (λ text bytes. result ≡ last_line (stop_by bytes end) (length (fed_by bytes).samples)) }
    {
        match self.stop(end) {
            Some(refusal) => printout::stop(refusal.number()),
            // the samples are numbered from 1
            None => printout::done(self.watch.next_number() - 1),
        }
    }

    /// The report, where the reading of the trace ends so.
    pub fn page(&self, end: Ending) -> Page
        ensures { WhereFollows self.now (λ text bytes. Reported text bytes end (bytes_on result)) }
    {
        // Room for every seat, and a count: that `list` writes into a slice of its caller's is fixed.
        let mut notices = [Notice { seat: 0, number: 0 }; 64];
        let (written, _) = self.watch.list(&mut notices);
        let mut page = Page::new();
        page.put_notices(&self.terms, &notices[0..written]);
        page.put(&self.last_line(end));
        page
    }
}
