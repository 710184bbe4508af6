ghost use Rattle.std.specs.Prelude.{◌≡◌, ◌+◌, ◌*◌, ◌≤◌, [], ◌∷◌, ◌++◌, length};
ghost use Rattle.stream.specs.Refusals.{number_of};
ghost use Rattle.printout.specs.Lines.{header_line};
ghost use Rattle.terms_watch.specs.Stories.{term_at};
ghost use Rattle.report.specs.Reports.{printed, notice_lines, stop_page};
ghost use Rattle.report.specs.Runs.{bytes_on};

use crate::page::Page;
use stream::Refusal;
use terms_watch::ClauseNumbers;
use watch::Notice;

impl Page {
    /// A page with the header on it.
    pub(crate) fn new() -> Page
        ensures line { bytes_on result ≡ printed (header_line ∷ []) }
        ensures len { result.len ≡ 18 }
    {
        let mut page = Page {
            bytes: [0; 1188],
            len: 0,
        };
        page.put(&printout::header());
        page
    }

    /// A page with the header and STOP with a refusal.
    pub fn stopped(refusal: Refusal) -> Page
        ensures { bytes_on result ≡ stop_page refusal }
    {
        let mut page = Page::new();
        page.put(&printout::stop(refusal.number()));
        page
    }

    /// One line more.
    pub(crate) fn put(&mut self, line: &[u8; 17])
        requires { self.old.len + 18 ≤ 1188 }
        ensures line { bytes_on self.new ≡ bytes_on self.old ++ (line.now ++ (10 ∷ [])) }
        ensures len { self.new.len ≡ self.old.len + 18 }
    {
        let at = self.len;
        let end = at + 17;
        self.bytes[at..end].copy_from_slice(line);
        self.bytes[end] = b'\n';
        self.len = end + 1;
    }

    /// A line for each notice.
    pub(crate) fn put_notices(&mut self, terms: &ClauseNumbers, notices: &[Notice])
        requires { self.old.len + 18 * length notices.now ≤ 1188 }
        ensures lines { bytes_on self.new ≡ bytes_on self.old ++ printed (notice_lines (term_at terms.now) notices.now) }
        ensures len { self.new.len ≡ self.old.len + 18 * length notices.now }
    {
        for notice in notices {
            self.put(&printout::notice(terms.get(notice.seat), notice.number));
        }
    }

    /// The bytes to print.
    pub fn bytes(&self) -> &[u8]
        ensures { result.now ≡ bytes_on self.now }
    {
        &self.bytes[0..self.len]
    }
}
