ghost use Rattle.report.specs.Reports.{OneReport};
ghost use Rattle.report.specs.Readers.{FrontReports};

// Laws of what the calls promise. A call here has nothing to do: it stands for its law.

/// There is only one report of a text and a trace.
pub fn reports_tell()
    ensures { OneReport }
{}

/// The report on a text is that on its front, as far as a book can go and one byte more.
pub fn fronts_tell()
    ensures { FrontReports }
{}
