ghost use Rattle.rows.specs.Traces.{TracesComeBack, DecodersAnswer, TextsTell};

// Laws of what the calls promise. A call here has nothing to do: it stands for its law.

/// All samples that are sent come back from a feed, and no others.
#[tactic(auto, using(crate::proofs::Feedings::traces_come_back))]
pub fn traces_tell()
    ensures { TracesComeBack }
{}

/// A new decoder answers exactly the samples that are sent.
#[tactic(auto, using(crate::proofs::Decodings::decoders_answer))]
pub fn decoders_tell()
    ensures { DecodersAnswer }
{}

/// A text of rows is that of one list of samples.
#[tactic(auto, using(crate::proofs::Tellings::text_tells))]
pub fn texts_tell()
    ensures { TextsTell }
{}
