ghost use Rattle.std.specs.Prelude.{◌≡◌, List, [], ◌∷◌};
ghost use Rattle.stream.specs.declared.sample.Sample.{Sample};

use crate::judging::Monitor;
use stream::Sample;

/// Passes a sample on to a monitor unless that is lost, since it then stays lost. Answers whether it is now lost.
pub fn judge_on<M: Monitor>(monitor: &mut M, sample: Sample) -> bool
    ensures after { (l : List Sample) → M.fails_now monitor.new l ≡ M.fails_now monitor.old (sample ∷ l) }
    ensures keeps { (l : List Sample) → M.fails_new monitor.new l ≡ M.fails_new monitor.old l }
    ensures answer { result ≡ M.fails_now monitor.new [] }
{
    monitor.lost() || monitor.judge(sample)
}
