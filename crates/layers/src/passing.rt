ghost use Rattle.std.specs.Prelude.{◌≡◌, true, false, List, [], ◌∷◌};
ghost use Rattle.stream.specs.declared.sample.Sample.{Sample};

use monitor::Monitor;
use stream::Sample;

/// The monitor begun as new, for a layer to stand on.
pub(crate) fn renewed<M: Monitor>(mut below: M) -> M
    ensures after { (l : List Sample) → M.fails_now result l ≡ M.fails_new below l }
    ensures keeps { (l : List Sample) → M.fails_new result l ≡ M.fails_new below l }
{
    below.renew();
    below
}

/// Passes a sample on to a monitor, and begins it as new if it is then lost. Answers whether it was.
/// The monitor as new is not given the sample that broke the old one.
pub(crate) fn judge_anew<M: Monitor>(monitor: &mut M, sample: Sample) -> bool
    ensures answer { result ≡ M.fails_now monitor.old (sample ∷ []) }
    ensures broken { result ≡ true → (l : List Sample) → M.fails_now monitor.new l ≡ M.fails_new monitor.old l }
    ensures whole { result ≡ false → (l : List Sample) → M.fails_now monitor.new l ≡ M.fails_now monitor.old (sample ∷ l) }
    ensures keeps { (l : List Sample) → M.fails_new monitor.new l ≡ M.fails_new monitor.old l }
{
    let broke = monitor.judge(sample);
    if broke {
        monitor.renew();
    }
    broke
}
