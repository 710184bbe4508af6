ghost use Rattle.std.specs.Prelude.{◌≡◌, [], ◌∷◌, take, drop};
ghost use Rattle.watch.specs.Account.{account, Alike};
ghost use Rattle.watch.specs.InTurn.{InTurn};

use panel::Panel;
use stream::Refusal;
use watch::{Watch, alike_tells};

/// Delivers the words up to a place, and then, where none was refused, the others. Answers how many were taken in all, and the refusal if there is one.
pub fn deliver_halves<P: Panel>(
    watch: &mut Watch<P>,
    words: &[u32],
    at: usize,
) -> (u128, Option<Refusal>)
    ensures { InTurn (account P.meaning watch.old) (take at words.now ∷ drop at words.now ∷ []) (account P.meaning watch.new) result.0 result.1 }
{
    let (front, rest) = words.split_at(at.min(words.len()));
    let (taken, refused) = watch.deliver(front);
    if let Some(refusal) = refused {
        return (taken as u128, Some(refusal));
    }
    let (more, refused) = watch.deliver(rest);
    (taken as u128 + more as u128, refused)
}

/// Delivers the same words to two watches, each cut at a place of its own. Where the watches are alike, the cuts do not show.
pub fn cut_in_two<P: Panel, Q: Panel>(
    a: &mut Watch<P>,
    b: &mut Watch<Q>,
    words: &[u32],
    at: usize,
    other: usize,
) -> ((u128, Option<Refusal>), (u128, Option<Refusal>))
    ensures first { InTurn (account P.meaning a.old) (take at words.now ∷ drop at words.now ∷ []) (account P.meaning a.new) result.0.0 result.0.1 }
    ensures second { InTurn (account Q.meaning b.old) (take other words.now ∷ drop other words.now ∷ []) (account Q.meaning b.new) result.1.0 result.1.1 }
    ensures alike { Alike (account P.meaning a.old) (account Q.meaning b.old) → (result.0 ≡ result.1) × Alike (account P.meaning a.new) (account Q.meaning b.new) }
{
    alike_tells();
    let first = deliver_halves(a, words, at);
    let second = deliver_halves(b, words, other);
    (first, second)
}
