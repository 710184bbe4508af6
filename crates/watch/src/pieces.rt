ghost use Rattle.std.specs.Prelude.{◌≡◌};
ghost use Rattle.watch.specs.Account.{account, Delivered, Alike};
ghost use Rattle.watch.specs.Pieces.{contents, words};
ghost use Rattle.watch.specs.InTurn.{InTurn};

use crate::watch::Watch;
use panel::Panel;
use stream::Refusal;

impl<P: Panel> Watch<P> {
    /// Delivers the pieces in turn, up to the first word that is refused. Lent pieces may overlap, so that their words can be more than a `usize` counts.
    pub fn deliver_pieces(&mut self, pieces: &[&[u32]]) -> (u128, Option<Refusal>)
        ensures each { InTurn (account P.meaning self.old) (contents pieces.now) (account P.meaning self.new) result.0 result.1 }
        ensures whole { Delivered (account P.meaning self.old) (words pieces.now) (account P.meaning self.new) result.0 result.1 }
    {
        let mut total: u128 = 0;
        for piece in pieces {
            let (taken, refused) = self.deliver(piece);
            total += taken as u128;
            if let Some(refusal) = refused {
                return (total, Some(refusal));
            }
        }
        (total, None)
    }
}

/// Delivers to two watches, each its own pieces. Where the watches are alike and the words are the same, the cut of the pieces does not show.
pub fn deliver_both<P: Panel, Q: Panel>(
    a: &mut Watch<P>,
    b: &mut Watch<Q>,
    xs: &[&[u32]],
    ys: &[&[u32]],
) -> ((u128, Option<Refusal>), (u128, Option<Refusal>))
    ensures first { InTurn (account P.meaning a.old) (contents xs.now) (account P.meaning a.new) result.0.0 result.0.1 }
    ensures first_whole { Delivered (account P.meaning a.old) (words xs.now) (account P.meaning a.new) result.0.0 result.0.1 }
    ensures second { InTurn (account Q.meaning b.old) (contents ys.now) (account Q.meaning b.new) result.1.0 result.1.1 }
    ensures second_whole { Delivered (account Q.meaning b.old) (words ys.now) (account Q.meaning b.new) result.1.0 result.1.1 }
    ensures alike { Alike (account P.meaning a.old) (account Q.meaning b.old) → words xs.now ≡ words ys.now → (result.0 ≡ result.1) × Alike (account P.meaning a.new) (account Q.meaning b.new) }
{
    let first = a.deliver_pieces(xs);
    let second = b.deliver_pieces(ys);
    (first, second)
}
