ghost use Rattle.std.specs.Prelude.{◌≡◌, length, take, drop};
ghost use Rattle.watch.specs.Account.{account};
ghost use Rattle.watch.specs.Plays.{Looked, PlayAnswered, Played};

use crate::notice::Notice;
use crate::watch::Watch;
use panel::Panel;
use stream::Refusal;

/// A call to be made of a watch. To `list` as many blanks are lent as `room` says, of number 0 and seat 0, and 64 at most.
#[derive(Drop)]
pub enum PlayCall<'a> {
    Begin(u64),
    Deliver(&'a [u32]),
    List { room: usize },
    Collect,
}

/// What was answered to a call, by its form. Of a listing, `out` has the notices that were written, and behind them blanks.
#[derive(Clone, Copy)]
pub enum PlayAnswer {
    Done(Result<(), Refusal>),
    Taken(usize, Option<Refusal>),
    // An array and a count, and not an `ArrayVec` of what was written: an answer is `Copy`, and shows what `list` left.
    Listed {
        out: [Notice; 64],
        written: usize,
        waiting: usize,
    },
    Collected(Result<Notice, Refusal>),
}

/// What `list` writes into a list with so much room, and what it answers. More than 64 never wait.
fn look<P: Panel>(watch: &Watch<P>, room: usize) -> ([Notice; 64], usize, usize)
    ensures { Looked (account P.meaning watch.now) room result.0 result.1 result.2 }
{
    let mut out = [Notice { seat: 0, number: 0 }; 64];
    let reach = room.min(64);
    let (written, waiting) = watch.list(&mut out[0..reach]);
    (out, written, waiting)
}

/// Makes one call.
pub fn answer_to<P: Panel>(watch: &mut Watch<P>, call: &PlayCall<'_>) -> PlayAnswer
    ensures { PlayAnswered (account P.meaning watch.old) call.now (account P.meaning watch.new) result }
{
    match call {
        PlayCall::Begin(number) => PlayAnswer::Done(watch.begin(*number)),
        PlayCall::Deliver(piece) => {
            let (taken, refused) = watch.deliver(piece);
            PlayAnswer::Taken(taken, refused)
        }
        PlayCall::List { room } => {
            let (out, written, waiting) = look(watch, *room);
            PlayAnswer::Listed {
                out,
                written,
                waiting,
            }
        }
        PlayCall::Collect => PlayAnswer::Collected(watch.collect()),
    }
}

/// Makes a watch on the panel, makes the calls in turn, as far as there is room for the answers, and hands the watch back.
pub fn play_into<P: Panel>(panel: P, calls: &[PlayCall<'_>], answers: &mut [PlayAnswer]) -> Watch<P>
    ensures played { Played (P.meaning panel) (take (length answers.old) calls.now) (take (length calls.now) answers.new) (account P.meaning result) }
    ensures rest { drop (length calls.now) answers.new ≡ drop (length calls.now) answers.old }
{
    let mut watch = Watch::new(panel);
    // An index into the answers, and no `zip` of `iter_mut`: tried, and the check then knew of no place in the list which it is.
    let count = calls.len().min(answers.len());
    for (i, call) in calls[0..count].iter().enumerate() {
        answers[i] = answer_to(&mut watch, call);
    }
    watch
}
