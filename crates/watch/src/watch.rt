use crate::ledger::Ledger;
use panel::Panel;
use stream::Feed;

/// Watches the seats of a panel over one stream of words.
// Contracts see it by `account`, and by no `impl Model`, as was tried: what a model gives needs a code, and a panel's meaning, which is a function, has none.
#[derive(Drop)]
pub struct Watch<P: Panel> {
    pub(crate) panel: P,
    pub(crate) feed: Feed,
    pub(crate) ledger: Ledger,
}
