//! A delivered item with its verdict.

ghost use Rattle.std.specs.Prelude.{◌≡◌};

use crate::item::Item;
use crate::reply::Reply;
use crate::verdict::Verdict;

/// A delivered item, its seqno and its verdict.
#[derive(Debug, Drop, PartialEq, Eq)]
pub struct Judged {
    /// Its place in the order, from 1.
    pub seqno: u64,
    /// The item.
    pub item: Item,
    /// What certification said of it.
    pub verdict: Verdict,
}

impl Judged {
    ghost use Rattle.rep_types.specs.Order.{is_kept};
    ghost use Rattle.rep_types.specs.Replies.{reply_of};

    /// Whether it is a write set that takes effect, with which later ones may conflict.
    pub fn is_kept(&self) -> bool
        ensures { result ≡ is_kept self.now }
    {
        self.item.is_write_set() && self.verdict.is_commit()
    }

    /// The reply to the item's origin.
    pub fn reply(&self) -> Reply
        ensures { result ≡ reply_of self.now }
    {
        Reply {
            seqno: self.seqno,
            verdict: self.verdict,
            source: self.item.source(),
            trx: self.item.trx(),
        }
    }
}
