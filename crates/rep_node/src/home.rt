//! What lies at home in the three stations.

use crate::origin::Origin;
use crate::waiting::Waiting;
use rep_backlog::Backlog;
use rep_cert::Certifier;
use rep_disk::Disk;
use rep_engine::Engine;
use rep_ordered::Keeps;
use rep_snap::Publisher;
use rep_types::{Boxed, Judged};

/// The engine, and beside it what shows readers its durable items. The engine is large, and a station's value is moved whenever somebody
/// enters or leaves: so it lies on the heap.
pub struct Desk<D: Disk> {
    pub engine: Boxed<Engine<D>>,
    pub publisher: Publisher<Origin>,
    pub waiting: Waiting,
}

/// The items that were judged and that the engine has not accepted.
#[derive(Drop)]
pub struct Queue {
    pub backlog: Backlog,
    /// The seqno of the last item that the engine has accepted.
    pub accepted: u64,
}

/// What lies at home in a station: the certifier in the first, where items get their verdicts in the order of their seqnos; the engine in
/// the second, which no ticket passes; and in the third the items that wait for the engine.
pub enum Home<D: Disk> {
    Certifier(Certifier),
    Desk(Desk<D>),
    Queue(Queue),
}

impl<D: Disk> Keeps<Judged> for Home<D> {
    ghost use Rattle.rep_node.specs.Homes.{IsLegal, AtHome, durable_in, common_in};
    ghost use Rattle.rep_node.specs.Growing.{home_grows};

    ghost legal = { λ first items. IsLegal first items };

    ghost at_home = { λ first station number given items durable home. AtHome D.Disk first station number given items durable home };

    ghost durable_of = { λ home. durable_in home };

    ghost common_of = { λ home. common_in home };

    ghost grows = { λ first station number given durable later items more home fits up. home_grows D.Disk first station number given durable later items more home fits up };
}
