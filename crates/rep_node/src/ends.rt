//! How a node is started and closed.

ghost use Rattle.std.specs.Prelude.{◌≡◌, ◌+◌, ◌-◌, ◌<◌, ◌≤◌, ◌⊎◌, ◌||◌, [], length, map, true, is_some, Some, ◌++◌, ◌∷◌, All, IsSome, IfOk, IfErr, IsTrue, IsFalse, vec_capacity};
ghost use Rattle.uuid.specs.Parts.{is_nil_bytes};
ghost use Rattle.rep_types.specs.declared.refusal.Refusal.TheVariants.{OutOfMemory, Stopped as is_stopped};
ghost use Rattle.rep_replica.specs.Replicas.{facts_of};
ghost use Rattle.rep_replica.specs.Settling.{is_quiet, IsRunning};
ghost use Rattle.rep_engine.specs.Engines.{durable_of};
ghost use Rattle.rep_ordered.specs.Views.{HasAll, opened};
ghost use Rattle.rep_node.specs.Homes.{Start, IsLegal, durable_in, common_in, values_of};
ghost use Rattle.rep_node.specs.Ending.{AreParts, StartsFrom, StartsFromParts, EndsAs};
ghost use Rattle.rep_node.specs.Reading.{AreParams};

use crate::changes::Changes;
use crate::home::{Desk, Home, Queue};
use crate::node::Node;
use crate::origin::Origin;
use crate::parts::{certifier_of, desk_of, queue_of};
use crate::reading::NodeReader;
use crate::seat::Seat;
use crate::waiting::Waiting;
use rep_backlog::Backlog;
use rep_cert::Certifier;
use rep_disk::Disk;
use rep_engine::Engine;
use rep_ordered::{OrderedLock, Refused};
use rep_replica::Replica;
use rep_snap::Reader;
use rep_stations::{histories_extend_the_order, histories_go_on, histories_lie_between_replicas};
use rep_types::{Boxed, MAX_SEQNO, Params, Refusal};
use std::alloc::Global;
use std::sync::Wait;

/// The engine on the heap, and the memory that a node takes beside its lock and its publisher.
struct Space<D: Disk> {
    engine: Boxed<Engine<D>>,
    waiting: Waiting,
    readers: Vec<NodeReader>,
    room: Vec<Home<D>>,
}

/// Puts the engine on the heap, and takes that memory. Where there is none, the engine is handed back.
fn reserved<D: Disk>(
    alloc: Global,
    engine: Engine<D>,
    readers: usize,
) -> Result<Space<D>, Engine<D>>
    ensures engine { IfOk result (λ s. s.engine ≡ engine) }
    ensures empty { IfOk result (λ s. (s.waiting ≡ []) × (s.room.items ≡ []) × (3 ≤ vec_capacity s.room)) }
    ensures readers { IfOk result (λ s. (s.readers.items ≡ []) × (readers ≤ vec_capacity s.readers)) }
    ensures refused { IfErr result (λ back. back ≡ engine) }
{
    let Ok(waiting) = Waiting::new(alloc) else {
        return Err(engine);
    };
    let Ok(readers) = Vec::with_capacity(alloc, readers) else {
        return Err(engine);
    };
    let Ok(room) = Vec::with_capacity(alloc, 3) else {
        return Err(engine);
    };
    match Boxed::new(alloc, engine) {
        Ok(engine) => Ok(Space {
            engine,
            waiting,
            readers,
            room,
        }),
        Err(engine) => {
            room.destroy_empty();
            Err(engine)
        }
    }
}

/// The same readers, each of which knows the parameters. There is room for them, so that it takes no memory.
fn with_params(
    readers: Vec<Reader<Origin>>,
    params: &Params,
    mut room: Vec<NodeReader>,
) -> Vec<NodeReader>
    requires room { (room.items ≡ []) × (length readers.items ≤ vec_capacity room) }
    requires own { All (λ reader. AreParams params.now reader.basis.certifier.log) readers.items }
    ensures { result.items ≡ readers.items }
{
    for reader in readers {
        room.push_reserved(NodeReader {
            reader,
            params: params.copied(),
        });
    }
    room
}

/// The last of the values.
fn last_of<T>(values: &mut Vec<T>) -> T
    requires { 0 < length values.old.items }
    ensures { values.old.items ≡ values.new.items ++ result ∷ [] }
{
    match values.pop() {
        Some(value) => value,
        None => unreachable!(),
    }
}

/// What a slot has that is full.
fn full<T>(slot: Option<T>) -> T
    requires { IsSome slot }
    ensures { slot ≡ Some result }
{
    match slot {
        Some(value) => value,
        None => unreachable!(),
    }
}

/// The values of three stations.
fn values_of<D: Disk>(mut homes: Vec<Home<D>>) -> (Certifier, Desk<D>, Queue)
    requires { (s : Start D) × (homes.items ≡ values_of s) }
    ensures { homes.items ≡ values_of (record { certifier = result.0; desk = result.1; queue = result.2 }) }
{
    let queue = queue_of(last_of(&mut homes));
    let desk = desk_of(last_of(&mut homes));
    let certifier = certifier_of(last_of(&mut homes));
    homes.destroy_empty();
    (certifier, desk, queue)
}

/// The values of three stations that were closed.
fn closed_values_of<D: Disk>(mut homes: Vec<Option<Home<D>>>) -> (Certifier, Desk<D>, Queue)
    requires { (s : Start D) × (homes.items ≡ map Some (values_of s)) }
    ensures { homes.items ≡ map Some (values_of (record { certifier = result.0; desk = result.1; queue = result.2 })) }
{
    let queue = queue_of(full(last_of(&mut homes)));
    let desk = desk_of(full(last_of(&mut homes)));
    let certifier = certifier_of(full(last_of(&mut homes)));
    homes.destroy_empty();
    (certifier, desk, queue)
}

/// The engine of a desk. Readers find nothing from then on; it waits for those that are just looking.
fn engine_of<D: Disk, R: Wait>(rt: &R, desk: Desk<D>) -> Engine<D>
    ensures { result ≡ desk.engine }
{
    let Desk {
        engine,
        publisher,
        waiting: _,
    } = desk;
    publisher.close(rt);
    engine.into_inner()
}

/// A node with its first seat and its readers.
type Started<D> = (Node<D>, Seat<D>, Vec<NodeReader>);

/// Starts a node from what a replica was taken apart into. Where a growth is refused, the parts are handed back as they were.
fn start_from<D: Disk, R: Wait>(
    alloc: Global,
    rt: &R,
    certifier: Certifier,
    backlog: Backlog,
    engine: Engine<D>,
    readers: usize,
) -> Result<Started<D>, (Certifier, Backlog, Engine<D>)>
    requires parts { AreParts D.Disk certifier backlog engine }
    requires readers { (0 < readers) × (readers ≤ 64) }
    ensures lock { IfOk result (λ made. made.1.lock ≡ made.0) }
    ensures view { IfOk result (λ made. made.1.view ≡ opened durable_in common_in (durable_of engine.log + 1) (MAX_SEQNO - durable_of engine.log) made.1.view.first (durable_of engine.log)) }
    ensures starts { IfOk result (λ made. StartsFromParts D.Disk certifier backlog engine made.1.view made.2.items) }
    ensures readers { IfOk result (λ made. length made.2.items ≡ readers) }
    ensures refused { IfErr result (λ back. (back.0 ≡ certifier) × (back.1 ≡ backlog) × (back.2 ≡ engine)) }
{
    histories_go_on();
    let Space {
        engine,
        waiting,
        readers: kept,
        mut room,
    } = match reserved(alloc, engine, readers) {
        Ok(space) => space,
        Err(engine) => return Err((certifier, backlog, engine)),
    };
    let position = engine.get().durable();
    let params = engine.get().params().copied();
    let origin = Origin::of(&certifier);
    let Ok((publisher, readers)) = rep_snap::start(alloc, rt, origin, position, readers) else {
        room.destroy_empty();
        return Err((certifier, backlog, engine.into_inner()));
    };
    room.push_reserved(Home::Certifier(certifier));
    room.push_reserved(Home::Desk(Desk {
        engine,
        publisher,
        waiting,
    }));
    room.push_reserved(Home::Queue(Queue {
        backlog,
        accepted: position,
    }));
    match OrderedLock::new(alloc, room, position, position) {
        Ok((lock, seat)) => {
            let seat = Seat {
                seat,
                allowance: MAX_SEQNO - position,
            };
            let readers = with_params(readers, &params, kept);
            let changes = Changes::new();
            Ok((Node { lock, changes }, seat, readers))
        }
        Err(Refused { values }) => {
            let (certifier, desk, queue) = values_of(values);
            Err((certifier, queue.backlog, engine_of(rt, desk)))
        }
    }
}

impl<D: Disk> Node<D> {
    /// Starts a node from a replica that has nothing left to do and belongs to a cluster, with its first seat, which may draw every seqno
    /// that is left, and so many readers, 1 to 64.
    ///
    /// Refuses with `Stopped` where the replica is stopped, and with `OutOfMemory` where a growth was refused; the replica is handed back
    /// as it was. It may then wait, for readers that nobody has.
    pub fn start<R: Wait>(
        alloc: Global,
        rt: &R,
        replica: Replica<D>,
        readers: usize,
    ) -> Result<(Node<D>, Seat<D>, Vec<NodeReader>), (Replica<D>, Refusal)>
        requires quiet { is_quiet (facts_of D.Disk replica) ≡ true }
        requires defined { IsFalse (is_nil_bytes replica.engine.checkpoint.base.uuid) }
        requires readers { (0 < readers) × (readers ≤ 64) }
        ensures lock { IfOk result (λ made. made.1.lock ≡ made.0) }
        ensures view { IfOk result (λ made. made.1.view ≡ opened durable_in common_in (durable_of replica.engine.log + 1) (MAX_SEQNO - durable_of replica.engine.log) made.1.view.first (durable_of replica.engine.log)) }
        ensures starts { IfOk result (λ made. StartsFrom D.Disk replica made.1.view made.2.items) }
        ensures readers { IfOk result (λ made. length made.2.items ≡ readers) }
        ensures running { IfOk result (λ made. IsRunning replica) }
        ensures refused { IfErr result (λ back. (back.0 ≡ replica) × (((back.1 ≡ OutOfMemory) × IsRunning replica) ⊎ ((back.1 ≡ is_stopped) × ((replica.stopped || is_some replica.engine.halted) ≡ true)))) }
    {
        histories_lie_between_replicas::<D>();
        if replica.is_stopped() {
            return Err((replica, Refusal::Stopped));
        }
        let (certifier, backlog, engine) = replica.into_parts();
        match start_from(alloc, rt, certifier, backlog, engine, readers) {
            Ok(started) => Ok(started),
            Err((certifier, backlog, engine)) => {
                let replica = Replica::from_parts(certifier, backlog, engine, false);
                Err((replica, Refusal::OutOfMemory))
            }
        }
    }

    /// Closes the node by a seat to which all others were joined, and puts the replica together again. Readers find nothing from then on.
    /// It waits for those that are just looking.
    ///
    /// The replica is stopped exactly where the seat knows of a halt. Otherwise it runs, and on an honest device it stands for the order of
    /// the replica that the node was started from, with the items of the history at its end. There, stopped or not, each image that a crash
    /// may leave of its device stands for a front of that order with all that is durable.
    pub fn close<R: Wait>(self, rt: &R, seat: Seat<D>) -> Replica<D>
        requires lock { seat.lock ≡ self }
        requires all { HasAll seat.view }
        ensures stopped { (IsTrue result.stopped → seat.view.halted ≡ 1) × (IsFalse result.stopped → seat.view.halted ≡ 0) }
        ensures legal { IsLegal seat.view.first seat.view.seen }
        ensures ends { EndsAs D.Disk seat.view result }
    {
        histories_lie_between_replicas::<D>();
        histories_extend_the_order::<D>();
        histories_go_on();
        let Node { lock, changes: _ } = self;
        let Seat { mut seat, .. } = seat;
        let stopped = lock.front(&mut seat).halted;
        let homes = lock.close(seat);
        let (certifier, desk, queue) = closed_values_of(homes);
        Replica::from_parts(certifier, queue.backlog, engine_of(rt, desk), stopped)
    }
}
