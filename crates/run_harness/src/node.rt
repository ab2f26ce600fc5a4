//! A disk or a node on it, whatever disk it is, and what is done to the node.

use crate::order::NodeOrder;
use crate::shown::{write_node, write_window};
use rep_disk::Disk;
use rep_record::write_verdict;
use rep_replica::{Installation, Replica};
use rep_script::{
    Command, answer_sum, write_answer, write_limits, write_line, write_open, write_refused,
    write_state,
};
use rep_steps::{Answer, Event};
use rep_streams::Sink;
use rep_types::Refusal;
use std::alloc::Global;

/// What there is: a disk, a node on one, or a node to which a snapshot comes.
///
/// It has no `Drop`, since each way out of a function that could drop a node is dear to prove: `into_disk` alone lets go what is there.
pub(crate) enum Bench<D: Disk> {
    Disk(D),
    Node(Replica<D>),
    Coming(Installation<D>),
}

/// What there is behind an order, beside whether the order's answer could be written: a `?` would have to let go what there is.
pub(crate) type Left<D> = (Bench<D>, Result<(), Refusal>);

/// Opens the disk, and writes what came of it.
pub(crate) fn opened<D: Disk, W: Sink>(alloc: Global, disk: D, writer: &mut W) -> Left<D> {
    match Replica::open(alloc, disk) {
        Ok(node) => {
            let written = write_open(writer, node.gtid());
            (Bench::Node(node), written)
        }
        Err((disk, refusal)) => (Bench::Disk(disk), write_refused(writer, refusal)),
    }
}

/// Has the node settle, and writes what came of it.
fn settle<D: Disk, W: Sink>(node: &mut Replica<D>, writer: &mut W) -> Result<(), Refusal> {
    match node.settle() {
        Ok(()) => write_line(writer, "settled"),
        Err(refusal) => write_refused(writer, refusal),
    }
}

/// Does one step, and writes its answer.
fn step<D: Disk, W: Sink>(
    node: &mut Replica<D>,
    event: Event,
    writer: &mut W,
) -> Result<(), Refusal> {
    let answer = node.step(event);
    write_answer(writer, node, &answer)
}

/// Shows the node's state, and its window in full where that is asked.
fn show_state<D: Disk, W: Sink>(
    alloc: Global,
    node: &Replica<D>,
    is_full: bool,
    writer: &mut W,
) -> Result<(), Refusal> {
    match node.window(alloc) {
        Ok(window) if is_full => write_window(writer, window.entries()),
        Ok(window) => write_state(writer, node, window.entries()),
        Err(refusal) => write_refused(writer, refusal),
    }
}

/// Shows the size and the floor of the node's window.
fn show_limits<D: Disk, W: Sink>(
    alloc: Global,
    node: &Replica<D>,
    writer: &mut W,
) -> Result<(), Refusal> {
    match node.window(alloc) {
        Ok(window) => write_limits(writer, &window),
        Err(refusal) => write_refused(writer, refusal),
    }
}

/// Takes the node apart and puts it together again, as a stopped one or as it was.
fn together<D: Disk>(node: Replica<D>, stopped: bool) -> Replica<D> {
    let stopped = stopped || node.is_stopped();
    let (certifier, backlog, engine) = node.into_parts();
    Replica::from_parts(certifier, backlog, engine, stopped)
}

/// The node, which is taken apart and put together again where that is asked.
fn parted<D: Disk>(node: Replica<D>, order: &NodeOrder) -> Replica<D> {
    match order {
        NodeOrder::Apart(stopped) => together(node, *stopped),
        _ => node,
    }
}

/// Does this to the node where it stays one and the same, and writes what came of it.
fn at_node<D: Disk, W: Sink>(
    alloc: Global,
    node: &mut Replica<D>,
    order: NodeOrder,
    writer: &mut W,
) -> Result<(), Refusal> {
    match order {
        NodeOrder::Script(Command::Step(event)) => step(node, event, writer),
        NodeOrder::Script(Command::Limits) => show_limits(alloc, node, writer),
        NodeOrder::Script(Command::Sum(position)) => answer_sum(node, position, writer),
        NodeOrder::Script(_) => show_state(alloc, node, false, writer),
        NodeOrder::Settle => settle(node, writer),
        NodeOrder::Window => show_state(alloc, node, true, writer),
        NodeOrder::Apart(_) | NodeOrder::Node => write_node(writer, node),
    }
}

/// Does this to the node, which stays on its disk, and writes what came of it.
pub(crate) fn kept<D: Disk, W: Sink>(
    alloc: Global,
    node: Replica<D>,
    order: NodeOrder,
    writer: &mut W,
) -> Left<D> {
    let mut node = parted(node, &order);
    let written = at_node(alloc, &mut node, order, writer);
    (Bench::Node(node), written)
}

/// Writes the answer to an event that was run with others.
fn write_answer_to<D: Disk, W: Sink>(
    node: &Replica<D>,
    event: &Event,
    answer: &Answer,
    writer: &mut W,
) -> Result<(), Refusal> {
    match (event, answer) {
        (Event::Deliver(seqno, _), Answer::Gave(verdict)) => {
            write_verdict(writer, *seqno, *verdict)
        }
        (Event::SetWindow(seqno, _, _, _), Answer::Gave(verdict)) => {
            write_verdict(writer, *seqno, *verdict)
        }
        _ => write_answer(writer, node, answer),
    }
}

/// Writes how many answers there are, where these are not as many as the events.
fn write_counts<W: Sink>(count: usize, wanted: usize, writer: &mut W) -> Result<(), Refusal> {
    if count == wanted {
        return Ok(());
    }
    write_line(writer, format_args!("{count} answers to {wanted} events"))
}

/// Writes the answers to the events, which were run together.
fn write_answers<D: Disk, W: Sink>(
    node: &Replica<D>,
    events: &[Event],
    answers: &[Answer],
    writer: &mut W,
) -> Result<(), Refusal> {
    write_counts(answers.len(), events.len(), writer)?;
    for (event, answer) in events.iter().zip(answers) {
        write_answer_to(node, event, answer, writer)?;
    }
    Ok(())
}

/// Runs the events together, and writes their answers.
fn run_together<D: Disk, W: Sink>(
    alloc: Global,
    node: &mut Replica<D>,
    events: &[Event],
    writer: &mut W,
) -> Result<(), Refusal> {
    match node.run(alloc, events) {
        Ok(answers) => write_answers(node, events, &answers, writer),
        Err(refusal) => write_refused(writer, refusal),
    }
}

impl<D: Disk> Bench<D> {
    /// The disk, of a node that is let go where there is one, and so is a snapshot that comes to it.
    pub(crate) fn into_disk(self) -> D {
        match self {
            Bench::Disk(disk) => disk,
            Bench::Node(node) => node.into_disk(),
            Bench::Coming(installation) => installation.give_up().into_disk(),
        }
    }

    /// Runs these events together, where there is a node.
    pub(crate) fn batch<W: Sink>(
        &mut self,
        alloc: Global,
        events: &[Event],
        writer: &mut W,
    ) -> Result<(), Refusal> {
        match self {
            Bench::Node(node) => run_together(alloc, node, events, writer),
            Bench::Disk(_) | Bench::Coming(_) => write_line(writer, "off"),
        }
    }
}
