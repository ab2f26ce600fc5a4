//! Where a caller may slow a node's workers down, or stop them.

ghost use Rattle.std.specs.Prelude.{ℕ, IsTrue};
ghost use Rattle.rep_node.specs.declared.pace.Point.{Point};

/// What a worker has just done with its item.
#[derive(Clone, Copy, Debug, PartialEq, Eq)]
pub enum Point {
    /// It drew the item's seqno.
    Claimed,
    /// It judged the item.
    Certified,
    /// It put the item among those that wait for the engine.
    Queued,
}

/// What a worker asks behind each of its steps, with no station held.
///
/// Nothing is promised of when it answers: it may wait, and so hold a worker back. What it says where it lets a worker go on, it picks itself;
/// and of each receipt it is then known that it said so at each of the three points.
pub trait Pace {
    // It let a worker go on at this point, with the item of this seqno.
    ghost lets: { Self → Point → ℕ → Type 0 };

    /// Whether the worker goes on with the item of this seqno. Where it does not, the node is halted.
    fn at(&self, point: Point, seqno: u64) -> bool
        ensures { IsTrue result → lets self.now point seqno };
}
