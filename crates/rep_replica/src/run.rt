//! Runs of events.

ghost use Rattle.std.specs.Prelude.{◌≡◌, IfOk, IfErr, OnErr};
ghost use Rattle.rep_steps.specs.Moves.{Moves};
ghost use Rattle.rep_steps.specs.Runs.{Runs};
ghost use Rattle.rep_replica.specs.Replicas.{facts_of};
ghost use Rattle.rep_replica.specs.Running.{Ran};

use crate::replica::Replica;
use rep_disk::Disk;
use rep_steps::{Answer, Core, Event};
use rep_types::Refusal;
use std::alloc::Global;

impl<D: Disk> Core for Replica<D> {
    ghost use Rattle.rep_recover.specs.Meanings.{Means};
    ghost use Rattle.rep_replica.specs.Replicas.{facts_of};
    ghost use Rattle.rep_replica.specs.Holding.{Holds};

    ghost facts = { facts_of D.Disk };

    ghost holds = { Holds D.Disk };

    ghost history = { λ r. D.history r.engine.disk };

    ghost means = { Means };

    fn step(&mut self, event: Event) -> Answer {
        Replica::step(self, event)
    }

    ghost agrees = { λ n r holds. holds.facts };

    ghost node = { λ n r holds. holds.node };
}

impl<D: Disk> Replica<D> {
    /// Does these steps one after another, and gives their answers.
    ///
    /// Refuses with `OutOfMemory`, before the first of them, where there is no room for the answers.
    pub fn run(&mut self, alloc: Global, events: &[Event]) -> Result<Vec<Answer>, Refusal>
        ensures moves { IfOk result (λ answers. Runs Moves (facts_of D.Disk self.old) events.now answers.items (facts_of D.Disk self.new)) }
        // It is a run of the node, and at each moment of it a stop leaves images that stand for a front of the order.
        ensures steps { IfOk result (λ answers. Ran D.Disk self.old self.new events.now answers.items) }
        ensures refused { IfErr result (λ refusal. refusal ≡ Refusal.OutOfMemory) }
        ensures unchanged { OnErr result (self.new ≡ self.old) }
    {
        rep_steps::run(self, alloc, events)
    }
}
