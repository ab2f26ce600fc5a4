//! What moves by events, whatever its body is, and what runs of it come to.

ghost use Rattle.std.specs.Prelude.{◌≡◌, ℕ, List, IfOk, IfErr, OnErr};
ghost use Rattle.rep_disk.specs.History.{History};
ghost use Rattle.rep_disk.specs.Moments.{LeavesOnly};
ghost use Rattle.rep_steps.specs.Images.{Meaning, IsFrontAt, RunsOn};
ghost use Rattle.rep_steps.specs.Nodes.{Node, IsNode, Steps};
ghost use Rattle.rep_steps.specs.Moves.{Moves};
ghost use Rattle.rep_steps.specs.Runs.{Runs};
ghost use Rattle.rep_steps.specs.Standings.{Standing};

use crate::answer::Answer;
use crate::event::Event;
use rep_log::fronts_are_determined;
use rep_types::{Refusal, history_by_items, state_is_enough};
use std::alloc::Global;

/// What moves by events: a replica, whatever keeps its state.
///
/// Two things are said of each step. On any device the facts move, and with them each refusal comes
/// exactly where it says. Where the device is honest the replica stands for a node, and the step is a step of
/// that node; and a stop at any moment of it, whatever comes of it, leaves images that mean a front of
/// the node with all that is durable.
pub trait Core {
    /// The facts that decide each refusal, on any device.
    ghost facts: { Self → Standing };

    /// It stands for this node, on an honest device.
    ghost holds: { Node → Self → Type 0 };

    /// What was asked of the device.
    ghost history: { Self → History };

    /// What an image of a device means.
    ghost means: { List ℕ → Meaning → Type 0 };

    /// Does one step.
    fn step(&mut self, event: Event) -> Answer
        ensures moves { Moves (facts self.old) event result (facts self.new) }
        ensures steps { (n : Node) → holds n self.old → (m : Node) × Steps n event result m × holds m self.new }
        ensures leaves { (n : Node) → holds n self.old → LeavesOnly (history self.old) (history self.new) (IsFrontAt means n) };

    /// The facts are those of the node.
    ghost agrees: { (n : Node) (core : Self) → holds n core → n.facts ≡ facts core };

    /// What it stands for is a node.
    ghost node: { (n : Node) (core : Self) → holds n core → IsNode n };
}

/// Does these steps one after another, and gives their answers.
///
/// Refuses with `OutOfMemory` where there is no room for the answers, before the first step.
pub fn run<C: Core>(core: &mut C, alloc: Global, events: &[Event]) -> Result<Vec<Answer>, Refusal>
    ensures moves { IfOk result (λ answers. Runs Moves (C.facts core.old) events.now answers.items (C.facts core.new)) }
    ensures steps { IfOk result (λ answers. (n : Node) → C.holds n core.old → (m : Node) × RunsOn C.means (C.history core.old) (C.history core.new) n events.now answers.items m × C.holds m core.new) }
    ensures refused { IfErr result (λ refusal. refusal ≡ Refusal.OutOfMemory) }
    ensures unchanged { OnErr result (core.new ≡ core.old) }
{
    history_by_items();
    state_is_enough();
    fronts_are_determined();
    let mut answers = Vec::with_capacity(alloc, events.len())?;
    for event in events {
        let answer = core.step(event.copied());
        if answers.push(answer).is_err() {
            unreachable!();
        }
    }
    Ok(answers)
}
