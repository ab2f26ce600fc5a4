//! The engine's station: what it takes of the backlog.

ghost use Rattle.std.specs.Prelude.{◌≡◌, ◌≤◌, ◌⊎◌, None, drop, is_some, length, true, IfOk, IfErr, OnOk, OnErr};
ghost use Rattle.rep_types.specs.declared.refusal.Refusal.TheVariants.{OutOfMemory, Stopped as is_stopped};
ghost use Rattle.rep_engine.specs.Engines.{facts_of};
ghost use Rattle.rep_engine.specs.Accepting.{ComeNext, accepted_in, is_gathering};
ghost use Rattle.rep_stations.specs.Taking.{TakesMore};

use rep_backlog::Backlog;
use rep_disk::Disk;
use rep_engine::{Engine, accepted_items_are_a_front};
use rep_steps::judging_goes_on;
use rep_types::Refusal;

/// Has the engine take what comes next of the items that wait, the longest front that its next block takes, and says how many: none
/// while that block is on its way to the disk. It takes memory for what they wrote.
///
/// Where the engine has taken a list of items of a legal history, and nothing else, it has then taken that list with just these at its
/// end; the others still wait.
///
/// Refuses with `Stopped` where the device has failed before, and with `OutOfMemory` where the block may take more; engine and backlog
/// are then as they were.
pub fn take_next<D: Disk>(engine: &mut Engine<D>, backlog: &mut Backlog) -> Result<u16, Refusal>
    requires { ComeNext (facts_of D.Disk engine.old) backlog.old }
    ensures count { IfOk result (λ count. count ≡ accepted_in engine.old.log.phase engine.old.block backlog.old) }
    ensures within { IfOk result (λ count. count ≤ length backlog.old) }
    // The history that it has taken goes on by these items.
    ensures taken { IfOk result (λ count. TakesMore D.Disk engine.old backlog.old count engine.new) }
    ensures left { IfOk result (λ count. backlog.new ≡ drop count backlog.old) }
    ensures rest { engine.new ≡ record (engine.old) { kept = engine.new.kept; block = engine.new.block } }
    ensures running { OnOk result (engine.old.halted ≡ None) }

    ensures refused { IfErr result (λ e. ((e ≡ is_stopped) × (is_some engine.old.halted ≡ true)) ⊎ ((e ≡ OutOfMemory) × (engine.old.halted ≡ None) × (is_gathering engine.old.log.phase ≡ true))) }
    ensures unchanged { OnErr result ((engine.new ≡ engine.old) × (backlog.new ≡ backlog.old)) }
{
    judging_goes_on();
    accepted_items_are_a_front();
    engine.accept(backlog)
}
