//! A client that brings a snapshot to a replica.

ghost use Rattle.std.specs.Prelude.{◌≡◌, true};
ghost use Rattle.rep_steps.specs.Nodes.{Node};
ghost use Rattle.rep_checkpoint.specs.Coming.{blank};
ghost use Rattle.rep_engine.specs.Engines.{durable_of};
ghost use Rattle.rep_engine.specs.Installing.{CanBring};
ghost use Rattle.rep_replica.specs.Replicas.{facts_of};
ghost use Rattle.rep_replica.specs.Holding.{Holds};
ghost use Rattle.rep_replica.specs.Settling.{is_quiet};
ghost use Rattle.uses_replica.specs.Bringing.{with_pages, PutsAll, Brings, InstalledNodesGoOn};

use rep_disk::Disk;
use rep_pages::PageRows;
use rep_replica::{Installation, Replica};
use rep_types::{Refusal, Window};
use std::alloc::Global;
use uuid::Uuid;

/// The pages of a snapshot, by their numbers.
pub type Pages = Vec<(u32, PageRows)>;

/// Puts these pages one after another. Refuses with `Malformed` the first that cannot come, and else what the device refuses.
fn put_all<D: Disk>(installation: &mut Installation<D>, pages: Pages) -> Result<(), Refusal>
    ensures { PutsAll D.Disk pages.items installation.old installation.new result }
{
    for (page, rows) in pages {
        if !installation.takes(page, &rows) {
            return Err(Refusal::Malformed { at: 0 });
        }
        installation.put_page(page, rows)?;
    }
    Ok(())
}

/// Brings a snapshot to a replica: installs it, page by page, or gives it up where a page cannot come.
///
/// Whatever a stop leaves at any moment, or a refusal behind it, an image means what the replica was, or the snapshot, whole. Where it
/// succeeds the replica stands at the snapshot.
pub fn bring<D: Disk>(
    alloc: Global,
    replica: Replica<D>,
    uuid: Uuid,
    position: u64,
    window: Window,
    pages: Pages,
) -> (Replica<D>, Result<(), Refusal>)
    requires quiet { is_quiet (facts_of D.Disk replica) ≡ true }
    requires brings { CanBring replica.engine.checkpoint.base (durable_of replica.engine.log) uuid position window }
    ensures { (n : Node) → Holds D.Disk n replica → Brings D.Disk n uuid (with_pages replica.engine.checkpoint.base.params.rows pages.items (blank position window)) replica result.0 result.1 }
{
    match replica.install(alloc, uuid, position, window) {
        Ok(mut installation) => match put_all(&mut installation, pages) {
            Ok(()) => installation.end(),
            Err(refusal) => (installation.give_up(), Err(refusal)),
        },
        Err((replica, refusal)) => (replica, Err(refusal)),
    }
}

/// A node that stands at a snapshot has its rows and its window, takes the next item, and can begin a checkpoint once something is
/// durable above it.
pub fn installed_nodes_go_on()
    ensures { InstalledNodesGoOn }
{}
