//! A publisher with its readers.

ghost use Rattle.std.specs.Prelude.{◌≡◌, ◌-◌, ◌<◌, ◌^◌, length, All, IfOk, IfErr};
ghost use Rattle.rep_types.specs.declared.refusal.Refusal.TheVariants.{OutOfMemory};
ghost use Rattle.rep_snap.specs.Views.{opened, watching};

use crate::publisher::Publisher;
use crate::reader::Reader;
use crate::rule::{Admits, Again};
use rep_types::Refusal;
use std::alloc::Global;
use std::sync::Wait;

/// So many readers, each of which was told the history so far.
fn readers_of<A: Admits + Again + Drop>(
    alloc: Global,
    publisher: &mut Publisher<A>,
    readers: usize,
) -> Result<Vec<Reader<A>>, Refusal>
    ensures made { IfOk result (λ made. (publisher.new ≡ record publisher.old { ready = publisher.old.ready - readers }) × (length made.items ≡ readers) × All (λ reader. reader ≡ watching publisher.old) made.items) }
    ensures refused { IfErr result (λ e. e ≡ OutOfMemory) }
{
    let mut made = Vec::new(alloc);
    for _ in 0..readers {
        made.push(publisher.reader()?)?;
    }
    Ok(made)
}

/// A publisher with an empty list, which starts at this position, and so many readers of it. It has room
/// for as many at once.
///
/// Refuses with `OutOfMemory` where a growth was refused.
pub fn start<A: Admits + Again + Drop, R: Wait>(
    alloc: Global,
    rt: &R,
    basis: A,
    position: u64,
    readers: usize,
) -> Result<(Publisher<A>, Vec<Reader<A>>), Refusal>
    requires readers { (0 < readers) × (readers < 2 ^ 32) }
    ensures publisher { IfOk result (λ made. made.0 ≡ opened made.0.book basis position 0) }
    ensures readers { IfOk result (λ made. (length made.1.items ≡ readers) × All (λ reader. reader ≡ watching made.0) made.1.items) }
    ensures refused { IfErr result (λ e. e ≡ OutOfMemory) }
{
    let mut publisher = Publisher::start(alloc, rt, basis, position, readers)?;
    match readers_of(alloc, &mut publisher, readers) {
        Ok(made) => Ok((publisher, made)),
        Err(refusal) => {
            publisher.close(rt);
            Err(refusal)
        }
    }
}
