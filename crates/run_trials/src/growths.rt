//! Uses each library that takes memory, but `rep_snap`. A call for which there is none is made once again, so that
//! what is printed is the same whichever growth is refused: `scripts/growths` refuses each in turn.

mod certifying;
mod devices;
mod items;
mod locks;
mod logs;
mod replicas;
mod versions;

use anyhow::Result;

/// Uses each library in turn, and prints what came of it.
pub(crate) fn show<R: Print + AllocGlobal>(rt: &R) -> Result<()> {
    certifying::show(rt)?;
    replicas::show(rt)?;
    devices::show(rt)?;
    versions::show(rt)?;
    logs::show(rt)?;
    locks::show(rt)
}
