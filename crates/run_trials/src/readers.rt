//! Publishes and prunes beside a reader. Where a growth of memory is refused, the reader has to see what
//! it saw, and each later change has to be refused too; then all is done once again from the start. So
//! what is printed is the same whichever growth is refused: `scripts/growths` refuses each in turn.

mod changes;

use anyhow::{Result, bail};
use changes::{Came, attempt};
use std::sync::Wait;

/// Makes all changes beside a reader, and prints what it sees in the end.
pub(crate) fn show<R: Print + AllocGlobal + Wait>(rt: &R) -> Result<()> {
    let came = match attempt(rt, rt.alloc())? {
        Came::Refused => attempt(rt, rt.alloc())?,
        came => came,
    };
    let Came::Through { front, found } = came else {
        bail!("the reader saw something else");
    };
    rt.println(format_args!("readers: front {front}, {found} rows have a version"))?;
    Ok(())
}
