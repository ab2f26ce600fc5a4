//! Windows on the device: one of more entries than the most is not written.

use crate::tests::layout::largest;
use arrayvec::ArrayVec;
use rep_layout::{Format, WindowBody, WindowReader};
use rep_types::{Entry, Key, Params, Part, Reach, Refusal};
use std::alloc::Global;
use std::test::Fail;

/// The entries of one key of the seqnos from 1 on up to this.
fn entries_to(alloc: Global, last: u64) -> Result<Vec<Entry>, Refusal> {
    let mut entries = Vec::new(alloc);
    for seqno in 1..=last {
        let mut keys = ArrayVec::new();
        keys.push(Key { table: 0, row: 0 });
        entries.push(Entry::new(seqno, keys))?;
    }
    Ok(entries)
}

/// Whether the window of so many entries is written.
fn is_written(params: &Params, last: u64, entries: &[Entry]) -> bool {
    let window = WindowBody {
        format: Format::Two,
        number: 1,
        position: last,
        reach: Reach {
            size: params.window_size(),
            floor: 1.max(last.saturating_sub(255)),
        },
        entries,
    };
    window.write_body(params).is_some()
}

#[test]
fn a_window_of_257_entries_is_none(rt: HostRuntime) -> Result<(), Fail> {
    let params = largest()?;
    for (last, wanted) in [(256, true), (257, false)] {
        let entries = entries_to(rt.alloc(), last)?;
        assert_eq!(rt; (last, is_written(&params, last, &entries)), (last, wanted));
    }
    let refusal = WindowReader::read_body(&params, &[]).err();
    assert_eq!(rt; refusal, Some(Refusal::Corrupt { part: Part::Window }));
    Ok(())
}
