//! Saved states: texts as MariaDB 10.11.19 with galera-4 leaves them, each fault at its offset, and what
//! is written.

use rep_saved::SavedState;
use rep_streams::WriterSink;
use rep_types::{Gtid, Refusal};
use std::alloc::Global;
use std::test::Fail;

/// A saved state: the text of its GTID, and whether it is safe to begin a cluster there.
type State = (&'static [u8], bool);

/// What is read of a text with this state.
fn state((gtid, safe_to_bootstrap): State) -> Result<SavedState, Refusal> {
    Ok(SavedState {
        gtid: Gtid::parse(gtid)?,
        safe_to_bootstrap,
    })
}

/// The position 7 of one cluster.
const SEVEN: State = (b"5ee99582-bb8d-11e2-b8e3-23de375c1d30:7", true);

const READ: &[(&str, &[u8], State)] = &[
    (
        "a stopped node left its position",
        b"# GALERA saved state\nversion: 2.1\nuuid:    dcab5c4f-e6b0-11f1-a8e5-33654dfaf8d0\nseqno:   5\nsafe_to_bootstrap: 1\n",
        (b"dcab5c4f-e6b0-11f1-a8e5-33654dfaf8d0:5", true),
    ),
    (
        "a node that runs or was killed left no position",
        b"# GALERA saved state\nversion: 2.1\nuuid:    dcab5c4f-e6b0-11f1-a8e5-33654dfaf8d0\nseqno:   -1\nsafe_to_bootstrap: 1\n",
        (b"dcab5c4f-e6b0-11f1-a8e5-33654dfaf8d0:-1", true),
    ),
    (
        "other keys say nothing and safe may be missing",
        b"# GALERA saved state\nversion: 2.1\nuuid:    5ee99582-bb8d-11e2-b8e3-23de375c1d30\nseqno:   8204503945773\ncert_index:\n",
        (b"5ee99582-bb8d-11e2-b8e3-23de375c1d30:8204503945773", false),
    ),
    (
        "returns are read",
        b"uuid: 5EE99582-bb8d-11e2-b8e3-23DE375C1D30\r\nseqno: 7\r\nsafe_to_bootstrap: 1\r\n",
        SEVEN,
    ),
    (
        "blanks are read",
        b"\t uuid:\t\t5ee99582-bb8d-11e2-b8e3-23de375c1d30 \t\n\nseqno:7\n #seqno:x\nsafe_to_bootstrap:1",
        SEVEN,
    ),
    (
        "the last of two values is read",
        b"seqno: 3\nuuid: 00000000-0000-0000-0000-000000000000\nsafe_to_bootstrap: 0\nseqno: 0007\nuuid: 5ee99582-bb8d-11e2-b8e3-23de375c1d30\nsafe_to_bootstrap: 1\n",
        SEVEN,
    ),
];

#[test]
fn texts_of_the_form_are_read(rt: HostRuntime) -> Result<(), Fail> {
    for row in READ {
        let (name, text, wanted) = *row;
        assert_eq!(rt; (name, SavedState::parse(text)), (name, Ok(state(wanted)?)));
    }
    Ok(())
}

/// Texts that are no saved state, and where the line of their first fault begins, or they end where a value is
/// missing.
const FAULTS: &[(&[u8], u64)] = &[
    (
        b"seqno: x\nuuid: 5ee99582-bb8d-11e2-b8e3-23de375c1d30\nseqno: 7\n",
        0,
    ),
    (
        b"seqno: 7\n  uuid: 5ee99582-bb8d-11e2-b8e3-23de375c1d3\n",
        9,
    ),
    (
        b"seqno: 7\r\nuuid: 5ee99582-bb8d-11e2-b8e3-23de375c1d300\n",
        10,
    ),
    (b"\nsafe_to_bootstrap: 2", 1),
    (b"seqno: 9223372036854775808", 0),
    (
        b"uuid: 5ee99582-bb8d-11e2-b8e3-23de375c1d30\nseqno: 7\r",
        43,
    ),
    (b"", 0),
    (b"seqno: 7\n", 9),
    (
        b"uuid : 5ee99582-bb8d-11e2-b8e3-23de375c1d30\nseqno: 7\n",
        53,
    ),
    (b"uuid: 5ee99582-bb8d-11e2-b8e3-23de375c1d30", 42),
];

#[test]
fn faults_are_named_by_their_line_or_the_end(rt: HostRuntime) {
    for row in FAULTS {
        let (text, at) = *row;
        let refusal = Refusal::Malformed { at };
        assert_eq!(rt; (text, SavedState::parse(text)), (text, Err(refusal)));
    }
}

/// The text that is written.
fn written(alloc: Global, saved: &SavedState) -> Result<Vec<u8>, Refusal> {
    let mut sink = WriterSink::new(Vec::new(alloc));
    saved.write_to(&mut sink)?;
    Ok(sink.into_writer())
}

/// States and their texts, of 112 bytes where the seqno has one digit.
const WRITTEN: &[(State, &[u8], usize)] = &[
    (
        (b"11111111-1111-4111-8111-111111111111:4", false),
        b"# GALERA saved state\nversion: 2.1\nuuid:    11111111-1111-4111-8111-111111111111\nseqno:   4\nsafe_to_bootstrap: 0\n",
        112,
    ),
    (
        (b"00000000-0000-0000-0000-000000000000:-1", true),
        b"# GALERA saved state\nversion: 2.1\nuuid:    00000000-0000-0000-0000-000000000000\nseqno:   -1\nsafe_to_bootstrap: 1\n",
        113,
    ),
];

/// How long the text is, whether it is this, and whether it is read as the state.
fn is_text_of(text: &[u8], saved: &SavedState, wanted: &[u8]) -> (usize, bool, bool) {
    let is_read = SavedState::parse(text) == Ok(*saved);
    (text.len(), text == wanted, is_read)
}

/// The same of the text that is written.
fn writes(
    alloc: Global,
    saved: &SavedState,
    wanted: &[u8],
) -> Result<(usize, bool, bool), Refusal> {
    let text = written(alloc, saved)?;
    Ok(is_text_of(&text, saved, wanted))
}

#[test]
fn what_is_written_reads_back(rt: HostRuntime) -> Result<(), Fail> {
    for row in WRITTEN {
        let (wanted, bytes, length) = *row;
        let found = writes(rt.alloc(), &state(wanted)?, bytes);
        assert_eq!(rt; found, Ok((length, true, true)));
    }
    Ok(())
}

/// How the writing of the state ends where there is room for 50 bytes, and whether what was written begins as it should.
fn writes_without_room(saved: &SavedState) -> (Result<(), Refusal>, bool) {
    let mut room = [0; 50];
    let end = saved.write_to(&mut WriterSink::new(&mut room[..]));
    (end, room.starts_with(b"# GALERA "))
}

#[test]
fn a_writer_without_room_is_a_stream_fault(rt: HostRuntime) -> Result<(), Fail> {
    let saved = state((b"11111111-1111-4111-8111-111111111111:4", false))?;
    let found = writes_without_room(&saved);
    assert_eq!(rt; found, (Err(Refusal::StreamFault), true));
    Ok(())
}
