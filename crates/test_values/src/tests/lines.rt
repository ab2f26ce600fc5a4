//! Lines of a text that comes in pieces: whole ones are handed out, whatever the pieces are, and each piece is asked for once.

ghost use Rattle.std.specs.Prelude.{None, false};

use arrayvec::ArrayVec;
use rep_lines::{Feed, MAX_KEPT};
use rep_streams::Source;
use rep_types::Refusal;
use std::alloc::{AllocError, Global};
use std::process::Abort;
use std::test::Fail;

/// A source that gives one of these pieces a call, and then the end.
#[derive(Drop)]
struct Pieces<'a> {
    pieces: &'a [&'a str],
    given: usize,
}

impl Source for Pieces<'_> {
    ghost remaining = { λ _. None };

    ghost failed = { λ _. false };

    fn read(&mut self, room: &mut [u8]) -> Result<usize, Refusal> {
        let Some(piece) = self.pieces.get(self.given) else {
            return Ok(0);
        };
        self.given += 1;
        let count = piece.len().min(room.len());
        room[..count].copy_from_slice(&piece.as_bytes()[..count]);
        Ok(count)
    }
}

/// Writes each line that is whole behind the others, a bar behind each.
fn take_whole(feed: &mut Feed, said: &mut Vec<u8>) -> Result<(), AllocError> {
    let mut line = ArrayVec::<u8, MAX_KEPT>::new();
    for _ in 0..u64::MAX {
        if !feed.next_whole(&mut line) {
            break;
        }
        said.extend_from_slice(&line)?;
        said.push(b'|')?;
    }
    Ok(())
}

/// What is handed out of these pieces, a bar behind each line, and a star for each time that more is asked for; behind it a question mark
/// where something is left that has no end.
fn handed(alloc: Global, pieces: &[&str]) -> Result<Vec<u8>, Refusal> {
    let mut source = Pieces { pieces, given: 0 };
    let mut feed = Feed::new();
    let mut said = Vec::new(alloc);
    for _ in 0..u64::MAX {
        take_whole(&mut feed, &mut said)?;
        said.push(b'*')?;
        if !feed.more(&mut source)? {
            break;
        }
    }
    if !feed.is_empty() {
        said.push(b'?')?;
    }
    Ok(said)
}

/// The pieces of texts, and what is handed out.
const TEXTS: &[(&[&str], &str)] = &[
    (&[], "*"),
    (&["a\n"], "*a|*"),
    (&["a\nb\n\nc\n"], "*a|b||c|*"),
    (&["a\nbc", "d\n\n", "e"], "*a|*bcd||**?"),
    (&["a", "b", "c\n"], "***abc|*"),
    (&["\n", "\n"], "*|*|*"),
    (&["1 item", " 0 w 0/1=61\n2 "], "**1 item 0 w 0/1=61|*?"),
];

#[test]
fn lines_are_handed_out_once_they_are_whole(rt: HostRuntime) {
    for (pieces, said) in TEXTS {
        let found = handed(rt.alloc(), pieces);
        assert!(rt; found.is_ok_and(|bytes| bytes.as_slice() == said.as_bytes()));
    }
}

/// How many bytes the first line has, and how many the second, of a text whose first line has so many, and comes in pieces of 1,000.
fn lengths(alloc: Global, thousands: usize) -> Result<(usize, usize), Refusal> {
    let thousand = vec![in alloc; b'x'; 1000]?;
    let mut source = rep_streams::MemorySource::new(&[]);
    let mut feed = Feed::new();
    let mut line = ArrayVec::<u8, MAX_KEPT>::new();
    for _ in 0..thousands {
        let mut piece = rep_streams::MemorySource::new(&thousand);
        feed.more(&mut piece)?;
    }
    let mut piece = rep_streams::MemorySource::new(b"\nyy\n");
    feed.more(&mut piece)?;
    feed.next_whole(&mut line);
    let first = line.len();
    feed.next_whole(&mut line);
    feed.more(&mut source)?;
    Ok((first, line.len()))
}

// A line of more than 8,192 bytes is handed out as its first 8,192, however long it is, and the next line behind it.
#[test]
fn of_a_long_line_the_front_is_handed_out(rt: HostRuntime) {
    assert_eq!(rt; lengths(rt.alloc(), 8), Ok((8000, 2)));
    assert_eq!(rt; lengths(rt.alloc(), 9), Ok((8192, 2)));
    assert_eq!(rt; lengths(rt.alloc(), 200), Ok((8192, 2)));
}
