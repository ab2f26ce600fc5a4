//! What the lines of a text ask of a node that follows an order, whatever their bytes are.

use rep_record::no_effect;
use rep_requests::{Request, read_order, read_request};
use rep_types::Refusal;
use std::alloc::Global;
use std::process::Abort;
use std::test::Fail;

/// What a request is, and its number: an item's seqno, how many keys are read, how many bytes a transfer's names have, or the number of
/// a refusal. An item that has no effect is told apart from the others.
fn told(request: &Request) -> (&'static str, u64) {
    match request {
        Request::Nothing => ("nothing", 0),
        Request::Published(seqno, item) if *item == no_effect() => ("no effect", *seqno),
        Request::Published(seqno, _) => ("published", *seqno),
        Request::Stated(_) => ("stated", 0),
        Request::Read(keys) => ("read", keys.len() as u64),
        Request::Sum(None) => ("sum of what is durable", 0),
        Request::Sum(Some(position)) => ("sum", *position),
        Request::State => ("state", 0),
        Request::Limits => ("limits", 0),
        Request::Counters => ("counters", 0),
        Request::Donate(have, out) => (
            "donate",
            (100 * have.len().min(99) + out.len().min(99)) as u64,
        ),
        Request::Refused(refusal) => ("refused", u64::from(refusal.number())),
        Request::Broken => ("broken", 0),
    }
}

/// Lines, and what they ask for.
const LINES: &[(&str, &str, u64)] = &[
    ("1 item 0 w 0/1=61", "published", 1),
    ("007 window 4 id 1:2", "published", 7),
    (
        "18446744073709551615 item 0 w 0/1-",
        "published",
        18446744073709551615,
    ),
    // Any text behind a seqno is an item, a command among them.
    ("2 state", "no effect", 2),
    ("3 donate have out", "no effect", 3),
    ("4 ", "no effect", 4),
    ("5  item 0 w 0/1=61", "published", 5),
    ("6 item 0 w 0/1=6", "no effect", 6),
    ("8 7 item 0 w 0/1=61", "no effect", 8),
    ("9 params 4 4 126", "no effect", 9),
    ("10 window 257", "no effect", 10),
    // A seqno is one of 64 bits, of 20 digits at most.
    ("18446744073709551616 item 0 w 0/1=61", "broken", 0),
    ("000000000000000000001 item 0 w 0/1=61", "broken", 0),
    ("5", "broken", 0),
    ("5x item 0 w 0/1=61", "broken", 0),
    ("5:item", "broken", 0),
    // An item without a seqno is one that its node owns.
    ("item 0 w 0/1=61", "stated", 0),
    (" window 4", "stated", 0),
    ("item 0 w 0/1=6", "refused", 16),
    ("window 257", "refused", 15),
    (
        "item 0 r 0/1 0/2 0/3 0/4 0/5 0/6 0/7 0/8 0/9 0/10 0/11 0/12 0/13 0/14 0/15 0/16 0/17 w 0/1-",
        "refused",
        17,
    ),
    // Commands.
    ("read 0/1", "read", 1),
    ("read 0/1 0/1 255/4294967295", "read", 3),
    (
        "read 0/1 0/2 0/3 0/4 0/5 0/6 0/7 0/8 0/9 0/10 0/11 0/12 0/13 0/14 0/15 0/16",
        "read",
        16,
    ),
    (
        "read 0/1 0/2 0/3 0/4 0/5 0/6 0/7 0/8 0/9 0/10 0/11 0/12 0/13 0/14 0/15 0/16 0/17",
        "refused",
        17,
    ),
    ("read", "refused", 16),
    ("read 256/1", "refused", 16),
    ("read 0/1 x", "refused", 16),
    ("sum", "sum of what is durable", 0),
    ("sum 0", "sum", 0),
    ("sum 18446744073709551615", "sum", 18446744073709551615),
    ("sum 18446744073709551616", "refused", 16),
    ("sum 1 2", "refused", 16),
    ("sum x", "refused", 16),
    ("state", "state", 0),
    ("  state  ", "state", 0),
    ("state now", "refused", 16),
    ("limits", "limits", 0),
    ("counters", "counters", 0),
    ("counters 1", "refused", 16),
    ("donate have out", "donate", 403),
    ("donate have", "refused", 16),
    ("donate have out more", "refused", 16),
    (
        "order 11111111-1111-4111-8111-111111111111:0",
        "refused",
        16,
    ),
    ("", "nothing", 0),
    ("   ", "nothing", 0),
    ("# a remark", "refused", 16),
    (" 1 item 0 w 0/1=61", "refused", 16),
    ("+1 item 0 w 0/1=61", "refused", 16),
];

#[test]
fn a_line_asks_for_what_it_says(rt: HostRuntime) {
    for (line, what, number) in LINES {
        let request = read_request(line.as_bytes(), 7);
        assert_eq!(rt; (line, told(&request)), (line, (*what, *number)));
    }
}

/// What a line asks for that has this front, and zeros, spaces or letters behind it up to so many bytes.
fn long(
    alloc: Global,
    front: &str,
    filler: u8,
    length: usize,
) -> Result<(&'static str, u64), Refusal> {
    let mut line = Vec::new(alloc);
    line.extend_from_slice(front.as_bytes())?;
    for _ in front.len()..length {
        line.push(filler)?;
    }
    Ok(told(&read_request(&line, 7)))
}

/// What a line begins with, the byte behind it, as often as it takes, the line's length, and what is told of it. The text of an item has at most 4,096 bytes,
/// and any other line too.
const LONG: &[(&str, u8, usize, (&str, u64))] = &[
    ("12 item 0 w 0/1=61", b' ', 3 + 4096, ("published", 12)),
    ("12 item 0 w 0/1=61", b' ', 3 + 4097, ("no effect", 12)),
    ("12 item 0 w 0/1=61", b' ', 8192, ("no effect", 12)),
    ("0", b'0', 8192, ("broken", 0)),
    ("item 0 w 0/1=61", b' ', 4096, ("stated", 0)),
    ("item 0 w 0/1=61", b' ', 4097, ("refused", 16)),
    ("", b' ', 4097, ("refused", 16)),
];

#[test]
fn a_long_line_is_held_to_its_limit(rt: HostRuntime) {
    for (front, filler, length, wanted) in LONG {
        assert!(rt;
            long(rt.alloc(), front, *filler, *length) == Ok(*wanted),
            "{length} bytes from {front}"
        );
    }
}

/// The first lines of a text, and whether they are the position of an order.
const FIRST: &[(&str, Result<bool, Refusal>)] = &[
    ("order 11111111-1111-4111-8111-111111111111:0", Ok(true)),
    (" order 11111111-1111-4111-8111-111111111111:17 ", Ok(true)),
    ("", Ok(false)),
    ("  ", Ok(false)),
    (
        "order 11111111-1111-4111-8111-111111111111:-1",
        Err(Refusal::Malformed { at: 7 }),
    ),
    (
        "order 11111111-1111-4111-8111-111111111111",
        Err(Refusal::Malformed { at: 7 }),
    ),
    (
        "order 11111111-1111-4111-8111-111111111111:0 1",
        Err(Refusal::Malformed { at: 7 }),
    ),
    ("order", Err(Refusal::Malformed { at: 7 })),
    ("state", Err(Refusal::Malformed { at: 7 })),
    ("1 item 0 w 0/1=61", Err(Refusal::Malformed { at: 7 })),
];

#[test]
fn an_order_begins_with_its_position(rt: HostRuntime) {
    for (line, found) in FIRST {
        let read = read_order(line.as_bytes(), 7).map(|gtid| gtid.is_some());
        assert_eq!(rt; (line, read), (line, *found));
    }
}
