//! What a line asks for.

ghost use Rattle.std.specs.Prelude.{◌<◌, IfSome};

use crate::damaged::Damage;
use crate::device::Failing;
use arrayvec::ArrayVec;
use rep_disk::Loss;
use rep_record::{Words, read_params_line};
use rep_script::{Command, next_number, read_command, read_loss};
use rep_types::{Params, Refusal};

/// The most bytes that a line can put into the disk.
const MAX_PUT: usize = 1024;

/// The bytes that a line puts into the disk.
pub(crate) type Part = ArrayVec<u8, MAX_PUT>;

/// What changes the bytes of the disk.
#[derive(Drop)]
pub(crate) enum Change {
    /// A new disk of so many bytes, each of which is this one.
    Blank(u64, u8),
    /// These bytes stand at this place, and all bytes are stable.
    Put(u64, Part),
    /// These bytes are written at this place.
    Write(u64, Part),
    /// The disk keeps so many bytes, all of them stable.
    Cut(u64),
}

/// What is shown of the disk.
#[derive(Clone, Copy)]
pub(crate) enum Sight {
    /// So many bytes from this place on.
    Bytes(u64, u64),
    /// A fingerprint of all bytes.
    Fingerprint,
    /// How often it failed.
    Failures,
}

/// What is done to the disk. A node on it is let go.
#[derive(Drop)]
pub(crate) enum DiskOrder {
    /// Its bytes change.
    Change(Change),
    /// It is formatted for these parameters, as that of a node of no cluster where that is asked.
    Format(Params, bool),
    /// What a stop with this loss does to it.
    Crash(Loss),
    /// From now on it fails so.
    Arm(Failing),
    /// From now on it is so damaged.
    Damage(Damage),
    /// It is shown.
    Show(Sight),
}

/// What is done to the node.
#[derive(Drop)]
pub(crate) enum NodeOrder {
    /// What a script asks for.
    Script(Command),
    /// It settles by itself.
    Settle,
    /// It is taken apart and put together again, as a stopped one or as it was.
    Apart(bool),
    /// What it says of itself is shown.
    Node,
    /// Its window is shown, with the keys.
    Window,
}

/// What becomes of a transfer on its way.
#[derive(Clone, Copy)]
pub(crate) enum Harm {
    /// It ends behind so many bytes.
    Shorten(u64),
    /// At this place this byte comes.
    Change(u64, u8),
}

/// What is done with the donor.
#[derive(Clone, Copy)]
pub(crate) enum JoinOrder {
    /// It writes a transfer for the node.
    Donate,
    /// So much becomes of that on its way.
    Spoil(Harm),
    /// The node takes it.
    Join,
    /// The node begins to install the donor's snapshot.
    Bring,
    /// The page of this number is taken from the donor's base, and put.
    Page(u32),
    /// It takes its place.
    End,
    /// It is given up.
    GiveUp,
}

/// What a line asks for.
#[derive(Drop)]
pub(crate) enum Order {
    Disk(DiskOrder),
    Node(NodeOrder),
    /// A copy of the disk is the donor's from now on.
    Lend,
    /// The disk and the donor's change places.
    Swap,
    Join(JoinOrder),
    /// The disk is opened.
    Open,
    /// The events of so many lines that follow are run together.
    Batch(u64),
}

/// The digit that the byte is, from 0 to 15.
fn digit_of(byte: u8) -> Option<u8>
    ensures { IfSome result (λ digit. digit < 16) }
{
    match byte {
        b'0'..=b'9' => Some(byte - b'0'),
        b'a'..=b'f' => Some(byte - b'a' + 10),
        _ => None,
    }
}

/// The byte that the two digits are.
fn byte_of(high: u8, low: u8) -> Option<u8> {
    Some(digit_of(high)? * 16 + digit_of(low)?)
}

/// The bytes that the word writes, two digits each.
fn bytes_in(word: &[u8]) -> Option<Part> {
    let mut bytes = Part::new();
    for digits in word.chunks(2) {
        let [high, low] = digits else {
            return None;
        };
        if bytes.is_full() {
            return None;
        }
        bytes.push(byte_of(*high, *low)?);
    }
    Some(bytes)
}

/// A place, and the bytes for it.
fn read_part(words: &mut Words) -> Option<(u64, Part)> {
    let at = next_number(words)?;
    let part = bytes_in(words.next_word()?)?;
    Some((at, part))
}

/// Which calls fail: `once n`, or `from n` on.
fn read_failing(words: &mut Words) -> Option<Failing> {
    if words.skip(b"once") {
        Some(Failing::Once(next_number(words)?))
    } else if words.skip(b"from") {
        Some(Failing::FromThenOn(next_number(words)?))
    } else {
        None
    }
}

/// Behind how many calls which bytes are read at which place: `n`, the place, the bytes.
fn read_damage(words: &mut Words) -> Option<Damage> {
    let calls = next_number(words)?;
    let (at, part) = read_part(words)?;
    Some(Damage { calls, at, part })
}

/// What changes the bytes of the disk.
fn read_change(words: &mut Words) -> Option<Change> {
    if words.skip(b"disk") {
        let size = next_number(words)?;
        let byte = u8::try_from(next_number(words)?).ok()?;
        Some(Change::Blank(size, byte))
    } else if words.skip(b"put") {
        let (at, part) = read_part(words)?;
        Some(Change::Put(at, part))
    } else if words.skip(b"write") {
        let (at, part) = read_part(words)?;
        Some(Change::Write(at, part))
    } else if words.skip(b"cut") {
        Some(Change::Cut(next_number(words)?))
    } else {
        None
    }
}

/// What is shown of the disk.
fn read_sight(words: &mut Words) -> Option<Sight> {
    if words.skip(b"bytes") {
        let at = next_number(words)?;
        Some(Sight::Bytes(at, next_number(words)?))
    } else if words.skip(b"fingerprint") {
        Some(Sight::Fingerprint)
    } else if words.skip(b"failures") {
        Some(Sight::Failures)
    } else {
        None
    }
}

/// What is done to the disk, but for its formatting.
fn read_disk(words: &mut Words) -> Option<DiskOrder> {
    if words.skip(b"crash") {
        return Some(DiskOrder::Crash(read_loss(words)?));
    }
    if words.skip(b"fail") {
        return Some(DiskOrder::Arm(read_failing(words)?));
    }
    if words.skip(b"damage") {
        return Some(DiskOrder::Damage(read_damage(words)?));
    }
    match read_change(words) {
        Some(change) => Some(DiskOrder::Change(change)),
        None => read_sight(words).map(DiskOrder::Show),
    }
}

/// What is done to the node, beside what a script knows.
fn read_node(words: &mut Words) -> Option<NodeOrder> {
    if words.skip(b"settle") {
        Some(NodeOrder::Settle)
    } else if words.skip(b"apart") {
        Some(NodeOrder::Apart(words.skip(b"stopped")))
    } else if words.skip(b"node") {
        Some(NodeOrder::Node)
    } else if words.skip(b"window") {
        Some(NodeOrder::Window)
    } else {
        None
    }
}

/// What becomes of a transfer on its way.
fn read_harm(words: &mut Words) -> Option<Harm> {
    if words.skip(b"shorten") {
        Some(Harm::Shorten(next_number(words)?))
    } else if words.skip(b"spoil") {
        let at = next_number(words)?;
        Some(Harm::Change(at, u8::try_from(next_number(words)?).ok()?))
    } else {
        None
    }
}

/// What is done with the donor's transfer.
fn read_transfer(words: &mut Words) -> Option<JoinOrder> {
    if words.skip(b"donate") {
        Some(JoinOrder::Donate)
    } else if words.skip(b"join") {
        Some(JoinOrder::Join)
    } else {
        read_harm(words).map(JoinOrder::Spoil)
    }
}

/// What is done with the donor: with its snapshot, or with its transfer.
fn read_join(words: &mut Words) -> Option<JoinOrder> {
    if words.skip(b"bring") {
        Some(JoinOrder::Bring)
    } else if words.skip(b"page") {
        Some(JoinOrder::Page(u32::try_from(next_number(words)?).ok()?))
    } else if words.skip(b"end") {
        Some(JoinOrder::End)
    } else if words.skip(b"give_up") {
        Some(JoinOrder::GiveUp)
    } else {
        read_transfer(words)
    }
}

/// What no line of a script asks for.
fn read_own(words: &mut Words) -> Option<Order> {
    if words.skip(b"open") {
        return Some(Order::Open);
    }
    if words.skip(b"lend") {
        return Some(Order::Lend);
    }
    if words.skip(b"swap") {
        return Some(Order::Swap);
    }
    if let Some(order) = read_join(words) {
        return Some(Order::Join(order));
    }
    if words.skip(b"batch") {
        return Some(Order::Batch(next_number(words)?));
    }
    if let Some(order) = read_disk(words) {
        return Some(Order::Disk(order));
    }
    read_node(words).map(Order::Node)
}

/// The parameters of a format, `params W N rows ..`, where the line asks for one; and whether `undefined` stands before them.
fn read_format(line: &[u8], number: u64) -> Result<Option<DiskOrder>, Refusal> {
    let (rest, is_undefined) = match line.strip_prefix(b"undefined") {
        Some(rest) => (rest, true),
        None => (line, false),
    };
    if !Words::new(rest).is_next(b"params") {
        return Ok(None);
    }
    let params = read_params_line(rest, number)?;
    Ok(Some(DiskOrder::Format(params, is_undefined)))
}

/// What the line with this number asks for.
pub(crate) fn read_order(line: &[u8], number: u64) -> Result<Order, Refusal> {
    if let Some(order) = read_format(line, number)? {
        return Ok(Order::Disk(order));
    }
    match read_own(&mut Words::new(line)) {
        Some(order) => Ok(order),
        None => Ok(Order::Node(NodeOrder::Script(read_command(line, number)?))),
    }
}
