//! The window that a disk keeps beside a superblock, out of its bytes.

ghost use Rattle.std.specs.Prelude.{◌≡◌, ◌+◌, ◌-◌, ◌<◌, ◌≤◌, ◌^◌, ◌==◌, ◌++◌, ◌↔◌, [], List, max, length, true, is_none, IsTrue, IfSome, IfOk, IfErr, Some, Ok, MatchOption};
ghost use Rattle.std.specs.List.{list_all};
ghost use Rattle.rep_types.specs.Entries.{Entry};
ghost use Rattle.rep_types.specs.Windows.{Window as Kept, is_window_size};
ghost use Rattle.rep_types.specs.declared.refusal.Part.TheVariants.{Window as WindowPart};
ghost use Rattle.rep_types.specs.Keys.{disorder};
ghost use Rattle.rep_types.specs.Settings.{has_row};
ghost use Rattle.rep_layout.specs.Windows.{Window, beside, with_first, IsOfFormat, IsWindowBody, window_bytes, front_bytes, reach_bytes, head_form, head_with, is_entry, next_entry, WindowsAreTold};
ghost use Rattle.rep_layout.specs.Formats.{told_by};

use crate::format::Format;
use crate::place::WINDOW_BODY;
use crate::super_body::SuperBody;
use arrayvec::ArrayVec;
use rep_forms::{
    Chain, Exact, Form, Put, Run, are_blank, put_bytes, put_u16, put_u64, put_zeros, read_chain,
    read_front, read_part, read_u16, read_u64, runs_are_told, spellings_are_told, strip_front,
};
use rep_types::{Entry, Key, Params, Part, Reach, Refusal, WindowSize};
use std::marker::Model;

/// The first seven bytes, in front of the format's digit.
const MARK: &[u8; 7] = b"REPWIND";

/// The number of bytes before the entries.
const HEAD: usize = 256;

/// The number of zeros in front of the entries.
const HEAD_ZEROS: usize = 220;

/// What a window's body begins with: the format, the number and the position of its superblock, how
/// many entries there are, and the window's size and its floor, which are 0 in format 1.
#[derive(Drop)]
pub(crate) struct Head {
    pub(crate) format: Format,
    pub(crate) number: u64,
    pub(crate) position: u64,
    pub(crate) count: u16,
    pub(crate) size: u16,
    pub(crate) floor: u64,
}

impl Head {
    /// The head of a window with so many entries that reaches so far back.
    pub(crate) fn of(format: Format, number: u64, position: u64, count: u16, reach: &Reach) -> Head
        ensures { result ≡ head_with format number position count reach.now.size reach.now.floor }
    {
        let (size, floor) = match format {
            Format::One => (0, 0),
            Format::Two => (reach.size.get() as u16, reach.floor),
        };
        Head {
            format,
            number,
            position,
            count,
            size,
            floor,
        }
    }

    /// Puts the mark, the format, the number and the position: 24 bytes.
    #[tactic(auto, using(rep_forms::specs::FormLaws::sizes, rep_forms::specs::FormLaws::joined), unfolding(crate::specs::Windows::window_mark))]
    fn put_front<const N: usize>(&self, out: &mut ArrayVec<u8, N>)
        requires { length out.old.items + 24 ≤ N }
        ensures bytes { out.new.items ≡ out.old.items ++ front_bytes self.now }
        ensures size { length out.new.items ≡ length out.old.items + 24 }
        ensures number { self.now.number < 2 ^ 64 }
        ensures position { self.now.position < 2 ^ 64 }
    {
        put_bytes(out, MARK);
        self.format.put(out);
        put_u64(out, self.number);
        put_u64(out, self.position);
    }

    /// Puts how many entries there are, the size and the floor, and zeros: 232 bytes.
    #[tactic(auto, using(rep_forms::specs::FormLaws::sizes, rep_forms::specs::FormLaws::joined))]
    fn put_reach<const N: usize>(&self, out: &mut ArrayVec<u8, N>)
        requires { length out.old.items + 232 ≤ N }
        ensures bytes { out.new.items ≡ out.old.items ++ reach_bytes self.now }
        ensures count { self.now.count < 2 ^ 16 }
        ensures size { self.now.size < 2 ^ 16 }
        ensures floor { self.now.floor < 2 ^ 64 }
    {
        put_u16(out, self.count);
        put_u16(out, self.size);
        put_u64(out, self.floor);
        put_zeros(out, HEAD_ZEROS);
    }
}

impl Form for Head {
    ghost use Rattle.rep_layout.specs.WindowLaws.{head_is_form};

    ghost form = { head_form };

    ghost most = { 256 };

    #[tactic(auto, unfolding(crate::specs::Windows::window_mark))]
    fn read(bytes: &[u8]) -> Option<(Head, &[u8])> {
        let (_, rest) = read_part(bytes, MARK.len())?;
        let (format, rest) = Format::read(rest)?;
        let (number, rest) = read_u64(rest)?;
        let (position, rest) = read_u64(rest)?;
        let (count, rest) = read_u16(rest)?;
        let (size, rest) = read_u16(rest)?;
        let (floor, rest) = read_u64(rest)?;
        let (_, rest) = read_part(rest, HEAD_ZEROS)?;
        let head = Head {
            format,
            number,
            position,
            count,
            size,
            floor,
        };
        Some((head, rest))
    }

    ghost is_form = { head_is_form };
}

impl<const N: usize> Put<N> for Head {
    #[tactic(auto, using(rep_forms::specs::FormLaws::sizes, std::proofs::Common::append_assoc))]
    fn put(&self, out: &mut ArrayVec<u8, N>) {
        self.put_front(out);
        self.put_reach(out);
    }
}

impl Exact for Head {
    fn strip<'a>(&self, bytes: &'a [u8]) -> Option<&'a [u8]> {
        let mut spelling: ArrayVec<u8, HEAD> = ArrayVec::new();
        self.put(&mut spelling);
        strip_front(bytes, spelling.as_slice())
    }
}

/// How far back a window of format 1 reaches: its size is that of the parameters, and was so from the
/// first item on.
fn fixed_reach(params: &Params, position: u64) -> Reach
    ensures { result ≡ record { size = params.now.window; floor = max 1 (position + 1 - params.now.window) } }
{
    let size = params.window_size();
    Reach {
        size,
        floor: size.lowest_at(position).max(1),
    }
}

/// Whether the format can tell a window of the position that reaches so far back.
fn is_of_format(format: Format, params: &Params, position: u64, reach: &Reach) -> bool
    ensures { (entries : List Entry) → (result ≡ true) ↔ IsOfFormat format params.now position (record { size = reach.now.size; floor = reach.now.floor; entries = entries }) }
{
    match format {
        Format::One => *reach == fixed_reach(params, position),
        Format::Two => true,
    }
}

/// Whether a window of this format and position can reach so far back.
pub(crate) fn is_reach(format: Format, params: &Params, position: u64, reach: &Reach) -> bool
    ensures said { (entries : List Entry) → result ≡ true → IsOfFormat format params.now position (record { size = reach.now.size; floor = reach.now.floor; entries = entries }) }
    ensures least { result ≡ true → max 1 (position + 1 - reach.now.size) ≤ reach.now.floor }
    ensures most { result ≡ true → reach.now.floor ≤ max 1 position }
    ensures only { (entries : List Entry) → IsOfFormat format params.now position (record { size = reach.now.size; floor = reach.now.floor; entries = entries }) → max 1 (position + 1 - reach.now.size) ≤ reach.now.floor → reach.now.floor ≤ max 1 position → result ≡ true }
    ensures size { IsTrue (is_window_size reach.now.size) }
{
    let lowest = reach.size.lowest_at(position).max(1);
    reach.size.get() >= 1
        && lowest <= reach.floor
        && reach.floor <= position.max(1)
        && is_of_format(format, params, position, reach)
}

/// How far back the window of this head reaches, where its format tells it.
fn reach_of(params: &Params, head: &Head) -> Option<Reach>
    ensures found { IfSome result (λ r. (told_by head.now.format r.size ≡ head.now.size) × (told_by head.now.format r.floor ≡ head.now.floor)) }
    ensures only { (v : Kept) → IsTrue (is_window_size v.size) → IsOfFormat head.now.format params.now head.now.position v → told_by head.now.format v.size ≡ head.now.size → told_by head.now.format v.floor ≡ head.now.floor → result ≡ Some (record { size = v.size; floor = v.floor }) }
{
    match head.format {
        Format::One => {
            if head.size != 0 || head.floor != 0 {
                return None;
            }
            Some(fixed_reach(params, head.position))
        }
        Format::Two => {
            let size = WindowSize::new(u64::from(head.size)).ok()?;
            Some(Reach {
                size,
                floor: head.floor,
            })
        }
    }
}

/// Where the next entry stands: under these parameters, in a window of the position that reaches down to
/// the floor, behind an entry of the seqno `before`.
#[derive(Drop)]
pub(crate) struct Standing<'a> {
    pub(crate) params: &'a Params,
    pub(crate) floor: u64,
    pub(crate) position: u64,
    pub(crate) before: u64,
}

impl<'a> Model for Standing<'a> {
    ghost use Rattle.rep_layout.specs.Windows.{Standing as View, standing};

    ghost Value = { View };

    ghost view = { λ s. standing s.params.now s.floor s.position s.before };
}

/// Whether each key is above the one before it.
fn is_ascending(keys: &[Key]) -> bool
    ensures { result ≡ is_none (disorder keys.now) }
{
    for i in 1..keys.len() {
        if keys[i - 1] >= keys[i] {
            return false;
        }
    }
    true
}

/// Whether the keys are all rows.
fn are_rows(params: &Params, keys: &[Key]) -> bool
    ensures { result ≡ list_all (has_row params.now.rows) keys.now }
{
    let schema = params.schema();
    keys.iter().all(|key| schema.contains(*key))
}

impl Standing<'_> {
    /// Whether the entry can stand there.
    fn takes(&self, entry: &Entry) -> bool
        ensures { result ≡ is_entry self.now entry.now }
    {
        let seqno = entry.seqno();
        let keys = entry.keys();
        self.before < seqno
            && seqno <= self.position
            && self.floor <= seqno
            && !keys.is_empty()
            && is_ascending(keys)
            && are_rows(self.params, keys)
    }
}

impl<'a> Chain<Entry> for Standing<'a> {
    ghost step = { next_entry };

    fn admits(&mut self, entry: &Entry) -> bool {
        if !self.takes(entry) {
            return false;
        }
        self.before = entry.seqno();
        true
    }
}

/// A window as it is read: it hands out its entries one by one, out of bytes that were looked at
/// whole before.
#[derive(Drop)]
pub struct WindowReader<'a> {
    format: Format,
    number: u64,
    position: u64,
    reach: Reach,
    run: Run<'a, Entry>,
}

impl<'a> Model for WindowReader<'a> {
    ghost use Rattle.rep_layout.specs.Windows.{Window, window};

    ghost Value = { Window };

    ghost view = { λ w. window w.format w.number w.position (record { size = w.reach.size; floor = w.reach.floor; entries = w.run }) };
}

/// The window that all of the bytes are.
fn read_window<'a>(params: &Params, bytes: &'a [u8]) -> Option<WindowReader<'a>>
    ensures found { IfSome result (λ w. IsWindowBody params.now w × (bytes.now ≡ window_bytes w)) }
    ensures only { (w : Window) → IsWindowBody params.now w → bytes.now ≡ window_bytes w → result ≡ Some w }
{
    // For its clause: what holds of all parameters.
    let _span = params.window();
    let (head, body) = read_front::<Head>(bytes)?;
    let reach = reach_of(params, &head)?;
    if bytes.len() != WINDOW_BODY || u64::from(head.count) > reach.size.get() {
        return None;
    }
    if !is_reach(head.format, params, head.position, &reach) {
        return None;
    }
    let standing = Standing {
        params,
        floor: reach.floor,
        position: head.position,
        before: 0,
    };
    let Ok((run, rest)) = read_chain::<Entry, Standing>(standing, body, head.count) else {
        return None;
    };
    if !are_blank(rest) {
        return None;
    }
    Some(WindowReader {
        format: head.format,
        number: head.number,
        position: head.position,
        reach,
        run,
    })
}

impl<'a> WindowReader<'a> {
    /// Reads the body of a window, which all of the bytes are. It takes no memory.
    ///
    /// Refuses with `Corrupt`, the part being the window, what is not of the form: 23,040 bytes,
    /// which are `REPWIND1` or `REPWIND2`; the number and the position in 8 bytes each; the number of
    /// entries in 2, at most the window's size; in format 2 the size in 2, 1 to 256, and in 8 the floor,
    /// at least the least seqno that this size spans at the position and 1, and at most the position or
    /// 1; zeros up to 256; the entries, each its seqno in 8 bytes, the number of its keys in 1, and the
    /// keys in 5 each, the table before the row; and zeros. The highest byte of a number stands first. In
    /// format 1 the size is that of the parameters, and the floor the least seqno that it spans, or 1.
    /// The seqnos ascend strictly, from the floor on and not above the position; the keys, 1 to 16,
    /// ascend strictly and are of the schema.
    pub fn read_body(params: &Params, bytes: &'a [u8]) -> Result<WindowReader<'a>, Refusal>
        // What is read is spelled so.
        ensures found { IfOk result (λ w. IsWindowBody params.now w × (bytes.now ≡ window_bytes w)) }
        // What is spelled so is read.
        ensures only { (w : Window) → IsWindowBody params.now w → bytes.now ≡ window_bytes w → result ≡ Ok w }
        // Anything else is refused.
        ensures refused { IfErr result (λ e. e ≡ Refusal.Corrupt WindowPart) }
    {
        read_window(params, bytes).ok_or(Refusal::Corrupt { part: Part::Window })
    }

    /// Whether it stands beside this superblock: its format, its number and its position are those.
    fn is_beside(&self, base: &SuperBody) -> bool
        ensures { (result ≡ true) ↔ (self.now ≡ beside base.now self.now.kept) }
    {
        self.format == base.format && self.number == base.number && self.position == base.position
    }

    /// Reads the body of the window that stands beside a superblock, which all of the bytes are. It takes no memory.
    ///
    /// Refuses with `Corrupt`, the part being the window, what `read_body` refuses, and a window of another format, number or
    /// position than the superblock's.
    pub fn read_beside(base: &SuperBody, bytes: &'a [u8]) -> Result<WindowReader<'a>, Refusal>
        ensures form { IfOk result (λ w. (w ≡ beside base.now w.kept) × IsWindowBody base.now.params w) }
        // What is read is spelled so.
        ensures found { IfOk result (λ w. bytes.now ≡ window_bytes w) }
        // What is spelled so is read.
        ensures only { (v : Kept) → IsWindowBody base.now.params (beside base.now v) → bytes.now ≡ window_bytes (beside base.now v) → result ≡ Ok (beside base.now v) }
        // Anything else is refused.
        ensures refused { IfErr result (λ e. e ≡ Refusal.Corrupt WindowPart) }
    {
        let window = WindowReader::read_body(&base.params, bytes)?;
        if !window.is_beside(base) {
            return Err(Refusal::Corrupt { part: Part::Window });
        }
        Ok(window)
    }

    /// The number of the superblock that it goes with.
    pub fn number(&self) -> u64
        ensures { result ≡ self.now.number }
    {
        self.number
    }

    /// The position whose window it is.
    pub fn position(&self) -> u64
        ensures { result ≡ self.now.position }
    {
        self.position
    }

    /// The format in which it is spelled.
    pub fn format(&self) -> Format
        ensures { result ≡ self.now.format }
    {
        self.format
    }

    /// How many seqnos the window spans.
    pub fn size(&self) -> WindowSize
        ensures { result ≡ self.now.kept.size }
    {
        self.reach.size
    }

    /// The least seqno that it can hold.
    pub fn floor(&self) -> u64
        ensures { result ≡ self.now.kept.floor }
    {
        self.reach.floor
    }

    /// How many entries are still to be handed out.
    pub fn len(&self) -> usize
        ensures { result ≡ length self.now.kept.entries }
    {
        usize::from(self.run.len())
    }

    /// Whether none is.
    pub fn is_empty(&self) -> bool
        ensures { result ≡ (length self.now.kept.entries == 0) }
    {
        self.run.len() == 0
    }

    /// Hands out the next entry, in the order of the seqnos; None behind the last.
    pub fn next_entry(&mut self) -> Option<Entry>
        ensures { MatchOption result ((self.old.kept.entries ≡ []) × (self.new ≡ self.old)) (λ e. self.old ≡ with_first e self.new) }
    {
        self.run.next_value()
    }
}

/// The bytes of a window's body tell what it says: no two windows have one spelling.
pub fn windows_are_told()
    ensures { WindowsAreTold }
{
    spellings_are_told::<Head>();
    runs_are_told::<Entry>();
}
