//! The window that a disk keeps beside a superblock, as bytes.

ghost use Rattle.std.specs.Prelude.{◌≡◌, ◌≤◌, ◌↔◌, length, true, IfSome, IsSome};
ghost use Rattle.rep_layout.specs.Windows.{IsWindowBody, window, window_bytes};

use crate::format::Format;
use crate::place::WINDOW_BODY;
use crate::window_reader::{Head, Standing, is_reach};
use arrayvec::ArrayVec;
use rep_forms::{Put, follows, put_run, put_zeros};
use rep_types::{Entry, Params, Reach, Window};
use std::marker::Model;

/// A window as it is written: its format, the number and the position of the superblock that it goes
/// with, how far back it reaches, and what it holds.
#[derive(Drop)]
pub struct WindowBody<'a> {
    /// In which format it is spelled: that of the superblock.
    pub format: Format,
    /// The number of the superblock.
    pub number: u64,
    /// The position of the superblock.
    pub position: u64,
    /// How many seqnos it spans, and its floor.
    pub reach: Reach,
    /// The committed write sets that it holds, in the order of their seqnos.
    pub entries: &'a [Entry],
}

impl<'a> Model for WindowBody<'a> {
    ghost use Rattle.rep_layout.specs.Windows.{Window, window};

    ghost Value = { Window };

    ghost view = { λ w. window w.format w.number w.position (record { size = w.reach.size; floor = w.reach.floor; entries = w.entries.now }) };
}

impl<'a> WindowBody<'a> {
    /// The body of this window, in this format, beside a superblock of this number and this position.
    pub fn of(format: Format, number: u64, position: u64, kept: &'a Window) -> WindowBody<'a>
        ensures { result ≡ window format number position kept.now }
    {
        WindowBody {
            format,
            number,
            position,
            reach: Reach {
                size: kept.size(),
                floor: kept.floor(),
            },
            entries: kept.entries(),
        }
    }

    /// Whether it can be a window under the parameters, so that `write_body` writes it.
    pub fn fits(&self, params: &Params) -> bool
        ensures is { (result ≡ true) ↔ IsWindowBody params.now self.now }
        ensures few { result ≡ true → length self.now.kept.entries ≤ 256 }
    {
        // For their ranges.
        let _number = self.number;
        let _position = self.position;
        let standing = Standing {
            params,
            floor: self.reach.floor,
            position: self.position,
            before: 0,
        };
        if !is_reach(self.format, params, self.position, &self.reach) {
            return false;
        }
        if self.entries.len() as u64 > self.reach.size.get() {
            return false;
        }
        follows(standing, self.entries)
    }

    /// The bytes of the window's body, 23,040; None where it cannot be a window under the parameters:
    /// where in format 1 its size is not that of the parameters, or its floor not the least seqno that
    /// this size spans at the position, 1 or more; where in format 2 its floor is below that least seqno
    /// of its own size, or above the position and above 1; where there are more entries than the size;
    /// where the seqnos do not ascend strictly, or one is below the floor or above the position; or where
    /// an entry has no key, or keys that do not ascend strictly or are not of the schema.
    #[tactic(auto, using(rep_forms::specs::FormLaws::sizes, std::proofs::Common::append_assoc, crate::proofs::Windows::head_size))]
    pub fn write_body(&self, params: &Params) -> Option<ArrayVec<u8, WINDOW_BODY>>
        ensures some { IsSome result ↔ IsWindowBody params.now self.now }
        // What is written is a window, and that is its spelling: so it is read again.
        ensures bytes { IfSome result (λ b. IsWindowBody params.now self.now × (b.items ≡ window_bytes self.now)) }
        ensures size { IfSome result (λ b. length b.items ≡ WINDOW_BODY) }
    {
        if !self.fits(params) {
            return None;
        }
        let head = Head::of(
            self.format,
            self.number,
            self.position,
            self.entries.len() as u16,
            &self.reach,
        );
        let mut out: ArrayVec<u8, WINDOW_BODY> = ArrayVec::new();
        head.put(&mut out);
        put_run(&mut out, self.entries);
        let rest = WINDOW_BODY - out.len();
        put_zeros(&mut out, rest);
        Some(out)
    }
}
