//! The line of an item of either kind: a write set, or a change of the window's size.

ghost use Rattle.std.specs.Prelude.{◌≡◌, ◌≢◌, IfOk, IfErr, Err};
ghost use Rattle.rep_types.specs.declared.item.Item.{Item};
ghost use Rattle.rep_types.specs.declared.item.Item.TheVariants.{SetWindow as OfSetWindow};
ghost use Rattle.rep_types.specs.Transactions.{Renews};
ghost use Rattle.rep_record.specs.Grammar.{IsOrderLine};
ghost use Rattle.rep_record.specs.Reading.{sized, of_kind, change_in, change_outcome, item_in, limited_item, order_outcome, order_line};

use crate::item_line::{read_labels, renew_by_item_line, renew_by_tail};
use crate::published::no_effect;
use crate::words::Words;
use rep_types::{Item, Refusal, SetWindow, WindowSize, read_number};
use std::marker::Model;

/// What a change's line says, whose size may be any number.
#[derive(Drop)]
struct ChangeDraft {
    size: u64,
    source: u64,
    trx: u64,
}

impl Model for ChangeDraft {
    ghost use Rattle.rep_types.specs.declared.item.SetWindow.{SetWindow as Stated};

    ghost Value = { Stated };

    ghost view = { λ d. record { size = d.size; source = d.source; trx = d.trx } };
}

impl ChangeDraft {
    /// The change, or that its size is outside the limits.
    fn change(&self) -> Result<SetWindow, Refusal>
        ensures { result ≡ sized self.now }
    {
        Ok(SetWindow {
            size: WindowSize::new(self.size)?,
            source: self.source,
            trx: self.trx,
        })
    }
}

/// What stands behind `window`.
#[tactic(auto, unfolding(crate::specs::Reading::change_in))]
fn read_change_draft(mut words: Words) -> Option<ChangeDraft>
    ensures { result ≡ change_in words.entry }
{
    let size = read_number(words.next_word()?)?;
    let (source, trx) = read_labels(&mut words)?;
    if !words.is_empty() {
        return None;
    }
    Some(ChangeDraft { size, source, trx })
}

/// The change of which this was read, of the line with this number; a line of which nothing was is
/// malformed.
fn change_of(draft: Option<ChangeDraft>, number: u64) -> Result<SetWindow, Refusal>
    ensures { result ≡ change_outcome number draft }
{
    let Some(draft) = draft else {
        return Err(Refusal::Malformed { at: number });
    };
    draft.change()
}

/// The change of the window's size that stands behind `window`, in the line with this number.
fn read_change(words: Words, number: u64) -> Result<SetWindow, Refusal>
    ensures { result ≡ change_outcome number (change_in words.entry) }
{
    change_of(read_change_draft(words), number)
}

/// Puts the change of the window's size that stands behind `window` in the item's place, in the line with this number.
fn renew_by_change(words: Words, number: u64, item: &mut Item) -> Result<(), Refusal>
    ensures { Renews (of_kind OfSetWindow (change_outcome number (change_in words.entry))) item.old item.new result }
{
    *item = Item::SetWindow(read_change(words, number)?);
    Ok(())
}

/// Puts the item of either kind that the words say in the item's place, in the line with this number.
#[tactic(auto, using(crate::proofs::Outcomes::stated_by_kind))]
fn renew_by_kind(mut words: Words, number: u64, item: &mut Item) -> Result<(), Refusal>
    ensures { Renews (order_outcome number (item_in words.entry)) item.old item.new result }
{
    if words.skip(b"window") {
        return renew_by_change(words, number, item);
    }
    renew_by_tail(words, number, item)
}

/// Puts the item that the words say, in the line with this number, in the item's place, which so is not moved: `window size
/// [id source:trx]`, or a tail.
///
/// Refuses as `read_order_line` does; then the item stays.
#[tactic(auto, using(crate::proofs::Outcomes::order_own))]
pub fn renew_stated(words: Words, number: u64, item: &mut Item) -> Result<(), Refusal>
    ensures value { Renews (order_outcome number (item_in words.entry)) item.old item.new result }
    // No item is refused as a stream that has failed.
    ensures own { IfErr result (λ refusal. refusal ≢ Refusal.StreamFault) }
{
    renew_by_kind(words, number, item)
}

/// The item that the words say, in the line with this number, as `renew_stated` reads it.
///
/// Refuses as `read_order_line` does.
pub fn read_stated(words: Words, number: u64) -> Result<Item, Refusal>
    ensures value { result ≡ order_outcome number (item_in words.entry) }
    // No item is refused as a stream that has failed.
    ensures own { IfErr result (λ refusal. refusal ≢ Refusal.StreamFault) }
{
    let mut item = no_effect();
    match renew_stated(words, number, &mut item) {
        Ok(()) => Ok(item),
        Err(refusal) => Err(refusal),
    }
}

/// Puts the item of either kind that the line with this number says in the item's place.
#[tactic(auto, using(crate::proofs::Outcomes::order_by_kind))]
fn renew_by_either(line: &[u8], number: u64, item: &mut Item) -> Result<(), Refusal>
    ensures { Renews (order_line number line.now) item.old item.new result }
{
    let mut words = Words::new(line);
    if words.skip(b"window") {
        return renew_by_change(words, number, item);
    }
    renew_by_item_line(line, number, item)
}

/// Puts the item that the line with this number says, as `read_order_line` reads it, in the item's place, which so is not moved.
///
/// Refuses as that does; then the item stays.
pub fn renew_order_line(line: &[u8], number: u64, item: &mut Item) -> Result<(), Refusal>
    ensures value { Renews (order_line number line.now) item.old item.new result }
    // No line is refused as a stream that has failed.
    ensures own { IfErr result (λ refusal. refusal ≢ Refusal.StreamFault) }
{
    renew_by_either(line, number, item)
}

/// The item that the line with this number says: `window size [id source:trx]`, a change of the
/// window's size to so many seqnos, with its labels, 0:0 where none stand there; or `item` and a tail, a
/// write set, as `read_item_line` reads it.
///
/// Refuses with `Malformed`, `at` being the line's number, a line that is of neither form, and then a
/// change to a size outside 1 to 256 with `BadParams`, and a write set as `read_item_line` does.
pub fn read_order_line(line: &[u8], number: u64) -> Result<Item, Refusal>
    // What is read is in the grammar.
    ensures found { IfOk result (λ i. IsOrderLine line.now i) }
    // Of a line of the form, the item, or the first limit that it passes.
    ensures formed { (i : Item) → IsOrderLine line.now i → result ≡ limited_item number i }
    // A line of no form is malformed.
    ensures unformed { ((i : Item) → IsOrderLine line.now i → ⊥) → result ≡ Err (Refusal.Malformed number) }
    ensures exact { result ≡ order_line number line.now }
    // No line is refused as a stream that has failed.
    ensures own { IfErr result (λ refusal. refusal ≢ Refusal.StreamFault) }
{
    let mut item = no_effect();
    match renew_order_line(line, number, &mut item) {
        Ok(()) => Ok(item),
        Err(refusal) => Err(refusal),
    }
}
