//! Texts that are no items.

ghost use Rattle.std.specs.Prelude.{◌≡◌, ℕ, true, false};
ghost use Rattle.rep_types.specs.declared.item.Item.{Item as AnItem};
ghost use Rattle.rep_record.specs.Published.{IsPublished};
ghost use Rattle.rep_requests.specs.Requests.{Published as is_published, is_item, is_unreadable, requested};

use rep_record::{MAX_LINE, cut_at, no_effect, read_order_line};
use rep_types::Item;

/// Whether the text of an order is an item: a line of an order text, within the limits, of at most 4,096 bytes. Any other text is taken as the item
/// that has no effect.
fn is_item(text: &[u8]) -> bool
    ensures exact { result ≡ is_item text.now }
    // The text of an item within its limits, and no other.
    ensures stated { (i : AnItem) → IsPublished text.now i → result ≡ true }
    ensures found { result ≡ true → (i : AnItem) × IsPublished text.now i }
{
    if text.len() > MAX_LINE {
        return false;
    }
    match read_order_line(text, 0) {
        Ok(item) => {
            // For its clause: what holds of every item.
            item.limits();
            true
        }
        Err(_) => false,
    }
}

/// Whether what stands after the first space of the line is no item.
fn has_no_item(line: &[u8]) -> bool
    ensures { result ≡ is_unreadable line.now }
{
    match cut_at(line, b' ') {
        Some((_, text)) => !is_item(text),
        None => false,
    }
}

/// Whether the text of the line is no item, where the line is this item of an order that others write to. A text that is none is taken as the item
/// that has no effect: so the text is read again for that item alone.
pub fn is_unreadable(line: &[u8], item: &Item) -> bool
    ensures { (number seqno : ℕ) → requested number line.now ≡ is_published seqno item.now → result ≡ is_unreadable line.now }
{
    *item == no_effect() && has_no_item(line)
}
