//! The items of an order into which anybody may write.

ghost use Rattle.std.specs.Prelude.{◌≡◌, codes};
ghost use Rattle.rep_types.specs.declared.item.Item.{Item as AnItem};
ghost use Rattle.rep_record.specs.Published.{no_effect, published, IsPublished, HasNoEffect};

use crate::order_line::{read_order_line, renew_order_line};
use crate::text_reader::MAX_LINE;
use rep_types::{Item, Key, Write, WriteSet};

/// The item that has no effect, `item 0 w 255/0-`: a delete of a row that no schema has. Its verdict is `BadKey`, and its labels
/// are 0 and 0.
pub fn no_effect() -> Item
    ensures value { result ≡ no_effect }
    ensures verdict { HasNoEffect result }
    // The text of it.
    ensures text { IsPublished (codes "item 0 w 255/0-") no_effect }
{
    let write = Write {
        key: Key { table: 255, row: 0 },
        value: None,
    };
    match WriteSet::new(0, 0, 0, &[], &[write]) {
        Ok(write_set) => Item::WriteSet(write_set),
        Err(_) => unreachable!(),
    }
}

/// Puts the item that has no effect in the item's place. (A function of its own: its room is not filled where there is another.)
fn empty(item: &mut Item)
    ensures { item.new ≡ no_effect }
{
    *item = no_effect();
}

/// Puts the item that a text of an order is, as `published_item` says, in the item's place, which so is not moved.
pub fn renew_published(text: &[u8], item: &mut Item)
    ensures { item.new ≡ published text.now }
{
    if text.len() > MAX_LINE {
        return empty(item);
    }
    match renew_order_line(text, 0, item) {
        Ok(()) => {}
        Err(_) => empty(item),
    }
}

/// The item that a text of an order is, whatever the text is: that of a line of an order text, `item ..` or `window ..`, of at most
/// 4,096 bytes; and any other text, as one that is longer, of no form, or outside a limit, is the item that has no effect.
///
/// So who writes into an order cannot stop the nodes that follow it, and each of them reads the same items. What is an item is as
/// fixed as a byte of the disk: a version that read more texts as items would have other rows than the older ones.
pub fn published_item(text: &[u8]) -> Item
    ensures exact { result ≡ published text.now }
    // The text of an item within its limits is that item.
    ensures stated { (i : AnItem) → IsPublished text.now i → result ≡ i }
    // Any other has no effect.
    ensures other { ((i : AnItem) → IsPublished text.now i → ⊥) → result ≡ no_effect }
{
    if text.len() > MAX_LINE {
        return no_effect();
    }
    match read_order_line(text, 0) {
        Ok(item) => {
            // For its clause: what holds of every item.
            item.limits();
            item
        }
        Err(_) => no_effect(),
    }
}
