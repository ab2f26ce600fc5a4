//! Room for the values that a lock is closed with.

ghost use Rattle.std.specs.Prelude.{◌≡◌, ◌≤◌, [], IfSome, vec_capacity};

use atomic_table::{Table, TableRule};
use std::alloc::Global;
use std::marker::Model;

/// The rule of a table of one slot, in which an empty list lies that has room for so many values.
struct Laid;

impl<V> TableRule<Vec<V>, (), usize> for Laid {
    ghost use Rattle.rep_ordered.specs.Rooms.{IsLaid};

    ghost holds = { λ count state. IsLaid count state };

    ghost first = { λ _. tt };
}

/// An empty list with room for so many values. Threads may share it whatever the values are, since none of them can look into it.
#[derive(Drop)]
pub(crate) struct Room<V> {
    table: Table<Vec<V>, (), usize, Laid, Global>,
}

impl<V> Model for Room<V> {
    ghost use Rattle.std.specs.Prelude.{◌≡◌, ℕ};

    ghost Value = { ℕ };

    ghost view = { λ r. r.table.shared.key };

    ghost invariant = { λ r. r.table.shared.table_id.slots ≡ 1 };
}

impl<V> Room<V> {
    /// Room for so many values, or `None` where there is no memory.
    pub(crate) fn new(alloc: Global, count: usize) -> Option<Room<V>>
        ensures { IfSome result (λ room. room ≡ count) }
    {
        let values = Vec::with_capacity(alloc, count).ok()?;
        let Ok(mut slots) = Vec::with_capacity(alloc, 1) else {
            values.destroy_empty();
            return None;
        };
        slots.push_reserved(values);
        match Table::new(alloc, &[], slots, &count) {
            Ok((table, _seat)) => Some(Room { table }),
            Err(atomic_table::Refused { mut slots }) => {
                if let Some(values) = slots.pop() {
                    values.destroy_empty();
                }
                slots.destroy_empty();
                None
            }
        }
    }

    /// The empty list.
    pub(crate) fn into_list(self) -> Vec<V>
        ensures { (result.items ≡ []) × (self ≤ vec_capacity result) }
    {
        let Room { table } = self;
        let mut closed = table.close();
        let values = closed.take(0);
        closed.free();
        values
    }
}
