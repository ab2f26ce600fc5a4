//! The door to the two copies that a publisher keeps.

ghost use Rattle.std.specs.Prelude.{◌≡◌};

use crate::door::Door;
use crate::history::Told;
use crate::rule::{Admits, Published, Sees};
use crate::shelf::{Shelf, Sight};
use crossbeam_utils::rule::Protocol;
use left_right::reader::{Reader, Reading};
use std::marker::Model;

/// A reader's door to the two copies. In a contract it is what is known of the publisher, if anything is.
///
/// `left_right` says nothing of when a reader comes back with no copy. So nothing is said of when this
/// door is shut, and an `enter` that always gave it back would meet its contract.
#[derive(Drop)]
pub struct TwoCopies<A: Admits + Drop>
where
    Published<A>: Protocol<Shelf<A>, Option<Sight<A>>>,
{
    pub(crate) place: Reader<Shelf<A>, Option<Sight<A>>, Published<A>>,
}

impl<A: Admits + Drop> Model for TwoCopies<A>
where
    Published<A>: Protocol<Shelf<A>, Option<Sight<A>>>,
{
    ghost use Rattle.std.specs.Prelude.{Option};
    ghost use Rattle.rep_snap.specs.declared.shelf.Sight.{Sight};

    ghost Value = { Option (Sight A) };

    ghost view = { λ d. d.place.place.me.0.client };
}

/// The copy that is shown, while a reader looks at it. In a contract it is the shelf.
pub struct Glance<A: Admits + Drop>
where
    Published<A>: Protocol<Shelf<A>, Option<Sight<A>>>,
{
    reading: Reading<Shelf<A>, Option<Sight<A>>, Published<A>>,
}

impl<A: Admits + Drop> Model for Glance<A>
where
    Published<A>: Protocol<Shelf<A>, Option<Sight<A>>>,
{
    ghost use Rattle.std.specs.Prelude.{◌≡◌, Some};
    ghost use Rattle.rep_snap.specs.declared.shelf.Shelf.{Shelf};
    ghost use Rattle.std.specs.Coded.{codes};
    ghost use Rattle.rep_versions.specs.contracts.versions.Versions as versions;

    ghost Value = { Shelf A };

    ghost coded = { Prim.hlevel (codes, versions.the_row.coded) };

    ghost view = { λ g. g.reading.part.value };

    ghost invariant = { λ g. g.reading.place.me.0.client ≡ Some g.reading.part.value.sight };
}

impl<A: Admits + Drop> Door<A> for TwoCopies<A> {
    ghost use Rattle.rep_snap.specs.Rule.{Knows};

    type Inside = Glance<A>;

    ghost knows = { Knows A.allows };

    ghost shown = { λ shelf. shelf };

    ghost shut = { λ before back. Unit {0} };

    fn enter(self, told: &Told) -> Result<Glance<A>, TwoCopies<A>> {
        let TwoCopies { place } = self;
        let reading = match place.enter_as::<Sees<A>>() {
            Ok(reading) => reading,
            Err(place) => return Err(TwoCopies { place }),
        };
        if !reading.get().begins_with(told) {
            return Err(TwoCopies {
                place: reading.leave(),
            });
        }
        Ok(Glance { reading })
    }

    fn look(inside: &Glance<A>) -> &Shelf<A> {
        inside.reading.get()
    }

    fn leave(inside: Glance<A>) -> TwoCopies<A> {
        let Glance { reading } = inside;
        TwoCopies {
            place: reading.leave(),
        }
    }
}
