//! What the published lists of a node go on from.

ghost use Rattle.std.specs.Prelude.{◌≡◌, ◌∷◌, []};

use logbook::{Opening, Seen, Start};
use rep_cert::Certifier;
use rep_snap::{Admits, Again, Fixed};

/// The book opens with the certifier.
struct Alone;

impl Opening<Certifier, Certifier> for Alone {
    ghost use Rattle.std.specs.Prelude.{[], ◌∷◌};

    ghost log = { λ count certifier. certifier ∷ [] };
}

/// The certifier that a node was started with, as contracts see it: it has no bytes, and can be had again. Each list that the node's
/// readers find is that of a legal history behind what this certifier held.
#[derive(Drop)]
pub struct Origin {
    pub certifier: Seen<Certifier, u64, Fixed>,
}

impl Origin {
    /// The origin of what this certifier judges from now on.
    pub(crate) fn of(certifier: &Certifier) -> Origin
        ensures { result.certifier.log ≡ certifier.now ∷ [] }
    {
        let (certifier, _pens) = Seen::open_row::<Certifier, Alone>(certifier, Start::alone(), 0);
        Origin { certifier }
    }
}

impl Again for Origin {
    fn again(&self) -> Origin {
        Origin {
            certifier: self.certifier.again(),
        }
    }
}

impl Admits for Origin {
    ghost use Rattle.rep_node.specs.Publishing.{AreAllowed, none_allowed};

    ghost allows = { λ origin start pairs. AreAllowed origin.certifier.log pairs };

    ghost empty = { λ origin start. none_allowed origin.certifier.log };
}
