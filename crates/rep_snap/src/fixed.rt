//! The rule of a book that opens with all that it ever has.

use logbook::Rule;

/// The rule of a book to which nothing is added. A basis that is known only at run time can stand in such a book: it is seen there, has
/// no bytes, and can be had again.
pub struct Fixed;

impl<E> Rule<E, u64> for Fixed {
    ghost use Rattle.std.specs.Prelude.{[]};
    ghost use base.Fml.{ftrue};

    ghost holds = { λ cells log. Unit {0} };

    ghost first = { [] };

    ghost hinted = { λ n log. Unit {0} };

    ghost shows = { λ log. [] };

    ghost keeps = { λ names log. ftrue };

    ghost moves = { λ ask before after answer. Unit {0} };
}
