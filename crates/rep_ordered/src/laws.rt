//! Laws of what calls make of a seat, each as the contract of a function that does nothing. The proofs
//! of a client cite them by their names in `specs/GoingLaws.antt`.

ghost use Rattle.rep_ordered.specs.Going.{ViewsGoOn, NumbersPass};

use crate::rule::Keeps;

/// Each call goes on from what the seat was before it, and so do calls one after another: the seat has
/// its numbers still, drawn or not, and has seen as much or more. A seat that has entered a station and
/// has left it, or has given it up, holds what it held before.
pub fn views_go_on<V: Keeps<E>, E>()
    ensures { ViewsGoOn V.legal V.at_home V.durable_of V.common_of }
{}

/// The numbers that a seat drew, and that have passed a station, have passed it still as the seat goes
/// on, draws one more that has passed it too, and takes in another seat of whose numbers the same holds.
pub fn numbers_pass<V, E>()
    ensures { NumbersPass V E }
{}
