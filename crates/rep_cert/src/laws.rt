//! What ties a certifier to an order, each law as the contract of a function that does nothing: it
//! holds by its proof, and calling the function brings it to the caller.

ghost use Rattle.std.specs.Prelude.{◌≡◌};
ghost use Rattle.rep_cert.specs.Holdings.{GivesItsWindow};
ghost use Rattle.rep_cert.specs.Following.{FollowsFromTheStart, FollowsOn, JudgesAsTheOrder};

use crate::reaches::KEPT_REACHES;
use crate::ring::KEPT_ENTRIES;

/// The number that each limit is.
pub fn limits_are_these()
    ensures kept { KEPT_ENTRIES ≡ 513 }
    ensures reaches { KEPT_REACHES ≡ 258 }
{}

/// A certifier that is made at a position with a window gives what the position leaves of it: its
/// floor raised to what its size spans there, and the entries from there up to the position. Where the
/// window has the form of one at the position, that is the window itself.
pub fn gives_its_window()
    ensures { GivesItsWindow }
{}

/// The window after an order has the form that a new certifier asks for, and a certifier that is
/// made with it follows that order.
pub fn follows_from_the_start()
    ensures { FollowsFromTheStart }
{}

/// A certifier that follows an order and admits the next item follows the longer order.
pub fn follows_on()
    ensures { FollowsOn }
{}

/// A certifier that follows an order gives the next item the verdict that the order gives it.
pub fn judges_as_the_order()
    ensures { JudgesAsTheOrder }
{}
