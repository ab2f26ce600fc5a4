//! The laws of catch-up, each as the contract of a function that does nothing.

ghost use Rattle.rep_catchup.specs.Orders.{DonatedPartsComeNext, JoinersHoldTheOrder};

use rep_steps::{judged_items_extend_the_order, judging_goes_on, nodes_hold_the_order};
use rep_types::{history_by_items, state_is_enough};

/// A joiner of a front of the donor's order, or of no cluster yet, that takes what the donor gives for what it has is then of the
/// donor's order, up to what is durable there.
pub fn joiners_hold_the_order()
    ensures { JoinersHoldTheOrder }
{
    judging_goes_on();
    judged_items_extend_the_order();
}

/// Whatever a joiner of a front of the donor's order, or of no cluster yet, has taken of what the donor gives for what it has, the next part
/// is one that it takes: the next record is its next item, judged as it says, and the end stands where the joiner is then.
pub fn donated_parts_come_next()
    ensures { DonatedPartsComeNext }
{
    judging_goes_on();
    judged_items_extend_the_order();
    nodes_hold_the_order();
    history_by_items();
    state_is_enough();
}
