//! Laws of the one history, each as the contract of a function that does nothing: it holds by its proof, and calling the function
//! brings it to the caller.

ghost use Rattle.rep_stations.specs.Waiting.{HistoriesGoOn};
ghost use Rattle.rep_stations.specs.Taking.{TakenItemsStay};
ghost use Rattle.rep_stations.specs.Orders.{HistoriesExtendTheOrder};
ghost use Rattle.rep_stations.specs.Ending.{HistoriesLieBetweenReplicas};

use rep_disk::Disk;
use rep_steps::{
    fronts_stand_for_the_order, judged_items_extend_the_order, judging_goes_on,
    nodes_hold_the_order, steps_follow_the_order,
};
use rep_types::state_is_enough;

/// A front of a legal history is one, and so it is with places in blocks. An item that joins the history and is pushed waits behind the
/// others, and what the engine takes of their front waits no more; what it has taken and what waits are the history.
pub fn histories_go_on()
    ensures { HistoriesGoOn }
{
    judging_goes_on();
}

/// What an engine has taken of the history it has still taken after each of its steps, whatever the device did: `log`, `sync`, `check`,
/// `flush` and `read`. A check is lent a certifier that has judged these items, and perhaps more. A sync that succeeds makes as many
/// items durable as it gives replies, and no other step makes any durable; and what waits behind what was taken comes next.
pub fn taken_items_stay<D: Disk>()
    ensures { TakenItemsStay D.Disk }
{
    judging_goes_on();
}

/// Where what was there at the start stands for a node of an order, a legal history is what the order has behind that with the history's
/// items at its end: each with its seqno and its verdict there. Of an engine that has taken the history each image of the device stands
/// for a front of that longer order with what is durable, also once the device failed, and each row that it reads is the row of it.
pub fn histories_extend_the_order<D: Disk>()
    ensures { HistoriesExtendTheOrder D.Disk }
{
    judging_goes_on();
    judged_items_extend_the_order();
    state_is_enough();
    nodes_hold_the_order();
    fronts_stand_for_the_order();
    steps_follow_the_order();
}

/// The parts of a quiet replica, as `Replica::into_parts` gives them, begin a history of which nothing was judged and nothing was
/// taken; and what stands at the end of a history is what `Replica::from_parts` asks for, stopped or not. A replica that is put together
/// so without a stop stands for what the first one stood for, with all items of the history.
pub fn histories_lie_between_replicas<D: Disk>()
    ensures { HistoriesLieBetweenReplicas D.Disk }
{
    judging_goes_on();
}
