//! Laws of nodes, each as the contract of a function that does nothing.

ghost use Rattle.rep_steps.specs.Nodes.{StepsAreMoves, NodesStayNodes, NodesOutlastFailures};
ghost use Rattle.rep_steps.specs.Parts.{PartsStepAsTheWhole};
ghost use Rattle.rep_steps.specs.Orders.{StepsFollowTheOrder, NodesHoldTheOrder};
ghost use Rattle.rep_steps.specs.Runs.{RunsComeTo, RunsAnswerTheOrder, FedTheRest};
ghost use Rattle.rep_steps.specs.Images.{JudgedItemsExtendTheOrder, FrontsStandForTheOrder, OpeningsOpenTheOrder};
ghost use Rattle.rep_steps.specs.Joining.{RunsAreJoined};
ghost use Rattle.rep_steps.specs.Judging.{JudgingGoesOn, VerdictsHaveAPlace};

use crate::client::Core;
use rep_log::fronts_are_determined;
use rep_types::{history_by_items, state_is_enough};

/// A step of a node moves its facts as on any device; and facts that moved so move a node, where the step
/// found what the node finds.
pub fn steps_are_moves()
    ensures { StepsAreMoves }
{}

/// What a step of a node leads to is a node.
pub fn nodes_stay_nodes()
    ensures { NodesStayNodes }
{
    fronts_are_determined();
}

/// A node is one however often its device failed.
pub fn nodes_outlast_failures()
    ensures { NodesOutlastFailures }
{}

/// A node of an order holds it: as many items are delivered as it has, and the state at each position from the
/// base on, its rows and its window, is the order's.
pub fn nodes_hold_the_order()
    ensures { NodesHoldTheOrder }
{
    history_by_items();
    state_is_enough();
}

/// A step at a node of an order leads to a node of the order with the item that was delivered, and is
/// refused or answered what the order says.
pub fn steps_follow_the_order()
    ensures { StepsFollowTheOrder }
{
    history_by_items();
    state_is_enough();
    fronts_are_determined();
}

/// Over a run the order grows by the items whose deliveries were answered by a verdict; those
/// verdicts are those of the whole order; and the replies are those of the items that became durable,
/// in their order, each once.
pub fn runs_come_to()
    ensures { RunsComeTo }
{
    history_by_items();
    state_is_enough();
    fronts_are_determined();
}

/// Within each order that goes on behind what a run delivered, its verdicts and replies are those that the order has
/// between what was delivered and durable before the run and after it.
pub fn runs_answer_the_order()
    ensures { RunsAnswerTheOrder }
{
    history_by_items();
    state_is_enough();
    fronts_are_determined();
}

/// A node that was opened on a front of an order and is fed the rest gives the verdicts and the replies
/// of one that never stopped.
pub fn fed_the_rest()
    ensures { FedTheRest }
{
    history_by_items();
    state_is_enough();
    fronts_are_determined();
}

/// Items that have each the next seqno and the verdict of judging it, from an order's state on, are those of
/// the order with them at its end; and what stands for an order has such items.
pub fn judged_items_extend_the_order()
    ensures { JudgedItemsExtendTheOrder }
{
    history_by_items();
    state_is_enough();
}

/// A front of a node of an order stands for a front of the order.
pub fn fronts_stand_for_the_order()
    ensures { FrontsStandForTheOrder }
{
    history_by_items();
    state_is_enough();
}

/// What opening makes of an image is a node, of the order that the image stands for.
pub fn openings_open_the_order()
    ensures { OpeningsOpenTheOrder }
{}

/// What the log, a sync, a check, a flush and a read do with what was taken of the delivered items is what they do with all of
/// them: so an engine that has taken a front of them steps as the replica around it does.
pub fn parts_step_as_the_whole()
    ensures { PartsStepAsTheWhole }
{}

/// Runs one after another are one run: no event is a run, one step is a run of one event, and two runs, the second
/// from where the first led, are the run of both lists. So it is on any device, and at a node, with what a stop
/// leaves at each moment. So what goes on by single steps has made a run too.
pub fn runs_are_joined<C: Core>()
    ensures { RunsAreJoined C.means }
{
    history_by_items();
    state_is_enough();
    fronts_are_determined();
}

/// Items that were judged one after another are so with one more, in parts, and from a state with other rows; the
/// state that they lead to is reached in two goes too, and its window does not depend on rows; and their seqnos
/// follow one another.
pub fn judging_goes_on()
    ensures { JudgingGoesOn }
{}

/// The next item with the verdict on it has a place in a block: where no item of the window is above the position, a
/// conflict is with an item before it. So each item has that a certifier judged.
pub fn verdicts_have_a_place()
    ensures { VerdictsHaveAPlace }
{}
