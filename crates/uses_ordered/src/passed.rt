//! What lies at home in both stations.

use rep_ordered::Keeps;

/// The tickets that passed a station, in their order, from the ticket `START` on.
#[derive(Debug, Drop)]
pub struct Passed<const START: u64> {
    pub tickets: Vec<u64>,
}

impl<const START: u64> Keeps<u64> for Passed<START> {
    ghost use Rattle.uses_ordered.specs.Passing.{Anything, HavePassed};
    ghost use Rattle.uses_ordered.specs.Growing.{passed_grows};

    ghost legal = { λ _ history. Anything history };

    ghost at_home = { λ _ station number given history durable value. HavePassed START number history value.tickets.items };

    ghost durable_of = { λ _. 0 };

    ghost common_of = { λ _. 0 };

    ghost grows = { λ _ station number given durable later history more value home _. passed_grows START number history more value.tickets.items home };
}
