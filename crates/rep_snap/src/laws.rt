//! Laws of histories and of peeks, each as the contract of a function that does nothing.

ghost use Rattle.rep_snap.specs.Laws.{HistoriesGrow, PeeksHaveOneAnswer, PeeksFollowTheFold};

/// What one more change makes of a history's list, of its front, of its oldest snapshot and of its rows;
/// and what begins a history has a list that begins its list.
pub fn histories_grow()
    ensures { HistoriesGrow }
{}

/// A row is one thing at a snapshot, and a peek has one right answer at most: a refusal, or what the row
/// is.
pub fn peeks_have_one_answer()
    ensures { PeeksHaveOneAnswer }
{}

/// What is found of a row at a snapshot is what a plain fold over the pairs makes of it; where it is cold,
/// the row is as it was at the oldest snapshot. Pairs behind a list leave its rows as they are, up to its
/// front.
pub fn peeks_follow_the_fold()
    ensures { PeeksFollowTheFold }
{}
