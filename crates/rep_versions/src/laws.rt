//! Laws of versions, each as the contract of a function that does nothing.

ghost use Rattle.rep_versions.specs.Versions.{AddIsTakenBack};
ghost use Rattle.rep_versions.specs.Following.{VersionsFollowTheItems};

/// To take back the versions of a seqno undoes that an item was added there, where no version had that
/// seqno before.
pub fn add_is_taken_back()
    ensures { AddIsTakenBack }
{}

/// Versions to which items are added in order, each at its seqno, say what each row is after each of
/// them: the rows of the order. They still do after the newest item was taken back, and after the
/// versions up to a later base went.
pub fn versions_follow_the_items()
    ensures { VersionsFollowTheItems }
{}
