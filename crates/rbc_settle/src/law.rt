//! What settling promises.

ghost use Rattle.rbc_settle.specs.UpToDate.{SettlingTwiceIsOnce, NothingIsLeftToDo};
ghost use Rattle.rbc_settle.specs.WellFormed.{SettlingKeepsTrains};

/// A train that is settled a second time stays as it is, and is sent nothing. A well-formed train is well-formed after
/// it was settled. Nothing has to be done to a train that is up to date.
pub fn settle_law()
    ensures twice { SettlingTwiceIsOnce }
    ensures keeps { SettlingKeepsTrains }
    ensures nothing_left { NothingIsLeftToDo }
{}
