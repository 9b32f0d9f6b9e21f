//! The laws on what a train is told of stops and restrictions.

ghost use Rattle.rbc_zones.specs.Concerns.{EachStopIsToldRightly};
ghost use Rattle.rbc_zones.specs.Limits.{EachLimitIsToldRightly};

/// A train that has to stop before an edge is told the distance of the nearest edge ahead, in the finest unit that
/// has room. The place that it is told is on its line, never beyond that edge, and less than a unit short of it.
pub fn stop_law()
    ensures { EachStopIsToldRightly }
{}

/// A train that a restriction concerns is told an interval that covers all of the restriction that is not behind the
/// balise group, and is longer than that by less than a unit at each end. The unit is the finest that has room.
pub fn limit_law()
    ensures { EachLimitIsToldRightly }
{}
