// Laws of distances. Each is proved by a function that does nothing.
ghost use Rattle.hex_geometry.specs.DistanceLaws.{BallsAreCounted, DistanceIsMetric, StepsChangeByOne};

/// A law: each two places have one distance. It is zero exactly from a place to itself, the same both ways, and no more
/// than the sum of the distances to and from a third place (the task's geometry).
pub fn distance_is_metric()
    ensures { DistanceIsMetric }
{}

/// A law: a step changes the distance to any place by at most one, and the neighbours of a place are the places at
/// distance one, so neighbourhood is mutual (the task's geometry).
pub fn steps_change_by_one()
    ensures { StepsChangeByOne }
{}

/// A law: the ball of radius r has `3 * r * (r + 1) + 1` positions (the task's geometry).
pub fn balls_are_counted()
    ensures { BallsAreCounted }
{}
