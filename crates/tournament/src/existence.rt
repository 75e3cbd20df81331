// A law: each cup has a standing.
ghost use Rattle.tournament.specs.Existence.{HasStanding};

/// A law: each cup has a standing, whatever its scores.
pub fn has_standing()
    ensures { HasStanding }
{}
