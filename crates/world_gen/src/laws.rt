// Laws of placed elements. Each is proved by a function that does nothing.
ghost use Rattle.world_gen.specs.PlacingLaws.{ElementsLieApart, PlacingIsOne};

/// A law: no cell of a placed element is on the rim, and no two elements have equal or adjacent cells.
pub fn elements_lie_apart()
    ensures { ElementsLieApart }
{}

/// A law: a seed and a shape have one outcome: at most one placing of all elements, so at most one world; or one
/// element without room, and then no placing.
pub fn placing_is_one()
    ensures { PlacingIsOne }
{}
