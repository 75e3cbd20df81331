// A law: each seed and shape has an outcome.
ghost use Rattle.world_gen.specs.Existence.{HasOutcome};

/// A law: each seed and shape has a world, whose elements are all placed, or an element without room.
pub fn has_outcome()
    ensures { HasOutcome }
{}
