// A law: each brain has a minimised one.
ghost use Rattle.brain_minimise.specs.Existence.{HasMinimised};

/// A law: each brain has a minimised one.
#[tactic(auto, using(crate::proofs::HasMinimised::has_minimised))]
pub fn has_minimised()
    ensures { HasMinimised }
{}
