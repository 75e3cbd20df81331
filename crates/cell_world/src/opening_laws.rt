// Laws of the world of every plan at the start of a game.
ghost use Rattle.cell_world.specs.OpeningLaws.{HillsAreManned, PlansOpen};

/// A law: the opening world of a plan keeps what every world keeps (the task's geography and biology).
pub fn plans_open()
    ensures { PlansOpen }
{}

/// A law: at the start each cell is what its kind says, and outside there is rock (the task's geography and chemistry).
/// Each hill cell has an ant, and no other cell has one. The ant has the hill's colour, is in state 0, doesn't rest,
/// faces direction 0 and carries no food. Its id is the number of hill cells before its own in row order. Every ant is
/// alive, and no cell is marked (the task's biology).
pub fn hills_are_manned()
    ensures { HillsAreManned }
{}
