// Laws of every ground, stated about worlds.
ghost use Rattle.cell_world.specs.GroundLaws.{PutIsRead, PutsSettle, PlaceIsCell, PutKeeps, PutWeighs};

/// A law: after `set` at a position, `cell_at` returns the new cell there, and the old cell at every other position
/// (the task's geography).
pub fn set_is_read()
    ensures { PutIsRead }
{}

/// A law: two calls of `set` at different positions may be exchanged; of two at the same position the second counts;
/// and setting what is already there changes nothing.
pub fn sets_settle()
    ensures { PutsSettle }
{}

/// A law: the place of an ant is the one cell that has it. If no cell has it, it has no place. So no ant is on two
/// cells (the task's biology).
pub fn place_is_cell()
    ensures { PlaceIsCell }
{}

/// A law: `set` keeps the rules of every world. After it, the new cell's ant is at that position, the old cell's ant is
/// nowhere unless the new cell has it, and every other ant is where it was (the task's biology).
pub fn set_keeps()
    ensures { PutKeeps }
{}

/// A law: `set` changes the weight by replacing the old cell's part with the new cell's.
pub fn set_weighs()
    ensures { PutWeighs }
{}
