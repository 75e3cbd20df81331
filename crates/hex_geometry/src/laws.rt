// Laws of the geometry. Each is proved by a function that does nothing.
ghost use Rattle.hex_geometry.specs.Laws.{NeighboursAreMutual, NeighboursAreTheTables, TurnsGoRound};

/// A law: off the first row and column, the neighbour that all rules of the world use is the one of the table over
/// whole numbers (the task's geometry).
pub fn neighbours_are_the_tables()
    ensures { NeighboursAreTheTables }
{}

/// A law: off the first row and column, neighbourhood is mutual, the opposite direction leads back, the six neighbours
/// are pairwise different, and none of them is the position itself. The neighbours of a position off the rim of a world
/// are inside it (the task's geometry).
pub fn neighbours_are_mutual()
    ensures { NeighboursAreMutual }
{}

/// A law: directions are numbered from 0 to 5, and the neighbours are listed by the number of their direction. A turn
/// to one side undoes a turn to the other, six turns to a side change nothing, and three lead to the opposite direction
/// (the task's geometry).
pub fn turns_go_round()
    ensures { TurnsGoRound }
{}
