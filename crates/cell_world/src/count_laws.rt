// Laws of the counts of every world.
ghost use Rattle.cell_world.specs.CountLaws.{AliveArePlaced, PutCounts};

/// A law: `set` changes the total food, the food on each hill and the number of ants of each colour by replacing the
/// old cell's part with the new cell's (the task's biology and game play).
pub fn set_counts()
    ensures { PutCounts }
{}

/// A law: the number of living red and black ants together is the number of ids that have a place (the task's biology).
pub fn alive_are_placed()
    ensures { AliveArePlaced }
{}
