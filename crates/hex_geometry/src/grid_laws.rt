// Laws of row order and of the rim. Each is proved by a function that does nothing.
ghost use Rattle.hex_geometry.specs.Position.{RimIsOutermost};
ghost use Rattle.hex_geometry.specs.RowOrder.{RowsAreNumbered};

/// A law: positions and their numbers in row order determine each other. The numbers of the positions inside a world
/// are those below the number of its cells, and they rise in row order.
pub fn rows_are_numbered()
    ensures { RowsAreNumbered }
{}

/// A law: the positions inside a world that are not on its rim are the inner ones (the task's geography).
pub fn rim_is_outermost()
    ensures { RimIsOutermost }
{}
