// Laws of cells and their parts.
ghost use Rattle.cell_world.specs.PartLaws.{CellsAreParts, PatchesChangeNothing, PatchesSettle, PatchesTakeParts};

/// A law: two cells are equal if they are equal in every part, are both rocky or both clear, and belong to the same
/// hill.
pub fn cells_are_parts()
    ensures { CellsAreParts }
{}

/// A law: a patched cell has the named parts of the source; its ground, its hill and every other part are its own.
pub fn patches_take_parts()
    ensures { PatchesTakeParts }
{}

/// A law: patching parts that a cell already has changes nothing.
pub fn patches_change_nothing()
    ensures { PatchesChangeNothing }
{}

/// A law: two patches that have no part in common give the same cell in either order.
pub fn patches_settle()
    ensures { PatchesSettle }
{}
