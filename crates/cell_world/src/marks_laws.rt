// Laws of sets of markers.
ghost use Rattle.cell_world.specs.MarksLaws.{MarksAreSets};

/// A law: `has`, `with` and `without` are those of sets of the markers 0 to 5. The marker is in the set after `with`
/// and not after `without`, and no other marker changes. `none` has no marker, and `any` is true if there is one (the
/// task's chemistry).
pub fn marks_are_sets()
    ensures { MarksAreSets }
{}
