// The two brains of a game, and the numbers of its rules.
ghost use Rattle.std.specs.Prelude.{◌≡◌};
ghost use Rattle.ant_turn.specs.Minds.{minds_of, mind_of};

use crate::sheet::Sheet;
use brain_read::Brain;
use cell_world::Colour;

/// The brains of the two colours, and the sheet of the rules for both (the task's game play). The brains are borrowed,
/// so copies share them.
#[derive(Clone, Copy)]
pub struct Brains<'b> {
    /// The brain of the red ants.
    pub red: &'b Brain,
    /// The brain of the black ants.
    pub black: &'b Brain,
    /// The numbers of the rules.
    pub sheet: Sheet,
}

impl<'b> Brains<'b> {
    /// The brain of the ants of this colour (the task's game play).
    #[inline]
    pub fn of(self, colour: Colour) -> &'b Brain
        ensures { result.now ≡ mind_of (minds_of self.entry) colour }
    {
        match colour {
            Colour::Red => self.red,
            Colour::Black => self.black,
        }
    }
}
