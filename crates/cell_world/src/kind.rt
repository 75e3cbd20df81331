// What a world file says of a cell.
ghost use Rattle.std.specs.Prelude.{◌≡◌};
ghost use Rattle.cell_world.specs.Opening.{is_hill, is_rock};

/// A cell at the start of a game, as a world file gives it (the task's geography).
#[derive(Clone, Copy, Debug, PartialEq, Eq)]
pub enum Kind {
    /// A rocky cell: `#` in a world file.
    Rock,
    /// A clear cell without food, of no hill: `.`.
    Clear,
    /// A clear cell of the red hill, on which a red ant begins: `+`.
    RedHill,
    /// A clear cell of the black hill, on which a black ant begins: `-`.
    BlackHill,
    /// A clear cell of no hill with this number of food particles, from 1 to 9: the digit.
    Food(u8),
}

impl Kind {
    /// Whether a cell of this kind is rock (the task's geography).
    #[inline]
    pub fn is_rock(self) -> bool
        ensures { result ≡ is_rock self }
    {
        matches!(self, Kind::Rock)
    }

    /// Whether a cell of this kind belongs to a hill, so that an ant begins on it (the task's biology).
    #[inline]
    pub fn is_hill(self) -> bool
        ensures { result ≡ is_hill self }
    {
        matches!(self, Kind::RedHill | Kind::BlackHill)
    }
}
