// How the program ends.
ghost use Rattle.std.specs.Prelude.{◌≡◌};
ghost use Rattle.ant_commands.specs.Status.{status_number};

/// How a command ended.
#[derive(Clone, Copy, Debug, PartialEq, Eq)]
pub enum Status {
    /// The whole text was written.
    Done,
    /// The words are not a command.
    Words,
    /// A file could not be read.
    Read,
    /// The output failed.
    Write,
    /// A file is too long, not in its grammar, or a save with too many rounds done; or an element of a world to be
    /// generated has no room.
    Input,
    /// Memory ran out.
    Memory,
}

impl Status {
    /// The exit status of the program: 0, 2, 3, 4, 5, 6 in the order of the variants. 1 means that the system gave the
    /// program no words.
    pub fn number(&self) -> u8
        ensures { result ≡ status_number self.now }
    {
        match self {
            Status::Done => 0,
            Status::Words => 2,
            Status::Read => 3,
            Status::Write => 4,
            Status::Input => 5,
            Status::Memory => 6,
        }
    }
}
