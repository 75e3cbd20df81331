// The numbers that words may say.
ghost use Rattle.std.specs.Prelude.{◌≡◌, ◌<◌, ◌≤◌, IfSome};
ghost use Rattle.command_words.specs.Limits.{least_of, most_of, name_of, number_in};

use ant_base::read_number_within;

/// What a number counts. Each kind has its own limits. A number is 1 to 10 decimal digits, and leading zeros are
/// accepted.
#[derive(Clone, Copy, Debug, PartialEq, Eq)]
pub enum NumberKind {
    /// a seed of random numbers, from 0 to 4,294,967,295
    SeedNumber,
    /// rounds that are played, or a round that is dumped, from 0 to 1,000,000
    RoundCount,
    /// workers, from 1 to 16
    WorkerCount,
    /// turns of a window, from 1 to 16,384
    WindowSize,
    /// foes that surround an ant, from 4 to 6
    FoeCount,
    /// food particles that a killed ant leaves, from 0 to 9
    CorpseFood,
    /// rounds of rest after a step, from 0 to 255
    RestRounds,
    /// cells along a side of a world, from 3 to 512
    SideLength,
    /// rocks or blobs of a generated world, from 0 to 255
    ElementCount,
    /// an ant's id, from 0 to 16,383
    AntId,
    /// consecutive seeds, from 1 to 1000
    SeedCount,
}

impl NumberKind {
    pub(crate) fn least(self) -> u32
        ensures { result ≡ least_of self }
    {
        match self {
            NumberKind::SeedNumber => 0,
            NumberKind::RoundCount => 0,
            NumberKind::WorkerCount => 1,
            NumberKind::WindowSize => 1,
            NumberKind::FoeCount => 4,
            NumberKind::CorpseFood => 0,
            NumberKind::RestRounds => 0,
            NumberKind::SideLength => 3,
            NumberKind::ElementCount => 0,
            NumberKind::AntId => 0,
            NumberKind::SeedCount => 1,
        }
    }

    pub(crate) fn most(self) -> u64
        ensures most { result ≡ most_of self }
        ensures small { result < 4294967296 }
    {
        match self {
            NumberKind::SeedNumber => 4_294_967_295,
            NumberKind::RoundCount => 1_000_000,
            NumberKind::WorkerCount => 16,
            NumberKind::WindowSize => 16_384,
            NumberKind::FoeCount => 6,
            NumberKind::CorpseFood => 9,
            NumberKind::RestRounds => 255,
            NumberKind::SideLength => 512,
            NumberKind::ElementCount => 255,
            NumberKind::AntId => 16_383,
            NumberKind::SeedCount => 1000,
        }
    }

    // The name that the page of `--help` has for a number at a place.
    pub(crate) fn name(self) -> &'static str
        ensures { result.now ≡ name_of self }
    {
        match self {
            NumberKind::SeedNumber => "SEED",
            NumberKind::RoundCount => "ROUNDS",
            NumberKind::WorkerCount => "WORKERS",
            NumberKind::AntId => "ID",
            _ => "N",
        }
    }

    // The number of a word.
    pub(crate) fn read(self, word: &[u8]) -> Option<u32>
        ensures number { result ≡ number_in self word.now }
        ensures within { IfSome result (λ number. number ≤ most_of self) }
    {
        let number = read_number_within(word, self.least() as u64, self.most())?;
        Some(number as u32)
    }
}
