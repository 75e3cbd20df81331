// The settings of a cup besides its players and worlds, and what is printed.
ghost use Rattle.std.specs.Prelude.{◌≡◌, ◌<◌};
ghost use Rattle.tournament.specs.Seeds.{seed_at, world_at};

/// The seeds with which each game of a cup is played. Each pair of a world and a seed counts as a world: world by
/// world, and within a world seed by seed.
#[derive(Clone, Copy, Debug, PartialEq, Eq)]
pub struct Seeds {
    /// The first seed.
    pub first: u32,
    /// How many seeds there are, from 1 to 1000. They are consecutive, and 0 follows 4,294,967,295.
    pub count: u32,
}

impl Seeds {
    /// The number of the world of pair number `n`, counted from 0. It takes no memory.
    #[inline]
    pub fn world_at(&self, n: u32) -> u32
        requires { 0 < self.now.count }
        ensures { result ≡ world_at self.now n }
    {
        n / self.count
    }

    /// The seed of pair number `n`, counted from 0. It takes no memory.
    #[inline]
    pub fn seed_at(&self, n: u32) -> u32
        requires { 0 < self.now.count }
        ensures { result ≡ seed_at self.now n }
    {
        self.first.wrapping_add(n % self.count)
    }
}

/// Which games a cup has, and what is printed about them.
#[derive(Clone, Copy, Debug, PartialEq, Eq)]
pub struct Format {
    /// Whether only the games of the first player are played.
    pub gauntlet: bool,
    /// Whether each line of the standing ends with the player's lead.
    pub leads: bool,
    /// The seeds of each game.
    pub seeds: Seeds,
    /// Whether the line of each game has its seed.
    pub shows_seeds: bool,
}
