// The limits of worlds (this project's own).

/// The least width and height of a world.
pub const LEAST_SIZE: u16 = 3;

/// The greatest width and height of a world.
pub const MOST_SIZE: u16 = 512;

/// The most ids of ants in a world.
pub const MOST_ANTS: u32 = 16_384;

/// The greatest weight of a world. Each food particle weighs one, even if an ant carries it, and each ant weighs nine.
/// The limit is nine times the number of cells inside the largest rim.
pub const MOST_WEIGHT: u32 = 2_340_900;

const _: () = prove!(MOST_WEIGHT == 9 * (MOST_SIZE as u32 - 2) * (MOST_SIZE as u32 - 2));
