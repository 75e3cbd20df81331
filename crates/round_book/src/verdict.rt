// The verdict on a turn's look.
use cell_world::Part;
use hex_geometry::Pos;

/// Why a look at a turn wasn't valid.
#[derive(Clone, Copy, Debug, PartialEq, Eq)]
pub enum Cause {
    /// A part that was read at this position has changed.
    Part {
        /// The position.
        at: Pos,
        /// The part of its cell.
        part: Part,
    },
    /// All that was read is unchanged, but the turn's random number isn't the guessed one.
    Place {
        /// The place in the stream at which the look was made.
        guessed: u64,
        /// The actual place of the turn's number.
        actual: u64,
    },
}

/// The verdict on the look at a turn.
#[derive(Clone, Copy, Debug, PartialEq, Eq)]
pub enum Verdict {
    /// The look was valid, and its writes were set.
    Taken,
    /// It wasn't valid, and the turn was executed again.
    Redone(Cause),
}
