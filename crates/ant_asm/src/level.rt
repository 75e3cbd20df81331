// The bodies on the way to one in use.

/// A place in a body in use: the body's number, how many of its items have been passed, the number of the next
/// instruction, the number of the first instruction after the body, and the number to which a label at the body's end
/// leads.
#[derive(Clone, Copy, Default)]
pub struct Spot {
    pub number: usize,
    pub place: usize,
    pub at: u16,
    pub end: u16,
    pub after: u16,
}

/// A use on the way to a body: the name of its block, and its line.
#[derive(Clone, Copy, Default)]
pub struct Step<'s> {
    pub name: &'s [u8],
    pub line: u32,
}

/// A body that was left at a use, and the spot after that use.
#[derive(Clone, Copy, Default)]
pub struct Level<'s> {
    pub spot: Spot,
    pub step: Step<'s>,
}
