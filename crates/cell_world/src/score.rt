// The score of a world.

/// The food on the cells of each colour's hill; carried food isn't counted (the task's game play).
#[derive(Clone, Copy, Debug, PartialEq, Eq)]
pub struct Score {
    /// The food particles on the cells of the red hill.
    pub red: u32,
    /// The food particles on the cells of the black hill.
    pub black: u32,
}
