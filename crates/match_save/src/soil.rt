// The ground of a cell.

// What a cell is, without what is on it.
#[derive(Clone, Copy)]
pub enum Soil {
    Rock,
    Clear,
    RedHill,
    BlackHill,
}
