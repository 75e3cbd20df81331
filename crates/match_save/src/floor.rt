// The cells of a save's world without its ants.
ghost use Rattle.std.specs.Prelude.{◌≡◌, ◌+◌, ◌*◌, ◌<◌, ◌≤◌, length, nat_eq, sum, IfOk};
ghost use Rattle.std.specs.Int.{bit_at};
ghost use Rattle.std.specs.List.{AllByRecursion};
ghost use Rattle.match_save.specs.State.{ground_cell, ground_cells, hill_count, hill_of, is_hill, is_rocky};
ghost use Rattle.match_save.specs.Inner.Floor.{are_sound_cells, is_empty_cell, is_sound_cell, with_marker};

use crate::soil::Soil;
use cell_world::{Cell, Colour, Marks};
use hex_geometry::{OutOfMemory, is_on_rim, pos_at};
use std::alloc::Global;

const MARKERS: u8 = 6;

impl Soil {
    // Whether it is rock.
    fn is_rocky(self) -> bool
        ensures { result ≡ is_rocky self }
    {
        matches!(self, Soil::Rock)
    }

    // The colour of the hill to which it belongs, if any.
    fn hill(self) -> Option<Colour>
        ensures { result ≡ hill_of self }
    {
        match self {
            Soil::Rock | Soil::Clear => None,
            Soil::RedHill => Some(Colour::Red),
            Soil::BlackHill => Some(Colour::Black),
        }
    }

    // Whether it belongs to a hill.
    fn is_hill(self) -> bool
        ensures { result ≡ is_hill self }
    {
        matches!(self, Soil::RedHill | Soil::BlackHill)
    }
}

// How many cells belong to a hill.
pub fn hill_count(soils: &[Soil]) -> u32
    requires { length soils.now ≤ 262144 }
    ensures { result ≡ hill_count soils.now }
{
    let mut count = 0;
    for soil in soils {
        if soil.is_hill() {
            count += 1;
        }
    }
    count
}

// Whether this power of two is in a number.
fn has_bit(set: u8, i: u8) -> bool
    requires { i < 8 }
    ensures { result ≡ nat_eq (bit_at set i) 1 }
{
    set >> i & 1 == 1
}

// The same markers, and this one if its power of two is in a number.
fn with_marker(marks: Marks, set: u8, i: u8) -> Marks
    requires { i < 6 }
    ensures { result ≡ with_marker marks set i }
{
    if has_bit(set, i) {
        marks.with(i)
    } else {
        marks
    }
}

// The markers whose powers of two add up to this number.
fn marks_of(set: u8) -> Marks
    requires { set < 64 }
    ensures { result ≡ record { set = set } }
{
    let mut marks = Marks::none();
    for i in 0..MARKERS {
        marks = with_marker(marks, set, i);
    }
    marks
}

// A cell of this ground, with these marks and this food, without an ant.
fn ground_cell(soil: Soil, red: u8, black: u8, food: u32) -> Cell
    requires red { red < 64 }
    requires black { black < 64 }
    ensures { result ≡ ground_cell soil red black food }
{
    Cell {
        rocky: soil.is_rocky(),
        hill: soil.hill(),
        food,
        red: marks_of(red),
        black: marks_of(black),
        ant: None,
    }
}

// The cells of these grounds, marks and foods in row order, without ants.
pub fn ground_cells(
    alloc: Global,
    soils: &[Soil],
    reds: &[u8],
    blacks: &[u8],
    foods: &[u32],
) -> Result<Vec<Cell>, OutOfMemory>
    requires reds { length reds.now ≡ length soils.now }
    requires red_sets { AllByRecursion (λ set. set < 64) reds.now }
    requires blacks { length blacks.now ≡ length soils.now }
    requires black_sets { AllByRecursion (λ set. set < 64) blacks.now }
    requires foods { length foods.now ≡ length soils.now }
    ensures { IfOk result (λ cells. cells.items ≡ ground_cells soils.now reds.now blacks.now foods.now) }
{
    let mut cells = Vec::with_capacity(alloc, soils.len())?;
    for i in 0..soils.len() {
        cells.push(ground_cell(soils[i], reds[i], blacks[i], foods[i]))?;
    }
    Ok(cells)
}

// Whether a cell has no food and no markers.
fn is_empty_cell(cell: &Cell) -> bool
    ensures { result ≡ is_empty_cell cell.now }
{
    cell.food == 0 && cell.red == Marks::none() && cell.black == Marks::none()
}

// Whether the cell with this number in row order has no food and no markers if it is rock, and is rock if it is on the
// rim.
fn is_sound_cell(width: u16, height: u16, number: usize, cell: &Cell) -> bool
    requires wide { 1 ≤ width }
    requires inside { number < width * height }
    ensures { result ≡ is_sound_cell width height number cell.now }
{
    if cell.rocky {
        is_empty_cell(cell)
    } else {
        !is_on_rim(width, height, pos_at(width, number))
    }
}

// Whether this holds for all cells.
pub fn are_sound_cells(width: u16, height: u16, cells: &[Cell]) -> bool
    requires wide { 1 ≤ width }
    requires full { length cells.now ≡ width * height }
    ensures { result ≡ are_sound_cells width height 0 cells.now }
{
    for (number, cell) in cells.iter().enumerate() {
        if !is_sound_cell(width, height, number, cell) {
            return false;
        }
    }
    true
}

// The total food of all cells.
pub fn food_sum(foods: &[u32]) -> u64
    requires { length foods.now ≤ 262144 }
    ensures { result ≡ sum foods.now }
{
    foods.iter().map(|food| u64::from(*food)).sum()
}
