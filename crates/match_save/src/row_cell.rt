// What one byte of a row says about its cell.
ghost use Rattle.std.specs.Prelude.{◌≡◌, Option, ℕ};
ghost use Rattle.match_save.specs.Inner.Reading.{soil_of, value_of_byte};

use crate::soil::Soil;

// What one byte of a row says about its cell.
pub trait RowCell: Copy + Drop {
    // The meaning of a byte, if the row can have it.
    ghost of_byte: { ℕ → Option Self };

    // The meaning of this byte, if the row can have it.
    fn of_byte(byte: u8) -> Option<Self>
        ensures { result ≡ of_byte byte };
}

// The ground of the cell.
impl RowCell for Soil {
    ghost of_byte = { soil_of };

    fn of_byte(byte: u8) -> Option<Self> {
        match byte {
            b'#' => Some(Soil::Rock),
            b'.' => Some(Soil::Clear),
            b'+' => Some(Soil::RedHill),
            b'-' => Some(Soil::BlackHill),
            _ => None,
        }
    }
}

// A number from 0 to 63: a set of markers, or an amount of food.
impl RowCell for u8 {
    ghost of_byte = { value_of_byte };

    fn of_byte(byte: u8) -> Option<Self> {
        match byte {
            48..112 => Some(byte - 48),
            _ => None,
        }
    }
}
