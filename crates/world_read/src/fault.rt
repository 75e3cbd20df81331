// Why a text is not a world.
ghost use Rattle.std.specs.Prelude.{◌≡◌};

use ant_base::{Failed, Layout, Sink, layout, show};
use hex_geometry::OutOfMemory;
use std::alloc::{AllocError, AllocFailed};
use std::error::Error;
use std::fmt;

/// Why a text was not read as a world: the first fault in this order. Rows and columns are counted from 0.
#[derive(Clone, Copy, Debug, PartialEq, Eq)]
pub enum WorldFault {
    /// There is no first line, or it isn't a number from 3 to 512.
    BadWidth,
    /// There is no second line, or it isn't a number from 3 to 512.
    BadHeight,
    /// The text has no line for this row.
    MissingRow {
        /// the row, from 0
        row: u16,
    },
    /// A byte of this row is not a cell; `column` cells of the row precede it.
    BadCell {
        /// the row, from 0
        row: u16,
        /// how many cells precede it
        column: u16,
    },
    /// This row has fewer cells than the width.
    ShortRow {
        /// the row, from 0
        row: u16,
    },
    /// This row has more bytes for cells than the width.
    LongRow {
        /// the row, from 0
        row: u16,
    },
    /// A line after the last row has a byte that isn't a separator.
    ExtraRow,
    /// A cell of the rim isn't rocky; this is the first in row order.
    OpenRim {
        /// the column, from 0
        x: u16,
        /// the row, from 0
        y: u16,
    },
    /// The number of hill cells, which is more than 16,384.
    TooManyAnts {
        /// how many hill cells there are
        count: u32,
    },
    /// Memory ran out.
    OutOfMemory,
}

// The text about a row.
#[derive(Clone, Copy)]
struct AtRow<A>(u16, A);

impl<A: Layout + Copy> Layout for AtRow<A> {
    ghost use Rattle.world_read.specs.FaultText.{row_says};

    ghost text = { λ said. row_says said.0 (A.text said.1) };

    fn push_to<K: Sink>(&self, sink: &mut K) -> Result<(), Failed> {
        layout!("row ", self.0, ": ", self.1).push_to(sink)
    }
}

impl Layout for WorldFault {
    ghost use Rattle.world_read.specs.FaultText.{world_fault_text};

    ghost text = { world_fault_text };

    fn push_to<K: Sink>(&self, sink: &mut K) -> Result<(), Failed> {
        match *self {
            WorldFault::BadWidth => "bad width".push_to(sink),
            WorldFault::BadHeight => "bad height".push_to(sink),
            WorldFault::MissingRow { row } => AtRow(row, "missing").push_to(sink),
            WorldFault::BadCell { row, column } => AtRow(
                row,
                layout!("bad cell at column ", column),
            ).push_to(sink),
            WorldFault::ShortRow { row } => AtRow(row, "short").push_to(sink),
            WorldFault::LongRow { row } => AtRow(row, "long").push_to(sink),
            WorldFault::ExtraRow => "extra row".push_to(sink),
            WorldFault::OpenRim { x, y } => layout!("rim open at (", x, ", ", y, ")").push_to(sink),
            WorldFault::TooManyAnts { count } => layout!("too many ants, ", count).push_to(sink),
            WorldFault::OutOfMemory => OutOfMemory.push_to(sink),
        }
    }
}

impl fmt::Display for WorldFault {
    ghost use Rattle.std.specs.Prelude.{Some};
    ghost use Rattle.world_read.specs.FaultText.{world_fault_text};

    ghost output = { λ fault. Some (world_fault_text fault) };

    fn fmt<W: fmt::Write>(&self, f: &mut fmt::Formatter<W>) -> fmt::Result {
        show(self, f)
    }
}

impl Error for WorldFault {}

impl From<AllocError> for WorldFault {
    ghost use Rattle.world_read.specs.declared.fault.WorldFault.TheVariants.{OutOfMemory};

    ghost from_gives = { λ _ fault. fault ≡ OutOfMemory };

    fn from(_: AllocError) -> Self {
        WorldFault::OutOfMemory
    }
}

impl<T: Drop> From<AllocFailed<T>> for WorldFault {
    ghost use Rattle.world_read.specs.declared.fault.WorldFault.TheVariants.{OutOfMemory};

    ghost from_gives = { λ _ fault. fault ≡ OutOfMemory };

    fn from(_: AllocFailed<T>) -> Self {
        WorldFault::OutOfMemory
    }
}

impl From<OutOfMemory> for WorldFault {
    ghost use Rattle.world_read.specs.declared.fault.WorldFault.TheVariants.{OutOfMemory};

    ghost from_gives = { λ _ fault. fault ≡ OutOfMemory };

    fn from(_: OutOfMemory) -> Self {
        WorldFault::OutOfMemory
    }
}
