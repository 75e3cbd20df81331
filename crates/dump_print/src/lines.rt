// The lines of cells, row by row.
ghost use Rattle.std.specs.Prelude.{◌≡◌, ◌<◌, codes, decimal};
ghost use Rattle.cell_world.specs.Grid.{world_of};
ghost use Rattle.ant_base.specs.Layout.{◌+++◌};
ghost use Rattle.dump_print.specs.Inner.Breaks.{line_break, row_tail, broken_line, broken_row};
ghost use Rattle.dump_print.specs.Content.{content_text};
ghost use Rattle.dump_print.specs.Texts.{cell_words, cells_text};

use crate::content::Content;
use ant_base::{Each, Failed, Layout, NumberedTexts, Sink, layout};
use arrayvec::ArrayString;
use cell_world::{Cell, World};
use hex_geometry::Pos;
use itoa::Buffer;

// The text between the column and the content of each cell of row `y`, such as `, 7): `. It is made once for a row.
#[tactic(auto, unfolding(crate::specs::Inner::Breaks::row_tail))]
fn row_tail(y: u16) -> ArrayString<16>
    ensures { result.bytes ≡ row_tail y }
{
    let mut buffer = Buffer::new();
    let mut tail = ArrayString::new();
    tail.push_str(", ");
    tail.push_str(buffer.format(y));
    tail.push_str("): ");
    tail
}

/// The line of a cell in a dump, such as `cell (1, 1): red hill; `, without its LF.
#[derive(Clone, Copy)]
pub struct CellWords {
    /// The position of the cell.
    pub at: Pos,
    /// The cell.
    pub cell: Cell,
}

impl Layout for CellWords {
    ghost text = { λ line. cell_words line.at.x line.at.y line.cell };

    fn push_to<K: Sink>(&self, sink: &mut K) -> Result<(), Failed> {
        layout!(
            "cell (",
            self.at.x,
            ", ",
            self.at.y,
            "): ",
            Content(self.cell)
        )
        .push_to(sink)
    }
}

// The line of a cell without its LF, after the LF of the previous line, if there is one. Sinks of streams flush after
// each piece that ends in LF, so this way all lines are flushed at once.
#[derive(Clone, Copy)]
pub struct CellLine<'r> {
    pub x: u16,
    pub y: u16,
    pub tail: &'r str,
    pub cell: Cell,
}

impl Layout for CellLine<'_> {
    ghost text = { λ line. line_break line.x line.y +++ codes "cell (" +++ decimal line.x +++ line.tail.now +++ content_text line.cell };

    fn push_to<K: Sink>(&self, sink: &mut K) -> Result<(), Failed> {
        let start = if self.x == 0 && self.y == 0 {
            "cell ("
        } else {
            "\ncell ("
        };
        layout!(start, self.x, self.tail, Content(self.cell)).push_to(sink)
    }
}

// The lines of one row, which is below the height, each after the LF of the previous line.
#[derive(Clone, Copy)]
pub struct Row<'w> {
    pub world: &'w World,
    pub y: u16,
    pub tail: &'w str,
    ghost inside: { y < world.now.height },
    ghost told: { tail.now ≡ row_tail y },
}

impl NumberedTexts for Row<'_> {
    ghost count = { λ row. row.world.now.width };

    ghost part = { λ row x. broken_line (world_of row.world.now) row.y x };

    fn count(&self) -> usize {
        self.world.width() as usize
    }

    #[tactic(auto, unfolding(crate::specs::Inner::Breaks::line_body))]
    fn push_part<K: Sink>(&self, at: usize, sink: &mut K) -> Result<(), Failed> {
        let world = self.world;
        let columns = world.width();
        prove!(at < columns as usize);
        let x = at as u16;
        let y = self.y;
        let tail = self.tail;
        let cell = world.cell(Pos { x, y });
        CellLine { x, y, tail, cell }.push_to(sink)
    }
}

// The rows of a world, each line after the LF of the previous line.
#[derive(Clone, Copy)]
pub struct Rows<'w>(pub &'w World);

impl NumberedTexts for Rows<'_> {
    ghost count = { λ rows. rows.0.now.height };

    ghost part = { λ rows y. broken_row (world_of rows.0.now) y };

    fn count(&self) -> usize {
        self.0.height() as usize
    }

    #[tactic(auto, unfolding(crate::specs::Inner::Breaks::broken_row))]
    fn push_part<K: Sink>(&self, at: usize, sink: &mut K) -> Result<(), Failed> {
        let world = self.0;
        let rows = world.height();
        prove!(at < rows as usize);
        let y = at as u16;
        let tail = row_tail(y);
        Each(Row {
            world,
            y,
            tail: tail.as_str(),
        })
        .push_to(sink)
    }
}

// The lines of all cells.
#[derive(Clone, Copy)]
pub struct Cells<'w>(pub &'w World);

impl Layout for Cells<'_> {
    ghost text = { λ cells. cells_text (world_of cells.0.now) };

    fn push_to<K: Sink>(&self, sink: &mut K) -> Result<(), Failed> {
        let world = self.0;
        // There is a first line, with no LF before it.
        prove!(world.width() > 0);
        layout!(Each(Rows(world)), "\n").push_to(sink)
    }
}
