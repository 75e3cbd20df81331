// World texts written.
ghost use Rattle.std.specs.Prelude.{◌≡◌, ◌+◌, ◌*◌, ◌%◌, ◌<◌, ◌≤◌, ◌∷◌, [], ◌==◌, slice_index_or};
ghost use Rattle.ant_base.specs.Sink.{Pushed};
ghost use Rattle.hex_geometry.specs.declared.position.Pos.{Pos};
ghost use Rattle.cell_world.specs.declared.kind.Kind.TheVariants.{Rock};
ghost use Rattle.cell_world.specs.Grid.{world_of};
ghost use Rattle.world_read.specs.Bytes.{byte_of};
ghost use Rattle.world_read.specs.Canonical.{canonical_text, cell_text, line_of_row, space_if};
ghost use Rattle.world_read.specs.Opened.{IsOpeningWorld, kind_of_cell, kind_of_clear, kinds_of};

use ant_base::{Each, Failed, Layout, NumberedTexts, Sink, layout};
use cell_world::{Cell, Colour, World};
use hex_geometry::Pos;

/// Pushes the canonical text of an opening world: a line with the width, one with the height, and one for each row. The
/// cells of a row have one space between them, and a row with an odd number, counted from 0, begins with a space (the
/// task's world files). At `Failed` a prefix of the text was appended.
#[tactic(auto, unfolding(crate::specs::Canonical::canonical_text))]
pub fn write_world<K: Sink>(world: &World, sink: &mut K) -> Result<(), Failed>
    requires { IsOpeningWorld world.now }
    ensures { Pushed (K.state sink.old) (K.state sink.new) (canonical_text world.now.width world.now.height (kinds_of world.now)) result }
{
    layout!(
        world.width(),
        "\n",
        world.height(),
        "\n",
        Each(GridRows { world })
    )
    .push_to(sink)
}

// The rows of a world whose cells each have at most 9 food particles.
#[derive(Clone, Copy)]
struct GridRows<'w> {
    world: &'w World,
    ghost light: { (p : Pos) → ((world_of world.now).cells p).food ≤ 9 },
}

impl NumberedTexts for GridRows<'_> {
    ghost count = { λ rows. rows.world.now.height };

    ghost part = { λ rows y. line_of_row rows.world.now.width (kinds_of rows.world.now) y };

    fn count(&self) -> usize {
        self.world.height() as usize
    }

    #[tactic(auto, unfolding(crate::specs::Canonical::line_of_row))]
    fn push_part<K: Sink>(&self, at: usize, sink: &mut K) -> Result<(), Failed> {
        let world = self.world;
        let rows = world.height();
        prove!(at < rows as usize);
        let y = at as u16;
        layout!(Space(y % 2 == 1), Each(GridRow { world, y }), "\n").push_to(sink)
    }
}

// The cells of a row that is below the height.
#[derive(Clone, Copy)]
struct GridRow<'w> {
    world: &'w World,
    y: u16,
    ghost inside: { y < world.now.height },
    ghost light: { (p : Pos) → ((world_of world.now).cells p).food ≤ 9 },
}

impl NumberedTexts for GridRow<'_> {
    ghost count = { λ row. row.world.now.width };

    ghost part = { λ row x. cell_text x (byte_of (slice_index_or (kinds_of row.world.now) (row.y * row.world.now.width + x) Rock)) };

    fn count(&self) -> usize {
        self.world.width() as usize
    }

    fn push_part<K: Sink>(&self, at: usize, sink: &mut K) -> Result<(), Failed> {
        let world = self.world;
        let columns = world.width();
        prove!(at < columns as usize);
        let x = at as u16;
        let y = self.y;
        let byte = byte_of(world.cell(Pos { x, y }));
        CellText { x, byte }.push_to(sink)
    }
}

// The byte of a cell, with the space before it.
#[derive(Clone, Copy)]
struct CellText {
    x: u16,
    byte: u8,
}

impl Layout for CellText {
    ghost text = { λ cell. cell_text cell.x cell.byte };

    #[tactic(auto, unfolding(crate::specs::Canonical::cell_text))]
    fn push_to<K: Sink>(&self, sink: &mut K) -> Result<(), Failed> {
        layout!(Space(self.x > 0), Byte(self.byte)).push_to(sink)
    }
}

// A space, if there is to be one.
#[derive(Clone, Copy)]
struct Space(bool);

impl Layout for Space {
    ghost text = { λ space. space_if space.0 };

    fn push_to<K: Sink>(&self, sink: &mut K) -> Result<(), Failed> {
        let space = if self.0 { Some(" ") } else { None };
        space.push_to(sink)
    }
}

// One byte.
#[derive(Clone, Copy)]
struct Byte(u8);

impl Layout for Byte {
    ghost text = { λ byte. byte.0 ∷ [] };

    fn push_to<K: Sink>(&self, sink: &mut K) -> Result<(), Failed> {
        sink.push(&[self.0])
    }
}

// The byte of a cell of an opening world.
fn byte_of(cell: Cell) -> u8
    requires { cell.food ≤ 9 }
    ensures { result ≡ byte_of (kind_of_cell cell) }
{
    if cell.rocky {
        return b'#';
    }
    match cell.hill {
        Some(Colour::Red) => b'+',
        Some(Colour::Black) => b'-',
        None => byte_of_food(cell.food),
    }
}

// The byte of a clear cell of no hill with this much food.
fn byte_of_food(food: u32) -> u8
    requires { food ≤ 9 }
    ensures { result ≡ byte_of (kind_of_clear None food) }
{
    if food == 0 { b'.' } else { b'0' + food as u8 }
}
