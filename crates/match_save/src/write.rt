// The text of a save, pushed.
ghost use Rattle.std.specs.Prelude.{◌≡◌, ◌+◌, ◌*◌, ◌<◌, [], ◌∷◌, ℕ};
ghost use Rattle.ant_base.specs.Sink.{Pushed};
ghost use Rattle.brain_read.specs.Canonical.{brain_text};
ghost use Rattle.cell_world.specs.declared.cell.Cell.{Cell};
ghost use Rattle.cell_world.specs.Grid.{cell_in};
ghost use Rattle.cell_world.specs.Marks.{IsOfSix};
ghost use Rattle.match_save.specs.Saved.{save_text};
ghost use Rattle.match_save.specs.Text.{ant_tokens, head_tokens};
ghost use Rattle.match_save.specs.Inner.LineTexts.{lines_text, tokens_text};
ghost use Rattle.match_save.specs.Inner.Written.{ant_text_at, black_byte, cell_food_byte, cells_written, food_text_at, ground_byte, program_text, red_byte, row_text, with_power, written};

use crate::head::Head;
use crate::saved::Saved;
use ant_base::{Each, Failed, Layout, NumberedTexts, Sink, layout};
use brain_read::{Brain, write_brain};
use cell_world::{Ant, Cell, Colour, Marks, PlacedAnt, World};
use dump_print::ColourWord;
use hex_geometry::{Pos, pos_at};

// How many markers a colour has.
const MARKERS: u8 = 6;

/// Pushes the text of a save, which is read back as this save (this project's own). At `Failed` a prefix of it was
/// appended, and the sink's count of faults rose. It takes no memory.
pub fn write_saved<K: Sink>(saved: &Saved, sink: &mut K) -> Result<(), Failed>
    ensures pushed { Pushed (K.state sink.old) (K.state sink.new) (save_text saved.now) result }
{
    let world = saved.world();
    prove!(world.width() > 0);
    push_written(saved, sink)
}

// Pushes it part by part.
#[tactic(auto, unfolding(crate::specs::Inner::Written::written))]
fn push_written<K: Sink>(saved: &Saved, sink: &mut K) -> Result<(), Failed>
    ensures { Pushed (K.state sink.old) (K.state sink.new) (written saved.now) result }
{
    let world = saved.world();
    let brains = saved.brains();
    layout!(
        HeadLines(saved.head()),
        Program {
            name: "red",
            brain: brains.red
        },
        Program {
            name: "black",
            brain: brains.black
        },
        CellLines(world),
        Each(AntLines(world)),
        "end\n"
    )
    .push_to(sink)
}

// The first eight lines.
#[derive(Clone, Copy)]
struct HeadLines(Head);

impl Layout for HeadLines {
    ghost text = { λ lines. lines_text (head_tokens lines.0) };

    fn push_to<K: Sink>(&self, sink: &mut K) -> Result<(), Failed> {
        let head = self.0;
        layout!(
            "ants save 1\n",
            layout!("seed ", head.seed, "\n"),
            layout!(
                "sheet ",
                head.surround,
                " ",
                head.corpse,
                " ",
                head.rest,
                "\n"
            ),
            layout!("window ", head.window, "\n"),
            layout!("round ", head.round, "\n"),
            layout!("place ", head.place, "\n"),
            layout!("taken ", head.taken, " redone ", head.redone, "\n"),
            layout!("size ", head.width, " ", head.height, "\n")
        )
        .push_to(sink)
    }
}

// The lines of a brain of this name.
#[derive(Clone, Copy)]
struct Program<'b> {
    name: &'b str,
    brain: &'b Brain,
}

impl Layout for Program<'_> {
    ghost text = { λ program. program_text program.name.now program.brain.now };

    fn push_to<K: Sink>(&self, sink: &mut K) -> Result<(), Failed> {
        layout!(
            layout!(self.name, " ", self.brain.len(), "\n"),
            Lines(self.brain)
        )
        .push_to(sink)
    }
}

// The instructions of a brain.
#[derive(Clone, Copy)]
struct Lines<'b>(&'b Brain);

impl Layout for Lines<'_> {
    ghost text = { λ lines. brain_text lines.0.now };

    fn push_to<K: Sink>(&self, sink: &mut K) -> Result<(), Failed> {
        write_brain(self.0, sink)
    }
}

// One byte.
#[derive(Clone, Copy)]
struct Byte(u8);

impl Layout for Byte {
    ghost text = { λ byte. byte.0 ∷ [] };

    fn push_to<K: Sink>(&self, sink: &mut K) -> Result<(), Failed> {
        sink.push(&[self.0])
    }
}

// What a row says about each of its cells, in one byte.
trait CellByte: Copy + Drop {
    ghost byte: { Cell → ℕ };

    fn byte(cell: Cell) -> u8
        requires red { IsOfSix cell.red }
        requires black { IsOfSix cell.black }
        ensures { result ≡ byte cell };
}

#[derive(Clone, Copy)]
struct GroundByte;

impl CellByte for GroundByte {
    ghost byte = { ground_byte };

    fn byte(cell: Cell) -> u8 {
        if cell.rocky {
            return b'#';
        }
        match cell.hill {
            None => b'.',
            Some(Colour::Red) => b'+',
            Some(Colour::Black) => b'-',
        }
    }
}

#[derive(Clone, Copy)]
struct RedByte;

impl CellByte for RedByte {
    ghost byte = { red_byte };

    fn byte(cell: Cell) -> u8 {
        48 + set_of(cell.red)
    }
}

#[derive(Clone, Copy)]
struct BlackByte;

impl CellByte for BlackByte {
    ghost byte = { black_byte };

    fn byte(cell: Cell) -> u8 {
        48 + set_of(cell.black)
    }
}

#[derive(Clone, Copy)]
struct FoodByte;

impl CellByte for FoodByte {
    ghost byte = { cell_food_byte };

    fn byte(cell: Cell) -> u8 {
        if cell.food <= 62 {
            48 + cell.food as u8
        } else {
            b'o'
        }
    }
}

// The sum of the powers of two of the markers that are set.
fn set_of(marks: Marks) -> u8
    requires { IsOfSix marks }
    ensures value { result ≡ marks.set }
    ensures small { result < 64 }
{
    let mut set = 0;
    for i in 0..MARKERS {
        set = with_power(marks, set, i);
    }
    set
}

// The same number, and the power of two of a marker if it is set.
fn with_power(marks: Marks, set: u8, i: u8) -> u8
    requires { i < 6 }
    ensures { result ≡ with_power marks set i }
{
    if marks.has(i) { set | 1 << i } else { set }
}

// A row of bytes, which is below the height.
#[derive(Drop)]
struct Row<'w, B: CellByte> {
    world: &'w World,
    y: u16,
    byte: B,
    ghost inside: { y < world.now.height },
}

impl<B: CellByte> NumberedTexts for Row<'_, B> {
    ghost count = { λ row. row.world.now.width };

    ghost part = { λ row x. B.byte (cell_in row.world.now (record { x = x; y = row.y })) ∷ [] };

    fn count(&self) -> usize {
        self.world.width() as usize
    }

    fn push_part<K: Sink>(&self, at: usize, sink: &mut K) -> Result<(), Failed> {
        let world = self.world;
        let columns = world.width();
        prove!(at < columns as usize);
        let x = at as u16;
        let y = self.y;
        Byte(B::byte(world.cell(Pos { x, y }))).push_to(sink)
    }
}

// The rows of a world, a byte for each cell.
#[derive(Clone, Copy)]
struct Rows<'w, B: CellByte> {
    world: &'w World,
    byte: B,
}

impl<B: CellByte> NumberedTexts for Rows<'_, B> {
    ghost count = { λ rows. rows.world.now.height };

    ghost part = { λ rows y. row_text B.byte rows.world.now y };

    fn count(&self) -> usize {
        self.world.height() as usize
    }

    fn push_part<K: Sink>(&self, at: usize, sink: &mut K) -> Result<(), Failed> {
        let world = self.world;
        let rows = world.height();
        prove!(at < rows as usize);
        let y = at as u16;
        let byte = self.byte;
        layout!(Each(Row { world, y, byte }), "\n").push_to(sink)
    }
}

// The lines of food amounts that have no byte of their own.
#[derive(Clone, Copy)]
struct FoodLines<'w>(&'w World);

impl NumberedTexts for FoodLines<'_> {
    ghost count = { λ lines. lines.0.now.width * lines.0.now.height };

    ghost part = { λ lines i. food_text_at lines.0.now i };

    fn count(&self) -> usize {
        self.0.width() as usize * self.0.height() as usize
    }

    fn push_part<K: Sink>(&self, at: usize, sink: &mut K) -> Result<(), Failed> {
        let world = self.0;
        let p = pos_at(world.width(), at);
        let food = world.cell(p).food;
        if food <= 62 {
            return Ok(());
        }
        layout!("food ", p.x, " ", p.y, " ", food, "\n").push_to(sink)
    }
}

// The lines of the cells.
#[derive(Clone, Copy)]
struct CellLines<'w>(&'w World);

impl Layout for CellLines<'_> {
    ghost text = { λ lines. cells_written lines.0.now };

    #[tactic(auto, unfolding(crate::specs::Inner::Written::cells_written))]
    fn push_to<K: Sink>(&self, sink: &mut K) -> Result<(), Failed> {
        let world = self.0;
        layout!(
            Each(Rows {
                world,
                byte: GroundByte
            }),
            Each(Rows {
                world,
                byte: RedByte
            }),
            Each(Rows {
                world,
                byte: BlackByte
            }),
            Each(Rows {
                world,
                byte: FoodByte
            }),
            Each(FoodLines(world))
        )
        .push_to(sink)
    }
}

// The line of an ant.
#[derive(Clone, Copy)]
struct AntLine(PlacedAnt);

impl Layout for AntLine {
    ghost text = { λ line. tokens_text (ant_tokens line.0) };

    fn push_to<K: Sink>(&self, sink: &mut K) -> Result<(), Failed> {
        let p = self.0.place;
        let ant = self.0.ant;
        let word = ColourWord(ant.colour);
        let facing = ant.facing.number();
        let laden = u8::from(ant.laden);
        layout!(
            layout!("ant ", ant.id, " ", word),
            layout!(" ", p.x, " ", p.y),
            layout!(" ", facing, " ", laden),
            layout!(" ", ant.state, " ", ant.resting, "\n")
        )
        .push_to(sink)
    }
}

// The lines of the living ants, by id.
#[derive(Clone, Copy)]
struct AntLines<'w>(&'w World);

impl NumberedTexts for AntLines<'_> {
    ghost count = { λ lines. lines.0.now.ids };

    ghost part = { λ lines i. ant_text_at lines.0.now i };

    fn count(&self) -> usize {
        self.0.ant_count() as usize
    }

    fn push_part<K: Sink>(&self, at: usize, sink: &mut K) -> Result<(), Failed> {
        let world = self.0;
        let ids = world.ant_count();
        prove!(at < ids as usize);
        let Some(place) = world.ant_place(at as u32) else {
            return Ok(());
        };
        let Some(ant) = world.cell(place).ant else {
            return Ok(());
        };
        AntLine(PlacedAnt { place, ant }).push_to(sink)
    }
}
