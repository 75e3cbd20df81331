// The text of a cell's content.
ghost use Rattle.std.specs.Prelude.{[], codes, decimal, if◌then◌else◌};
ghost use Rattle.cell_world.specs.Marks.{has_mark};
ghost use Rattle.dump_print.specs.Content.{food_text, hill_text, marks_text, content_text, colour_text, standing_ant_text};
ghost use Rattle.hex_geometry.specs.Direction.{number_of};

use ant_base::{Each, Failed, Layout, NumberedTexts, Sink, layout};
use cell_world::{Ant, Cell, Colour, Marks};
use hex_geometry::Dir;

/// The word of a colour in a dump and in a save: `red` or `black` (this project's own layout).
#[derive(Clone, Copy)]
pub struct ColourWord(pub Colour);

impl Layout for ColourWord {
    ghost text = { λ word. colour_text word.0 };

    fn push_to<K: Sink>(&self, sink: &mut K) -> Result<(), Failed> {
        match self.0 {
            Colour::Red => "red".push_to(sink),
            Colour::Black => "black".push_to(sink),
        }
    }
}

// The food on a cell, if there is any.
#[derive(Clone, Copy)]
pub struct Food(pub u32);

impl Layout for Food {
    ghost text = { λ food. food_text food.0 };

    fn push_to<K: Sink>(&self, sink: &mut K) -> Result<(), Failed> {
        let part = if self.0 == 0 {
            None
        } else {
            Some(layout!(self.0, " food; "))
        };
        part.push_to(sink)
    }
}

// The hill to which a cell belongs, if any.
#[derive(Clone, Copy)]
pub struct Hill(pub Option<Colour>);

impl Layout for Hill {
    ghost text = { λ hill. hill_text hill.0 };

    fn push_to<K: Sink>(&self, sink: &mut K) -> Result<(), Failed> {
        match self.0 {
            None => Ok(()),
            Some(colour) => layout!(ColourWord(colour), " hill; ").push_to(sink),
        }
    }
}

// The numbers of the markers that are set, in rising order.
#[derive(Clone, Copy)]
pub struct Digits(pub Marks);

impl NumberedTexts for Digits {
    ghost count = { λ _. 6 };

    ghost part = { λ digits i. if has_mark digits.0 i then decimal i else [] };

    fn count(&self) -> usize {
        6
    }

    fn push_part<K: Sink>(&self, at: usize, sink: &mut K) -> Result<(), Failed> {
        let part = if self.0.has(at as u8) { Some(at) } else { None };
        part.push_to(sink)
    }
}

// A colour's markers, if any is set.
#[derive(Clone, Copy)]
pub struct Marked(pub Colour, pub Marks);

impl Layout for Marked {
    ghost text = { λ marked. marks_text marked.0 marked.1 };

    fn push_to<K: Sink>(&self, sink: &mut K) -> Result<(), Failed> {
        let part = if self.1.any() {
            Some(layout!(ColourWord(self.0), " marks: ", Each(Digits(self.1)), "; "))
        } else {
            None
        };
        part.push_to(sink)
    }
}

// How many food particles an ant carries.
#[derive(Clone, Copy)]
pub struct Load(pub bool);

impl Layout for Load {
    ghost text = { λ load. if load.0 then codes "1" else codes "0" };

    fn push_to<K: Sink>(&self, sink: &mut K) -> Result<(), Failed> {
        if self.0 {
            "1".push_to(sink)
        } else {
            "0".push_to(sink)
        }
    }
}

// The number of a direction.
#[derive(Clone, Copy)]
pub struct Facing(pub Dir);

impl Layout for Facing {
    ghost text = { λ facing. decimal (number_of facing.0) };

    fn push_to<K: Sink>(&self, sink: &mut K) -> Result<(), Failed> {
        self.0.number().push_to(sink)
    }
}

#[derive(Clone, Copy)]
pub struct StandingAnt(pub Ant);

impl Layout for StandingAnt {
    ghost text = { λ standing. standing_ant_text standing.0 };

    #[tactic(auto, unfolding(crate::specs::Content::standing_ant_text))]
    fn push_to<K: Sink>(&self, sink: &mut K) -> Result<(), Failed> {
        let ant = self.0;
        layout!(
            ColourWord(ant.colour),
            " ant of id ",
            ant.id,
            ", dir ",
            Facing(ant.facing),
            ", food ",
            Load(ant.laden),
            ", state ",
            ant.state,
            ", resting ",
            ant.resting
        )
        .push_to(sink)
    }
}

#[derive(Clone, Copy)]
pub struct Content(pub Cell);

impl Layout for Content {
    ghost text = { λ content. content_text content.0 };

    #[tactic(auto, unfolding(crate::specs::Content::content_text))]
    fn push_to<K: Sink>(&self, sink: &mut K) -> Result<(), Failed> {
        if self.0.rocky {
            "rock".push_to(sink)
        } else {
            layout!(
                Food(self.0.food),
                Hill(self.0.hill),
                Marked(Colour::Red, self.0.red),
                Marked(Colour::Black, self.0.black),
                self.0.ant.map(StandingAnt)
            )
            .push_to(sink)
        }
    }
}
