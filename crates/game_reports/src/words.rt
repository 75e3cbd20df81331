// Words that several reports use.

use ant_base::{Failed, Layout, Sink, layout};
use cell_world::{Ant, Colour};
use dump_print::ColourWord;
use hex_geometry::Pos;

// An ant's colour and id.
#[derive(Clone, Copy)]
pub(crate) struct AntWords(pub Ant);

impl Layout for AntWords {
    ghost use Rattle.std.specs.Prelude.{Some};
    ghost use Rattle.game_reports.specs.Events.{ant_words};

    ghost text = { λ words. ant_words (Some words.0) };

    fn push_to<K: Sink>(&self, sink: &mut K) -> Result<(), Failed> {
        layout!(ColourWord(self.0.colour), " ant ", self.0.id).push_to(sink)
    }
}

// A position.
#[derive(Clone, Copy)]
pub(crate) struct PlaceWords(pub Pos);

impl Layout for PlaceWords {
    ghost use Rattle.std.specs.Prelude.{Some};
    ghost use Rattle.game_reports.specs.Events.{place_words};

    ghost text = { λ words. place_words (Some words.0) };

    fn push_to<K: Sink>(&self, sink: &mut K) -> Result<(), Failed> {
        layout!("(", self.0.x, ", ", self.0.y, ")").push_to(sink)
    }
}

// The hill of a cell, if it belongs to one.
#[derive(Clone, Copy)]
pub(crate) struct HillWords(pub Option<Colour>);

impl Layout for HillWords {
    ghost use Rattle.game_reports.specs.Events.{hill_words};

    ghost text = { λ words. hill_words words.0 };

    fn push_to<K: Sink>(&self, sink: &mut K) -> Result<(), Failed> {
        match self.0 {
            Some(colour) => layout!(", ", ColourWord(colour), " hill").push_to(sink),
            None => Ok(()),
        }
    }
}
