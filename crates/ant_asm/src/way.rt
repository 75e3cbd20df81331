// The uses on the way to a body.
use crate::level::Level;
use ant_base::{Failed, Layout, Sink, layout};

/// The uses on the way to a body, given by the bodies that were left at them, from main on.
#[derive(Clone, Copy)]
pub struct Way<'w>(pub &'w [Level<'w>]);

/// The text of the uses: each is the name of its block, `@`, its line and `/`.
impl<'w> Layout for Way<'w> {
    ghost use Rattle.ant_asm.specs.Labels.{way_text};
    ghost use Rattle.ant_asm.specs.Inner.Ways.{steps_of};

    ghost text = { λ way. way_text (steps_of way.0.now) };

    fn push_to<K: Sink>(&self, sink: &mut K) -> Result<(), Failed> {
        for level in self.0 {
            layout!(Name(level.step.name), "@", level.step.line, "/").push_to(sink)?;
        }
        Ok(())
    }
}

/// The uses on the way after the line of a state: a space, and the uses with `/` between them; nothing in main.
#[derive(Clone, Copy)]
pub struct Uses<'w>(pub &'w [Level<'w>]);

/// Their text.
impl<'w> Layout for Uses<'w> {
    ghost use Rattle.std.specs.Prelude.{codes};
    ghost use Rattle.ant_asm.specs.StateLines.{uses_text};
    ghost use Rattle.ant_asm.specs.Inner.Ways.{steps_of};

    ghost text = { λ uses. uses_text (codes " ") (steps_of uses.0.now) };

    fn push_to<K: Sink>(&self, sink: &mut K) -> Result<(), Failed> {
        let mut before = " ";
        for level in self.0 {
            layout!(before, Name(level.step.name), "@", level.step.line).push_to(sink)?;
            before = "/";
        }
        Ok(())
    }
}

/// A name in a text.
#[derive(Clone, Copy)]
pub struct Name<'n>(pub &'n [u8]);

/// Its bytes.
impl<'n> Layout for Name<'n> {
    ghost text = { λ name. name.0.now };

    fn push_to<K: Sink>(&self, sink: &mut K) -> Result<(), Failed> {
        sink.push(self.0)
    }
}
