// The labels of a program, and the states to which they lead.
ghost use Rattle.std.specs.Prelude.{◌+◌, ◌≤◌, ◌<◌, [], length};
ghost use Rattle.ant_base.specs.Sink.{Pushed};
ghost use Rattle.ant_asm.specs.Labels.{labels_text};
ghost use Rattle.ant_asm.specs.Inner.Flat.{most};
ghost use Rattle.ant_asm.specs.Inner.Outlines.{AreGoodNamed, AreListed, all_states, label_of, main_of, outline_at, outline_size, own_states};
ghost use Rattle.ant_asm.specs.Inner.Walks.{FitsMet, met_labels};
ghost use Rattle.ant_asm.specs.Inner.Ways.{steps_of};

use crate::level::Level;
use crate::named::{NamedBody, NamedLine, size_of};
use crate::source::Source;
use crate::walk::{Met, Walk, state_from};
use crate::way::{Name, Way};
use ant_base::{Failed, Layout, Sink, layout};

/// The labels of a source.
#[derive(Clone, Copy)]
pub struct Labels<'s>(pub &'s Source);

/// A line for each label, in order: the state, the uses on the way to its body, and the label's name, such as `40
/// carry` or `13 step@90/turn@14/again`. Each use is the name of its block, `@`, its line and `/`. Lines are pushed one
/// by one, and it takes no memory.
impl Layout for Labels<'_> {
    ghost use Rattle.ant_asm.specs.Labels.{labels_text};

    ghost text = { λ labels. labels_text labels.0.now.labels };

    fn push_to<K: Sink>(&self, sink: &mut K) -> Result<(), Failed> {
        let source = self.0;
        push_labels(&source.bodies, sink)
    }
}

// Pushes the labels of main, which is the last of the bodies, and those of all bodies that it uses.
fn push_labels<K: Sink>(bodies: &[NamedBody], sink: &mut K) -> Result<(), Failed>
    requires { AreListed bodies.now }
    ensures { Pushed (K.state sink.old) (K.state sink.new) (labels_text (all_states (outline_at bodies.now (main_of bodies.now)) 0 0 [])) result }
{
    let mut walk = Walk::new(bodies);
    push_met(bodies, Met::Body(walk.spot), walk.outer.as_slice(), sink)?;
    while let Some(met) = walk.step() {
        push_met(bodies, met, walk.outer.as_slice(), sink)?;
    }
    Ok(())
}

// Pushes the labels of the own lines of the body with this number. It needs the number of the body's first instruction,
// and that of what follows the body.
fn push_own<K: Sink>(
    bodies: &[NamedBody],
    number: usize,
    base: u16,
    after: u16,
    way: &[Level],
    sink: &mut K,
) -> Result<(), Failed>
    requires good { AreGoodNamed [] bodies.now }
    requires known { number < length bodies.now }
    requires fits { base + outline_size (outline_at bodies.now number) ≤ most }
    ensures { Pushed (K.state sink.old) (K.state sink.new) (labels_text (own_states (outline_at bodies.now number) base after (steps_of way.now))) result }
{
    let body = &bodies[number];
    let end = base + body.size;
    let mut at = base;
    for line in &body.lines {
        push_label(line, state_from(at, end, after), way, sink)?;
        at += size_of(bodies, line);
    }
    Ok(())
}

// Pushes the label of a line, if it is one.
fn push_label<K: Sink>(
    line: &NamedLine,
    state: u16,
    way: &[Level],
    sink: &mut K,
) -> Result<(), Failed>
    ensures { Pushed (K.state sink.old) (K.state sink.new) (labels_text (label_of line.now state (steps_of way.now))) result }
{
    match line {
        NamedLine::Label(name) => layout!(state, " ", Way(way), Name(name), "\n").push_to(sink),
        NamedLine::Instruction(_) => Ok(()),
        NamedLine::Use { .. } => Ok(()),
    }
}

// Pushes the labels of a body that begins.
fn push_met<K: Sink>(
    bodies: &[NamedBody],
    met: Met,
    way: &[Level],
    sink: &mut K,
) -> Result<(), Failed>
    requires good { AreGoodNamed [] bodies.now }
    requires fits { FitsMet bodies.now met }
    ensures { Pushed (K.state sink.old) (K.state sink.new) (labels_text (met_labels bodies.now met (steps_of way.now))) result }
{
    match met {
        Met::Nothing => Ok(()),
        Met::Instruction { .. } => Ok(()),
        Met::Body(spot) => push_own(bodies, spot.number, spot.at, spot.after, way, sink),
    }
}
