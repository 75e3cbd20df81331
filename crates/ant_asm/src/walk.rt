// A walk over the bodies of a program. It passes through a body each time that the body is used.
ghost use Rattle.std.specs.Prelude.{◌≡◌, ◌==◌, ◌++◌, [], if◌then◌else◌};
ghost use Rattle.ant_asm.specs.declared.walk.Met.TheVariants.{Body};
ghost use Rattle.ant_asm.specs.Labels.Outline.{Closed};
ghost use Rattle.ant_asm.specs.Inner.Outlines.{AreListed, all_states, main_of, outline_at, told_lines};
ghost use Rattle.ant_asm.specs.Inner.Walks.{FitsMet, IsNext, IsStep, IsStepOrEnd, IsWalk, labels_left, lines_left, met_labels, rest_at};

use crate::level::{Level, Spot, Step};
use crate::named::{NamedBody, NamedLine, size_of};
use crate::program::MOST_BLOCKS;
use arrayvec::ArrayVec;

/// The spot of a walk, and the bodies that it has left at uses, from main on.
#[derive(Drop)]
pub struct Walk<'s> {
    pub bodies: &'s [NamedBody],
    pub outer: ArrayVec<Level<'s>, MOST_BLOCKS>,
    pub spot: Spot,
}

/// What a step of a walk meets: nothing to report, an instruction with its number and line, or a body that begins.
#[derive(Clone, Copy)]
pub enum Met {
    Nothing,
    Instruction { at: u16, line: u32 },
    Body(Spot),
}

impl<'s> Walk<'s> {
    // At the beginning of main.
    pub(crate) fn new(bodies: &'s [NamedBody]) -> Self
        requires { AreListed bodies.now }
        ensures good { IsWalk result }
        ensures bodies { result.bodies.now ≡ bodies.now }
        ensures outer { result.outer.items ≡ [] }
        ensures fits { FitsMet bodies.now (Body result.spot) }
        ensures lines { lines_left result ≡ told_lines (outline_at bodies.now (main_of bodies.now)) 0 [] }
        ensures labels { met_labels bodies.now (Body result.spot) [] ++ labels_left result ≡ all_states (outline_at bodies.now (main_of bodies.now)) 0 0 [] }
    {
        let main = bodies.len() - 1;
        Walk {
            bodies,
            outer: ArrayVec::new(),
            spot: Spot {
                number: main,
                place: 0,
                at: 0,
                end: bodies[main].size,
                after: 0,
            },
        }
    }

    // Makes a step; returns `None` at the end of main.
    pub(crate) fn step(&mut self) -> Option<Met>
        requires good { IsWalk self.old }
        ensures good { IsWalk self.new }
        ensures bodies { self.new.bodies ≡ self.old.bodies }
        ensures step { IsStepOrEnd self.old self.new result }
    {
        let bodies = self.bodies;
        let spot = self.spot;
        let body = &bodies[spot.number];
        if spot.place >= body.counted.len() {
            return self.leave();
        }
        let line = &body.lines[body.counted[spot.place]];
        let behind = Spot {
            number: spot.number,
            place: spot.place + 1,
            at: spot.at + size_of(bodies, line),
            end: spot.end,
            after: spot.after,
        };
        Some(self.pass(line, behind))
    }

    // Ends the body; the body around it continues.
    fn leave(&mut self) -> Option<Met>
        requires good { IsWalk self.old }
        requires end { rest_at self.old.bodies.now self.old.spot ≡ Closed }
        ensures good { IsWalk self.new }
        ensures bodies { self.new.bodies ≡ self.old.bodies }
        ensures step { IsStepOrEnd self.old self.new result }
    {
        let Some(level) = self.outer.pop() else {
            return None;
        };
        self.spot = level.spot;
        Some(Met::Nothing)
    }

    // Passes a line, or begins its block; `behind` is the spot after the line.
    fn pass(&mut self, line: &'s NamedLine, behind: Spot) -> Met
        requires good { IsWalk self.old }
        requires next { IsNext self.old.bodies.now self.old.spot line.now behind }
        ensures good { IsWalk self.new }
        ensures bodies { self.new.bodies ≡ self.old.bodies }
        ensures step { IsStep self.old self.new result }
    {
        let before = self.spot;
        self.spot = behind;
        match line {
            NamedLine::Label(_) => Met::Nothing,
            NamedLine::Instruction(line) => Met::Instruction {
                at: before.at,
                line: *line,
            },
            NamedLine::Use { line, name, block } => {
                let begun = Spot {
                    number: *block,
                    place: 0,
                    at: before.at,
                    end: behind.at,
                    after: state_from(behind.at, behind.end, behind.after),
                };
                let step = Step { name, line: *line };
                self.outer.push(Level { spot: behind, step });
                self.spot = begun;
                Met::Body(begun)
            }
        }
    }
}

// The state to which a label leads. `at` is the number of the instruction after it, and `end` that of the body's end.
// If the two are equal, no instruction of the body follows the label, and it leads to `after`.
pub(crate) fn state_from(at: u16, end: u16, after: u16) -> u16
    ensures { result ≡ (if at == end then after else at) }
{
    if at == end { after } else { at }
}
