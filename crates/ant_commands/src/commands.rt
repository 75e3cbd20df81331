// The commands: each reads its files, carries out its work and writes its text.
ghost use Rattle.std.specs.Prelude.{◌≡◌};
ghost use Rattle.command_words.specs.Command.{AskedWithin, plain};
ghost use Rattle.command_words.specs.Limits.{IsWithin};
ghost use Rattle.command_words.specs.declared.limits.NumberKind.TheVariants.{WorkerCount};
ghost use Rattle.ant_commands.specs.Inner.Cups.{PlaysCup};
ghost use Rattle.ant_commands.specs.Inner.Reading.{CarriesOut, ending_of};
ghost use Rattle.ant_commands.specs.Job.{workers_named};
ghost use Rattle.ant_commands.specs.Jobs.{job_of};

mod acts;
mod advance;
mod asm;
mod brain;
pub mod cup;
mod events;
pub mod far;
pub mod game;
mod generate;
mod help;
mod minimise;
mod played;
mod profile;
mod resume;
mod run;
mod same;
mod sample;
mod save;
pub mod setups;
mod show;
mod trace;
mod view;
mod workload;

use crate::commands::acts::acts;
use crate::commands::advance::advance;
use crate::commands::asm::asm;
use crate::commands::brain::brain;
use crate::commands::cup::{Games, cup};
use crate::commands::events::events;
use crate::commands::game::GameWords;
use crate::commands::generate::gen_world;
use crate::commands::help::{help, version};
use crate::commands::minimise::minimise;
use crate::commands::profile::profile;
use crate::commands::resume::resume;
use crate::commands::run::run;
use crate::commands::same::same;
use crate::commands::save::save;
use crate::commands::setups::{CupEntry, GenShape, ResumeOptions, RunWords, ant_of};
use crate::commands::show::show;
use crate::commands::trace::trace;
use crate::commands::view::view;
use crate::commands::workload::workload;
use crate::stop::CommandStop;
use ant_base::{Shelf, Sink};
use command_words::{Asked, Choice, CommandKind};
use match_run::OutOfMemory;
use round_book::Crew;
use std::alloc::Global;
use tournament::{Pairing, Played};

/// Passes a command line to its command's own function. A command that plays in windows also gets a crew, and a cup
/// gets a function that plays games.
pub fn dispatch<
    'w,
    C: Crew,
    P: Fn(&Games<'_>, &[Pairing], u32) -> Result<Vec<Played>, OutOfMemory>,
    S: Shelf,
    K: Sink,
>(
    alloc: Global,
    crew: &mut C,
    play: &P,
    asked: Asked<'w>,
    shelf: &mut S,
    out: &mut K,
) -> Result<(), CommandStop<'w>>
    requires ready { C.ready crew.old }
    requires plays { PlaysCup P.Fn play.now }
    requires within { AskedWithin (plain asked) }
    ensures { CarriesOut (job_of (plain asked.entry)) (S.state shelf.old) (S.state shelf.new) (K.state out.old) (K.state out.new) (ending_of result) }
{
    match asked.kind {
        CommandKind::Show => show(alloc, asked.file(0), asked.number(1), shelf, out),
        CommandKind::Brain => brain(alloc, asked.file(0), shelf, out),
        CommandKind::Minimise => minimise(
            alloc,
            asked.file(0),
            asked.has(Choice::States),
            shelf,
            out,
        ),
        CommandKind::Run => run(alloc, crew, RunWords::of(asked), shelf, out),
        CommandKind::Gen => gen_world(alloc, asked.number(0), GenShape::of(asked), shelf, out),
        CommandKind::Cup => cup(alloc, CupEntry::of(asked), play, shelf, out),
        CommandKind::View => view(
            alloc,
            GameWords::of_view(asked),
            asked.option(Choice::From),
            asked.file(3),
            shelf,
            out,
        ),
        CommandKind::Workload => workload(
            alloc,
            crew,
            asked.number(0),
            asked.number(1),
            shelf,
            out,
        ),
        CommandKind::Help | CommandKind::HelpWord => help(shelf, out),
        CommandKind::Version => version(shelf, out),
        CommandKind::Asm => asm(
            alloc,
            asked.file(0),
            asked.has(Choice::Labels),
            asked.has(Choice::Lines),
            shelf,
            out,
        ),
        CommandKind::Save => save(alloc, crew, RunWords::of_save(asked), shelf, out),
        CommandKind::Resume => resume(
            alloc,
            crew,
            asked.file(0),
            ResumeOptions::of(asked),
            shelf,
            out,
        ),
        CommandKind::Trace => trace(
            alloc,
            GameWords::of(asked),
            asked.number(3),
            asked.option(Choice::From),
            shelf,
            out,
        ),
        CommandKind::Same => same(
            alloc,
            asked.file(0),
            asked.file(1),
            asked.has(Choice::Way),
            shelf,
            out,
        ),
        CommandKind::Events => events(
            alloc,
            GameWords::of(asked),
            asked.option(Choice::From),
            asked.has(Choice::Food),
            shelf,
            out,
        ),
        CommandKind::Acts => acts(
            alloc,
            GameWords::of(asked),
            asked.option(Choice::From),
            ant_of(asked),
            shelf,
            out,
        ),
        CommandKind::Profile => profile(
            alloc,
            GameWords::of(asked),
            asked.option(Choice::From),
            shelf,
            out,
        ),
        CommandKind::Advance => advance(
            alloc,
            crew,
            asked.file(0),
            asked.option(Choice::Rounds),
            shelf,
            out,
        ),
    }
}

/// How many workers a command line names for its windows; one if it plays no windows.
pub fn workers_in(asked: Asked<'_>) -> u32
    requires { AskedWithin (plain asked) }
    ensures named { result ≡ workers_named (job_of (plain asked.entry)) }
    ensures within { IsWithin WorkerCount result }
{
    match asked.kind {
        CommandKind::Run | CommandKind::Save | CommandKind::Resume | CommandKind::Advance => {
            asked.option(Choice::Workers)
        }
        CommandKind::Workload => asked.number(2),
        _ => 1,
    }
}
