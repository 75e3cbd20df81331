// The command `run` with `--far`: workers that stay ready for the whole game.
ghost use Rattle.std.specs.Prelude.{◌≡◌};
ghost use Rattle.ant_commands.specs.Jobs.{run_job};
ghost use Rattle.ant_commands.specs.Setups.{SetupWithin, plain_setup};
ghost use Rattle.ant_commands.specs.Inner.Plans.{CanPlay};
ghost use Rattle.ant_commands.specs.Inner.Reading.{CarriesOut, ending_of};

use crate::commands::game::FileNames;
use crate::commands::run::{PlannedGame, planned_game, run_by};
use crate::commands::setups::RunWords;
use crate::stop::CommandStop;
use ant_base::{Gate, Shelf, Sink};
use far_crew::{Errand, with_far};
use round_book::Crew;
use std::alloc::Global;
use std::sync::Wait;
use std::thread::Threads;

// A game to be played and written, with what it reads from and writes to, and its result.
#[derive(Drop)]
struct RunErrand<'s, 'o, 'w, S: Shelf, K: Sink> {
    alloc: Global,
    names: FileNames<'w>,
    game: PlannedGame,
    shelf: &'s mut S,
    out: &'o mut K,
    went: Result<(), CommandStop<'w>>,
    ghost planned: { CanPlay game.plan },
}

impl<'s, 'o, 'w, S: Shelf, K: Sink> Errand for RunErrand<'s, 'o, 'w, S, K> {
    ghost use Rattle.std.specs.Prelude.{◌≡◌};
    ghost use Rattle.ant_commands.specs.Inner.Plans.{Plans};
    ghost use Rattle.ant_commands.specs.Inner.Reading.{CarriesOut, ending_of};
    ghost use Rattle.ant_commands.specs.Setups.{RunSetup};
    ghost use Rattle.ant_commands.specs.Jobs.{run_job};

    ghost finished = { λ a b. (b.shelf.ghost_name ≡ a.shelf.ghost_name) × (b.out.ghost_name ≡ a.out.ghost_name)
        × ((setup : RunSetup) → Plans setup a.game
        → CarriesOut (run_job a.names.world.now a.names.red.now a.names.black.now setup) (S.state a.shelf.now) (S.state b.shelf.now)
        (K.state a.out.now) (K.state b.out.now) (ending_of b.went)) };

    fn run<C: Crew>(self, crew: &mut C) -> Self {
        let RunErrand {
            alloc,
            names,
            game,
            shelf,
            out,
            went: _,
        } = self;
        let went = run_by(alloc, crew, names, &game, shelf, out);
        RunErrand {
            alloc,
            names,
            game,
            shelf,
            out,
            went,
        }
    }
}

// Does nothing. The call uses a reference that an errand returned, and so ties it to the one that was passed.
fn take_back<T>(x: &mut T)
    ensures { x.new ≡ x.old }
{}

/// Plays the game that the words request, with the number of workers that they name. The workers stay ready from before
/// the first file is fetched until the last round. The call may wait for a worker.
pub fn run_far<'w, R: Threads + Wait + Sync, S: Shelf, K: Sink, G: Gate>(
    rt: &R,
    alloc: Global,
    words: RunWords<'w>,
    shelf: &mut S,
    out: &mut K,
    gate: &G,
) -> Result<(), CommandStop<'w>>
    requires within { SetupWithin (plain_setup words) }
    ensures { CarriesOut (run_job words.entry.game.names.world.now words.entry.game.names.red.now words.entry.game.names.black.now (plain_setup words.entry))
        (S.state shelf.old) (S.state shelf.new) (K.state out.old) (K.state out.new) (ending_of result) }
{
    let names = words.game.names;
    let workers = words.workers;
    let game = planned_game(alloc, words)?;
    let errand = RunErrand {
        alloc,
        names,
        game,
        shelf,
        out,
        went: Ok(()),
    };
    match with_far(rt, alloc, workers, gate, errand) {
        Ok(done) => {
            let RunErrand {
                alloc: _,
                names: _names,
                game: _game,
                shelf,
                out,
                went,
            } = done;
            take_back(shelf);
            take_back(out);
            went
        }
        Err(refused) => {
            let RunErrand {
                alloc: _,
                names: _names,
                game: _game,
                shelf,
                out,
                went: _went,
            } = refused.value;
            take_back(shelf);
            take_back(out);
            Err(CommandStop::Memory)
        }
    }
}
