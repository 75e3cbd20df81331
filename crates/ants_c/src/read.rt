// The texts of a call, read.
ghost use Rattle.std.specs.Prelude.{◌≡◌, IfOk, IfErr};
ghost use Rattle.world_read.specs.Opened.{IsOpeningWorld};
ghost use Rattle.ants_c.specs.Played.{IsSetting};
ghost use Rattle.ants_c.specs.Refused.{IsRefusedBrain, IsRefusedGame, IsRefusedWorld};
ghost use Rattle.ants_c.specs.Told.{StopsAt, numbered};
ghost use Rattle.text_fault.specs.Opens.{GivesBrain, GivesWorld};

use crate::refusal::{CallFault, Refusal, Stop};
use ant_commands::FileFault;
use brain_read::Brain;
use cell_world::World;
use std::alloc::Global;
use text_fault::TextStop;

/// The content of three texts.
#[derive(Drop)]
pub struct Setting {
    pub world: World,
    pub red: Brain,
    pub black: Brain,
}

// The content of the opened text with this number, or why a call stops at it.
fn numbered<T>(number: u32, opened: Result<T, TextStop>) -> Result<T, Stop>
    ensures { result ≡ numbered number opened }
{
    match opened {
        Ok(value) => Ok(value),
        Err(TextStop::OutOfMemory) => Err(Stop::OutOfMemory),
        Err(TextStop::Refused(fault)) => Err(Stop::Refused(Refusal {
            text: number,
            fault: CallFault::File(FileFault::Text(fault)),
        })),
    }
}

// The world of the first text.
#[tactic(auto, using(crate::proofs::Stops::numbered_ok, crate::proofs::Stops::gives, crate::proofs::Stops::numbered_stops))]
fn open_world(alloc: Global, text: &[u8]) -> Result<World, Stop>
    ensures opening { IfOk result IsOpeningWorld }
    ensures world { IfOk result (GivesWorld text.now) }
    ensures stop { IfErr result (StopsAt (IsRefusedWorld text.now)) }
{
    numbered(1, text_fault::open_world(alloc, text))
}

// The brain of the text with this number.
#[tactic(auto, using(crate::proofs::Stops::numbered_ok, crate::proofs::Stops::gives, crate::proofs::Stops::numbered_stops))]
fn open_brain(alloc: Global, number: u32, text: &[u8]) -> Result<Brain, Stop>
    ensures brain { IfOk result (GivesBrain text.now) }
    ensures stop { IfErr result (StopsAt (IsRefusedBrain number text.now)) }
{
    numbered(number, text_fault::open_brain(alloc, text))
}

/// The world and the brains of three texts, read in this order.
#[tactic(auto, using(crate::proofs::Stops::stops_at_first, crate::proofs::Stops::stops_at_second, crate::proofs::Stops::stops_at_third))]
pub fn open_texts(alloc: Global, world: &[u8], red: &[u8], black: &[u8]) -> Result<Setting, Stop>
    ensures setting { IfOk result (λ setting. IsSetting world.now red.now black.now setting) }
    ensures stop { IfErr result (λ stop. StopsAt (IsRefusedGame world.now red.now black.now) stop) }
{
    let world = open_world(alloc, world)?;
    let red = open_brain(alloc, 2, red)?;
    let black = open_brain(alloc, 3, black)?;
    Ok(Setting { world, red, black })
}
