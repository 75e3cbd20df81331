// The living ants.
ghost use Rattle.std.specs.Prelude.{◌≡◌, ◌<◌, ◌≤◌, IfOk, IfSome};
ghost use Rattle.hex_geometry.specs.Direction.{dir_of};
ghost use Rattle.match_save.specs.Inner.Answered.{ReadsAs, leaving, line_left};
ghost use Rattle.match_save.specs.Inner.Readers.{mapped, one};
ghost use Rattle.match_save.specs.Inner.Reading.{ant_of, ant_or_end, ant_tokens, body_tokens, colour_of, mind_tokens, next_ant, placed_ant, read_ants};

use crate::fault::{RefusedLine, SaveFault};
use crate::fields::{Fields, is_text};
use crate::save_lines::SaveLines;
use brain_read::MOST_STATES;
use cell_world::{Ant, Colour, MOST_ANTS, PlacedAnt};
use hex_geometry::{Dir, Pos};
use std::alloc::Global;

const LAST_LINE: &str = "end";

const LAST_ID: u64 = MOST_ANTS as u64 - 1;

const LAST_STATE: u64 = MOST_STATES as u64 - 1;

// The colour of a word.
fn colour_of(token: &[u8]) -> Option<Colour>
    ensures { result ≡ colour_of token.now }
{
    if is_text(token, "red") {
        return Some(Colour::Red);
    }
    if is_text(token, "black") {
        return Some(Colour::Black);
    }
    None
}

// The colour that the next token names, or the token's number if it names none.
fn next_colour(fields: &mut Fields) -> Result<Colour, usize>
    ensures { one colour_of fields.old ≡ leaving fields.new result }
{
    let at = fields.number_of_next();
    let token = fields.take()?;
    colour_of(token).ok_or(at)
}

// The direction with this number.
#[tactic(auto, using(crate::proofs::AntReads::dir_of_number))]
fn facing_of(number: u64) -> Dir
    requires { number ≤ 5 }
    ensures { result ≡ dir_of number }
{
    Dir::new(number as u8)
}

// How an ant faces, what it carries, its state and its rest, by their numbers.
fn next_mind(fields: &mut Fields) -> Result<(u64, (u64, (u64, u64))), usize>
    ensures value { mind_tokens fields.old ≡ leaving fields.new result }
    ensures bounds { IfOk result (λ mind. (mind.0 ≤ 5) × ((mind.1.1.0 ≤ 9999) × (mind.1.1.1 ≤ 255))) }
{
    let facing = fields.number(0, 5)?;
    let laden = fields.number(0, 1)?;
    let state = fields.number(0, LAST_STATE)?;
    let resting = fields.number(0, 255)?;
    Ok((facing, (laden, (state, resting))))
}

// An ant's position, and its mind, by their numbers.
fn next_body(
    fields: &mut Fields,
    width: u16,
    height: u16,
) -> Result<(u64, (u64, (u64, (u64, (u64, u64))))), usize>
    requires wide { 1 ≤ width }
    requires tall { 1 ≤ height }
    ensures value { body_tokens width height fields.old ≡ leaving fields.new result }
    ensures bounds { IfOk result (λ body. (body.0 < width) × ((body.1.0 < height) × ((body.1.1.0 ≤ 5) × ((body.1.1.1.1.0 ≤ 9999) × (body.1.1.1.1.1 ≤ 255))))) }
{
    let x = fields.number(0, u64::from(width) - 1)?;
    let y = fields.number(0, u64::from(height) - 1)?;
    let mind = next_mind(fields)?;
    Ok((x, (y, mind)))
}

// The ant in the next tokens.
fn next_placed_ant(fields: &mut Fields, width: u16, height: u16) -> Result<PlacedAnt, usize>
    requires wide { 1 ≤ width }
    requires tall { 1 ≤ height }
    ensures value { mapped placed_ant (ant_tokens width height) fields.old ≡ leaving fields.new result }
    ensures known { IfOk result (λ it. it.ant.id < 16384) }
{
    let id = fields.named_number("ant", 0, LAST_ID)?;
    let colour = next_colour(fields)?;
    let (x, (y, (facing, (laden, (state, resting))))) = next_body(fields, width, height)?;
    Ok(PlacedAnt {
        place: Pos {
            x: x as u16,
            y: y as u16,
        },
        ant: Ant {
            id: id as u32,
            colour,
            state: state as u16,
            resting: resting as u8,
            facing: facing_of(facing),
            laden: laden == 1,
        },
    })
}

// The ant of a line.
fn ant_of(line: &[u8], width: u16, height: u16) -> Option<PlacedAnt>
    requires wide { 1 ≤ width }
    requires tall { 1 ≤ height }
    ensures value { result ≡ ant_of width height line.now }
    ensures known { IfSome result (λ it. it.ant.id < 16384) }
{
    let mut fields = Fields::new(line);
    let Ok(it) = next_placed_ant(&mut fields, width, height) else {
        return None;
    };
    if fields.is_done() { Some(it) } else { None }
}

// The ant of a line, whose id is at least this one; `None` if it is the last line.
fn ant_or_end(line: &[u8], width: u16, height: u16, least: u32) -> Option<Option<PlacedAnt>>
    requires wide { 1 ≤ width }
    requires tall { 1 ≤ height }
    ensures value { result ≡ ant_or_end width height least line.now }
    ensures known { IfSome result (λ next. IfSome next (λ it. it.ant.id < 16384)) }
{
    if is_text(line, LAST_LINE) {
        return Some(None);
    }
    let it = ant_of(line, width, height)?;
    if least <= it.ant.id {
        Some(Some(it))
    } else {
        None
    }
}

// The next ant, whose id is at least this one; `None` at the last line.
fn next_ant(
    lines: &mut SaveLines,
    width: u16,
    height: u16,
    least: u32,
) -> Result<Option<PlacedAnt>, RefusedLine>
    requires wide { 1 ≤ width }
    requires tall { 1 ≤ height }
    ensures value { next_ant width height least lines.old ≡ line_left lines.new result }
    ensures known { IfOk result (λ next. IfSome next (λ it. it.ant.id < 16384)) }
{
    let number = lines.number();
    let line = lines.take()?;
    match ant_or_end(line, width, height, least) {
        Some(next) => Ok(next),
        None => Err(RefusedLine(number)),
    }
}

// The ants on the lines up to the last, whose ids rise.
pub fn read_ants(
    alloc: Global,
    lines: &mut SaveLines,
    width: u16,
    height: u16,
) -> Result<Vec<PlacedAnt>, SaveFault>
    requires wide { 1 ≤ width }
    requires tall { 1 ≤ height }
    ensures { ReadsAs (read_ants width height lines.old) (λ ants. ants.items) lines.new result }
{
    let mut ants = Vec::new(alloc);
    let mut least = 0;
    while let Some(it) = next_ant(lines, width, height, least)? {
        ants.push(it)?;
        least = it.ant.id + 1;
    }
    Ok(ants)
}
