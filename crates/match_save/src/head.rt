// The first lines: the numbers of a save.
ghost use Rattle.std.specs.Prelude.{◌≡◌, ◌-◌, ◌<◌, ◌≤◌, IfOk, IfSome};
ghost use Rattle.match_save.specs.Inner.Answered.{line_left};
ghost use Rattle.match_save.specs.Inner.Readers.{one, whole};
ghost use Rattle.match_save.specs.Inner.Reading.{counts_tokens, first_line, line_of, named_number_of, pieces, read_head, sheet_tokens, size_tokens, standing_parts};

use crate::fault::RefusedLine;
use crate::fields::{Fields, is_text};
use crate::save_lines::SaveLines;

const FIRST_LINE: &str = "ants save 1";

const MOST_SEED: u64 = 4_294_967_295;

const MOST_WINDOW: u64 = 16_384;

const MOST_ROUNDS: u64 = match_run::MOST_ROUNDS as u64;

// The largest number of eleven digits.
const MOST_COUNTED: u64 = 99_999_999_999;

// The numbers of the first eight lines.
#[derive(Clone, Copy)]
pub struct Head {
    // The seed of the random numbers.
    pub seed: u32,
    // How many foes around an ant kill it.
    pub surround: u8,
    // How much food a killed ant leaves.
    pub corpse: u8,
    // For how many turns an ant rests after a move.
    pub rest: u8,
    // How many turns a window has.
    pub window: u32,
    // How many rounds are done.
    pub round: u32,
    // How many random numbers were drawn.
    pub place: u64,
    // How many turns were taken from looks.
    pub taken: u64,
    // How many turns were executed again.
    pub redone: u64,
    // How many columns the world has.
    pub width: u16,
    // How many rows the world has.
    pub height: u16,
}

// Passes the line with which every save begins.
#[tactic(auto, using(crate::proofs::Words::first_passed, crate::proofs::Words::first_refused))]
fn first_line(lines: &mut SaveLines) -> Result<(), RefusedLine>
    ensures { first_line lines.old ≡ line_left lines.new result }
{
    let number = lines.number();
    let line = lines.take()?;
    if is_text(line, FIRST_LINE) {
        Ok(())
    } else {
        Err(RefusedLine(number))
    }
}

// The number between these two on a line, after a word.
fn named_number_of(line: &[u8], name: &str, least: u64, most: u64) -> Option<u64>
    ensures value { result ≡ named_number_of name.now least most line.now }
    ensures bounds { IfSome result (λ n. (least ≤ n) × (n ≤ most)) }
{
    let mut fields = Fields::new(line);
    let Ok(number) = fields.named_number(name, least, most) else {
        return None;
    };
    if fields.is_done() { Some(number) } else { None }
}

// The number between these two on the next line, after a word.
pub fn named_number(
    lines: &mut SaveLines,
    name: &str,
    least: u64,
    most: u64,
) -> Result<u64, RefusedLine>
    ensures value { one (named_number_of name.now least most) lines.old ≡ line_left lines.new result }
    ensures bounds { IfOk result (λ n. (least ≤ n) × (n ≤ most)) }
{
    let number = lines.number();
    let line = lines.take()?;
    named_number_of(line, name, least, most).ok_or(RefusedLine(number))
}

// The numbers of the sheet on a line.
fn sheet_of(line: &[u8]) -> Option<(u64, (u64, u64))>
    ensures value { result ≡ whole sheet_tokens (pieces line.now) }
    ensures bounds { IfSome result (λ z. (z.0 ≤ 6) × ((z.1.0 ≤ 9) × (z.1.1 ≤ 255))) }
{
    let mut fields = Fields::new(line);
    let Ok(()) = fields.word("sheet") else {
        return None;
    };
    let Ok(surround) = fields.number(4, 6) else {
        return None;
    };
    let Ok(corpse) = fields.number(0, 9) else {
        return None;
    };
    let Ok(rest) = fields.number(0, 255) else {
        return None;
    };
    if fields.is_done() {
        Some((surround, (corpse, rest)))
    } else {
        None
    }
}

// The counts on a line.
fn counts_of(line: &[u8]) -> Option<(u64, u64)>
    ensures { result ≡ whole counts_tokens (pieces line.now) }
{
    let mut fields = Fields::new(line);
    let Ok(taken) = fields.named_number("taken", 0, MOST_COUNTED) else {
        return None;
    };
    let Ok(redone) = fields.named_number("redone", 0, MOST_COUNTED) else {
        return None;
    };
    if fields.is_done() {
        Some((taken, redone))
    } else {
        None
    }
}

// The sizes of the world on a line.
fn size_of(line: &[u8]) -> Option<(u64, u64)>
    ensures value { result ≡ whole size_tokens (pieces line.now) }
    ensures bounds { IfSome result (λ z. ((3 ≤ z.0) × (z.0 ≤ 512)) × ((3 ≤ z.1) × (z.1 ≤ 512))) }
{
    let mut fields = Fields::new(line);
    let Ok(()) = fields.word("size") else {
        return None;
    };
    let Ok(width) = fields.number(3, 512) else {
        return None;
    };
    let Ok(height) = fields.number(3, 512) else {
        return None;
    };
    if fields.is_done() {
        Some((width, height))
    } else {
        None
    }
}

// The numbers of the sheet on the next line.
fn sheet_line(lines: &mut SaveLines) -> Result<(u64, (u64, u64)), RefusedLine>
    ensures value { line_of sheet_tokens lines.old ≡ line_left lines.new result }
    ensures bounds { IfOk result (λ z. (z.0 ≤ 6) × ((z.1.0 ≤ 9) × (z.1.1 ≤ 255))) }
{
    let number = lines.number();
    let line = lines.take()?;
    sheet_of(line).ok_or(RefusedLine(number))
}

// The counts on the next line.
fn counts_line(lines: &mut SaveLines) -> Result<(u64, u64), RefusedLine>
    ensures { line_of counts_tokens lines.old ≡ line_left lines.new result }
{
    let number = lines.number();
    let line = lines.take()?;
    counts_of(line).ok_or(RefusedLine(number))
}

// The sizes of the world on the next line.
fn size_line(lines: &mut SaveLines) -> Result<(u64, u64), RefusedLine>
    ensures value { line_of size_tokens lines.old ≡ line_left lines.new result }
    ensures bounds { IfOk result (λ z. ((3 ≤ z.0) × (z.0 ≤ 512)) × ((3 ≤ z.1) × (z.1 ≤ 512))) }
{
    let number = lines.number();
    let line = lines.take()?;
    size_of(line).ok_or(RefusedLine(number))
}

// The window, the round, the place, the counts and the sizes on the next five lines.
fn standing_lines(
    lines: &mut SaveLines,
) -> Result<(u64, (u64, (u64, ((u64, u64), (u64, u64))))), RefusedLine>
    ensures value { standing_parts lines.old ≡ line_left lines.new result }
    ensures bounds { IfOk result (λ z. (z.0 ≤ 16384) × ((z.1.0 ≤ 1000000) × (((3 ≤ z.1.1.1.1.0) × (z.1.1.1.1.0 ≤ 512)) × ((3 ≤ z.1.1.1.1.1) × (z.1.1.1.1.1 ≤ 512))))) }
{
    let window = named_number(lines, "window", 1, MOST_WINDOW)?;
    let round = named_number(lines, "round", 0, MOST_ROUNDS)?;
    let place = named_number(lines, "place", 0, MOST_COUNTED)?;
    let counts = counts_line(lines)?;
    let sizes = size_line(lines)?;
    Ok((window, (round, (place, (counts, sizes)))))
}

// The numbers of the first eight lines.
pub fn read_head(lines: &mut SaveLines) -> Result<Head, RefusedLine>
    ensures head { read_head lines.old ≡ line_left lines.new result }
    ensures sizes { IfOk result (λ head. (1 ≤ head.width) × (1 ≤ head.height)) }
{
    first_line(lines)?;
    let seed = named_number(lines, "seed", 0, MOST_SEED)?;
    let (surround, (corpse, rest)) = sheet_line(lines)?;
    let (window, (round, (place, ((taken, redone), (width, height))))) = standing_lines(lines)?;
    Ok(Head {
        seed: seed as u32,
        surround: surround as u8,
        corpse: corpse as u8,
        rest: rest as u8,
        window: window as u32,
        round: round as u32,
        place,
        taken,
        redone,
        width: width as u16,
        height: height as u16,
    })
}
