// The numbers of faults.
ghost use Rattle.std.specs.Prelude.{◌≡◌};
ghost use Rattle.ants_c.specs.Numbers.{at_line, bare, brain_numbers, break_numbers, labelled_numbers, numbers_of, save_numbers, text_numbers, world_numbers};

use crate::refusal::CallFault;
use ant_asm::AsmFault;
use ant_commands::FileFault;
use brain_read::BrainFault;
use break_view::BreakFault;
use match_save::SaveFault;
use text_fault::TextFault;
use world_read::WorldFault;

/// The numbers of a fault: its kind, a line or row, a column, and one more number.
#[derive(Clone, Copy)]
pub struct Numbers {
    pub kind: u32,
    pub line: u32,
    pub column: u32,
    pub number: u64,
}

// A kind without further numbers.
fn bare(kind: u32) -> Numbers
    ensures { result ≡ bare kind }
{
    at_line(kind, 0)
}

// A kind, in a line or a row.
fn at_line(kind: u32, line: u32) -> Numbers
    ensures { result ≡ at_line kind line }
{
    Numbers {
        kind,
        line,
        column: 0,
        number: 0,
    }
}

// The numbers of a world's fault.
fn world_numbers(fault: WorldFault) -> Numbers
    ensures { result ≡ world_numbers fault }
{
    match fault {
        WorldFault::BadWidth => bare(10),
        WorldFault::BadHeight => bare(11),
        WorldFault::MissingRow { row } => at_line(12, u32::from(row)),
        WorldFault::BadCell { row, column } => Numbers {
            column: u32::from(column),
            ..at_line(13, u32::from(row))
        },
        WorldFault::ShortRow { row } => at_line(14, u32::from(row)),
        WorldFault::LongRow { row } => at_line(15, u32::from(row)),
        WorldFault::ExtraRow => bare(16),
        WorldFault::OpenRim { x, y } => Numbers {
            column: u32::from(x),
            ..at_line(17, u32::from(y))
        },
        WorldFault::TooManyAnts { count } => Numbers {
            number: u64::from(count),
            ..bare(18)
        },
        WorldFault::OutOfMemory => bare(0),
    }
}

// The numbers of a brain's fault.
fn brain_numbers(fault: BrainFault) -> Numbers
    ensures { result ≡ brain_numbers fault }
{
    match fault {
        BrainFault::BadByte { line } => at_line(20, line),
        BrainFault::UnknownWord { line } => at_line(21, line),
        BrainFault::MissingToken { line } => at_line(22, line),
        BrainFault::BadNumber { line } => at_line(23, line),
        BrainFault::ExtraToken { line } => at_line(24, line),
        BrainFault::TooMany { line } => at_line(25, line),
        BrainFault::Empty => bare(26),
        BrainFault::NoSuchState { line, state } => Numbers {
            number: state,
            ..at_line(27, line)
        },
        BrainFault::OutOfMemory => bare(0),
    }
}

// The numbers of a labelled program's fault.
fn labelled_numbers(fault: AsmFault) -> Numbers
    ensures { result ≡ labelled_numbers fault }
{
    match fault {
        AsmFault::BadByte { line } => at_line(30, line),
        AsmFault::UnknownWord { line } => at_line(31, line),
        AsmFault::MissingToken { line } => at_line(32, line),
        AsmFault::BadNumber { line } => at_line(33, line),
        AsmFault::ExtraToken { line } => at_line(34, line),
        AsmFault::BadName { line } => at_line(35, line),
        AsmFault::Misplaced { line } => at_line(36, line),
        AsmFault::Twice { line } => at_line(37, line),
        AsmFault::NoBlock { line } => at_line(38, line),
        AsmFault::WrongCount { line } => at_line(39, line),
        AsmFault::TooMany { line } => at_line(40, line),
        AsmFault::EmptyBlock { line } => at_line(41, line),
        AsmFault::Empty => bare(42),
        AsmFault::NoLabel { line } => at_line(43, line),
        AsmFault::OutOfMemory => bare(0),
    }
}

// The numbers of a save's fault.
fn save_numbers(fault: SaveFault) -> Numbers
    ensures { result ≡ save_numbers fault }
{
    match fault {
        SaveFault::BadLine { line } => at_line(50, line),
        SaveFault::BadState => bare(51),
        SaveFault::OutOfMemory => bare(0),
    }
}

// The numbers of the fault of a list of breaks.
fn break_numbers(fault: BreakFault) -> Numbers
    ensures { result ≡ break_numbers fault }
{
    match fault {
        BreakFault::UnknownWord { line } => at_line(70, line),
        BreakFault::MissingToken { line } => at_line(71, line),
        BreakFault::BadNumber { line } => at_line(72, line),
        BreakFault::ExtraToken { line } => at_line(73, line),
        BreakFault::TooMany { line } => at_line(74, line),
        BreakFault::OutOfMemory => bare(0),
    }
}

// The numbers of the fault of any other text.
fn text_numbers(fault: TextFault) -> Numbers
    ensures { result ≡ text_numbers fault }
{
    match fault {
        TextFault::TooLong => bare(1),
        TextFault::World(why) => world_numbers(why),
        TextFault::Brain(why) => brain_numbers(why),
        TextFault::Labelled(why) => labelled_numbers(why),
        TextFault::Save(why) => save_numbers(why),
        TextFault::AlreadyAt(round) => Numbers {
            number: u64::from(round),
            ..bare(52)
        },
    }
}

/// The numbers of what is wrong with a text, or of the element of a world that has no room.
pub fn numbers_of(fault: CallFault) -> Numbers
    ensures { result ≡ numbers_of fault }
{
    match fault {
        CallFault::File(FileFault::Text(why)) => text_numbers(why),
        CallFault::File(FileFault::Breaks(why)) => break_numbers(why),
        CallFault::NoRoom(element) => Numbers {
            number: u64::from(element),
            ..bare(60)
        },
    }
}
