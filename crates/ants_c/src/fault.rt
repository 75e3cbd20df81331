// Why a call was refused, as C sees it.

/// Why a text, a word or a call was refused, in numbers (this project's own). The kinds are
/// - 1: a text has more than 4,194,304 bytes;
/// - of a world, 10: bad width; 11: bad height; 12: a row is missing; 13: a bad cell; 14: a row is
///   short; 15: a row is long; 16: a row more; 17: the rim is open; 18: too many ants;
/// - of a brain, 20: a bad byte; 21: an unknown word; 22: a token is missing; 23: a bad number; 24:
///   a token more; 25: too many instructions; 26: no instruction; 27: no such state;
/// - of a labelled program, 30: a bad byte; 31: an unknown word; 32: a token is missing; 33: a bad
///   number; 34: a token more; 35: a bad name; 36: misplaced; 37: a name is taken; 38: no such
///   block; 39: a different number of labels; 40: too many; 41: an empty block; 42: no instruction;
///   43: no such label;
/// - of a save, 50: a line isn't in its form; 51: no state of a game; 52: more rounds are done than
///   were requested;
/// - of no text, 60: an element of a world to be generated has no room;
/// - of a list of breaks, 70: an unknown word; 71: a token is missing; 72: a bad number; 73: a
///   token more; 74: too many breaks.
#[repr(C)]
#[derive(Clone, Copy)]
pub struct AntsFault {
    /// Which text, counted from 1 in the order in which the texts are passed; for `ants_call` which
    /// file, in the order of the names. 0 if the fault is of no text.
    pub text: u32,
    /// The kind. 0 if a word of `ants_call` is at fault.
    pub kind: u32,
    /// The line, counted from 1, or the row of a world, counted from 0. 0 if the kind has neither.
    pub line: u32,
    /// The column of a world, counted from 0. 0 if the kind has none.
    pub column: u32,
    /// The number of ants (kind 18), the missing state (27), the round of the save (52), the element,
    /// counted from 0 (60), or the word, counted from 1 (kind 0). Otherwise 0.
    pub number: u64,
    /// The length of the fault's words, in bytes. 0 if a word of `ants_call` is at fault.
    pub words: u64,
}
