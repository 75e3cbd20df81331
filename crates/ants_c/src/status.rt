// The statuses of calls. They are those of the program's statuses that a library has.

/// Done.
pub const DONE: u32 = 0;

/// The words of a command, or the names and sizes of its files, can't be read.
pub const UNREADABLE: u32 = 1;

/// A number is outside its limits, or the words are not a command.
pub const NUMBER: u32 = 2;

/// The words of a command name a file that is missing.
pub const NO_FILE: u32 = 3;

/// The caller's room is too small.
pub const NO_ROOM: u32 = 4;

/// A text was refused, or an element of a generated world has no room.
pub const REFUSED: u32 = 5;

/// Out of memory.
pub const MEMORY: u32 = 6;
