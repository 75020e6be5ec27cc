//! The statuses with which a call ends.

/// The command was done.
pub const DONE: u8 = 0;

/// The words are no command.
pub const USAGE: u8 = 2;

/// The text was refused.
pub const REFUSED: u8 = 3;

/// The source failed.
pub const UNREAD: u8 = 4;

/// The sink failed.
pub const UNWRITTEN: u8 = 5;

/// Memory was refused.
pub const NO_MEMORY: u8 = 6;

/// The report isn't sound.
pub const UNSOUND: u8 = 8;
