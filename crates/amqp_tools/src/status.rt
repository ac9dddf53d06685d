//! The exit statuses of the programs.

/// All that was asked for was done.
pub const DONE: u8 = 0;

/// The broker refused a message, or no queue takes one.
pub const NOT_TAKEN: u8 = 1;

/// The words are not known, or the address is none.
pub const USAGE: u8 = 2;

/// Standard input failed.
pub const SOURCE_FAILED: u8 = 3;

/// Standard output failed.
pub const SINK_FAILED: u8 = 4;

/// The connection ended, or could not be opened.
pub const FAILED: u8 = 5;

/// Memory was refused.
pub const NO_MEMORY: u8 = 7;
