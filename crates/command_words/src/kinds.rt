// The kinds of faults in words.

/// The first word is no command.
pub const COMMAND: u8 = 1;

/// A name is missing.
pub const MISSING: u8 = 2;

/// A word stands after the last one that the command takes.
pub const EXTRA: u8 = 3;

/// A word is no setting.
pub const NAME: u8 = 4;

/// A setting stands in two words.
pub const REPEATED: u8 = 5;

/// A value isn't the number that is wanted.
pub const NUMBER: u8 = 6;

/// A value isn't one of those that the setting takes.
pub const RANGE: u8 = 7;

/// Two names that must differ are the same.
pub const SAME_NAME: u8 = 8;
