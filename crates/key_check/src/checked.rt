// What a check comes to.

use build_outcome::KeyMark;

/// What a check of an index against the lines of a list comes to. Lines are counted from 1.
#[derive(Clone, Copy, Debug, PartialEq, Eq)]
pub enum Checked {
    /// The lines have the numbers below n as values, each its own. This is their mark.
    Good { mark: KeyMark },
    /// This line has more bytes than a key may have.
    TooLong { line: u64 },
    /// This line has no value.
    NoValue { line: u64 },
    /// This line has the value of an earlier one.
    Repeats { line: u64, earlier: u64 },
    /// The index has more keys than the list has lines.
    Counts { n: u64, lines: u64 },
    /// The index was built of another list: it keeps another mark than the one that was counted.
    Differs { kept: KeyMark, counted: KeyMark },
}
