// The codes of a list and their pairs.

/// How a list of numbers is spelled.
#[derive(Clone, Copy, Debug, PartialEq, Eq)]
pub enum Code {
    /// Each value in the width of the greatest.
    Compact,
    /// Groups of 256 values, each as compact.
    Parted,
    /// The distinct values, and each value by its index among them.
    Dict,
    /// The sums of the values up to each, as Elias-Fano.
    EliasFano,
}

/// One code for the first three tenths of a list and one for the rest, or one for all.
#[derive(Clone, Copy, Debug, PartialEq, Eq)]
pub struct Encoding {
    pub front: Code,
    pub back: Option<Code>,
}
