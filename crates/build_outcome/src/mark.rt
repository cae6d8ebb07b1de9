// The mark of a list of keys.

use std::marker::Model;

/// By what a list of keys is known again: the sum of its first hashes, which wraps, and the xor of its second ones.
#[derive(Clone, Copy, Debug, PartialEq, Eq)]
pub struct KeyMark {
    pub sum: u64,
    pub xor: u64,
}

impl Model for KeyMark {
    ghost use Rattle.build_outcome.specs.Index.{KeyMarkData};
    ghost use Rattle.build_outcome.specs.Validity.{IsMark};

    ghost Value = { KeyMarkData };

    ghost view = { λ a. record { sum = a.sum; xor = a.xor } };

    ghost inverse = { λ m. record { sum = m.sum; xor = m.xor } };

    ghost invariant = { λ a. IsMark (record { sum = a.sum; xor = a.xor }) };
}
