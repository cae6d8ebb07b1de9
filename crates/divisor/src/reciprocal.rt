// Remainders by two multiplications in place of a division.

ghost use Rattle.std.specs.Prelude.{◌≡◌, ◌%◌, ◌^◌, ◌≤◌, ◌<◌};

use std::marker::Model;

/// A divisor that many numbers are divided by: a contract sees it as its value.
#[derive(Debug, Drop)]
pub struct Divisor {
    value: u64,
    reciprocal: u64,
}

impl Model for Divisor {
    ghost use Rattle.std.specs.Prelude.{ℕ, ◌≡◌, ◌-◌, ◌/◌, ◌^◌, ◌≤◌};
    ghost use Rattle.divisor.specs.Reciprocal.{IsReciprocal};

    ghost Value = { ℕ };

    ghost view = { λ a. a.value };

    ghost invariant = { λ a. IsReciprocal a.value a.reciprocal };
}

impl Divisor {
    /// Takes one division, for the reciprocal.
    pub fn new(value: u64) -> Self
        requires { 1 ≤ value }
        ensures { result ≡ value }
    {
        Self {
            value,
            reciprocal: u64::MAX / value,
        }
    }

    /// The divisor as a number.
    #[inline]
    pub fn value(&self) -> u64
        ensures value { result ≡ self.now }
        ensures positive { 1 ≤ result }
    {
        self.value
    }

    /// What is left of a number that is divided.
    // The quotient by the reciprocal is at most one too small.
    #[inline]
    pub fn remainder(&self, x: u64) -> u64
        ensures value { result ≡ x % self.now }
        ensures below { result < self.now }
    {
        let quotient = ((x as u128 * self.reciprocal as u128) >> 64) as u64;
        let rest = x - quotient * self.value;
        if rest < self.value {
            rest
        } else {
            rest - self.value
        }
    }
}
