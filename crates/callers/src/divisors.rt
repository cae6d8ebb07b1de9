// Two remainders by one divisor.
ghost use Rattle.std.specs.Prelude.{◌≡◌, ◌%◌, ◌≤◌};

use divisor::Divisor;

/// The remainders of two numbers by the same divisor.
pub fn remainders(x: u64, y: u64, value: u64) -> (u64, u64)
    requires { 1 ≤ value }
    ensures first { result.0 ≡ x % value }
    ensures second { result.1 ≡ y % value }
{
    let divisor = Divisor::new(value);
    (divisor.remainder(x), divisor.remainder(y))
}
