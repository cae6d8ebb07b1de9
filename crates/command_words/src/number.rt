// Numbers in words.
ghost use Rattle.std.specs.Prelude.{◌≡◌, ◌^◌, ◌<◌, ◌≤◌, ◌↔◌, ℕ, IsTrue, Some, None, IfSome, IfOk, decimal, vec_items};
ghost use Rattle.command_words.specs.Refusals.{Answers};
ghost use Rattle.command_words.specs.Values.{IsPlain, number_of, number_in, seeds_in};

use crate::faults::Refusal;
use crate::kinds::{NUMBER, RANGE};
use settings::MAX_SEEDS;
use std::alloc::Global;

// The byte between two seeds.
pub(crate) const COMMA: char = ',';

// Whether a text begins with a digit, and with 0 only where nothing follows.
fn is_plain(bytes: &[u8]) -> bool
    ensures { IsTrue result ↔ IsPlain bytes.now }
{
    match bytes.first() {
        Some(b'0') => bytes.len() == 1,
        Some(first) => first.is_ascii_digit(),
        None => false,
    }
}

// The number that a text spells in decimal digits, with no sign and no leading zero.
fn number(text: &str) -> Option<u64>
    ensures value { result ≡ number_of text.now }
    ensures spelled { IfSome result (λ n. text.now ≡ decimal n) }
    ensures all { (n : ℕ) → n < 2 ^ 64 → text.now ≡ decimal n → result ≡ Some n }
{
    if is_plain(text.as_bytes()) {
        text.parse().ok()
    } else {
        None
    }
}

// The number that a text spells, from low to high.
pub(crate) fn read_number(text: &str, low: u64, high: u64) -> Result<u64, Refusal>
    ensures value { Answers (λ x. x) result (number_in low high text.now) }
    ensures reaches { IfOk result (λ n. low ≤ n) }
    ensures fits { IfOk result (λ n. n ≤ high) }
{
    let Some(n) = number(text) else {
        return Err(Refusal::Kind(NUMBER));
    };
    if n < low || high < n {
        return Err(Refusal::Kind(RANGE));
    }
    Ok(n)
}

// The number that a text spells, from low to high, in 32 bits.
pub(crate) fn read_small(text: &str, low: u32, high: u32) -> Result<u32, Refusal>
    ensures { Answers (λ x. x) result (number_in low high text.now) }
{
    match read_number(text, u64::from(low), u64::from(high)) {
        Ok(n) => Ok(n as u32),
        Err(refusal) => Err(refusal),
    }
}

// The seeds that a text lists between commas.
pub(crate) fn read_seeds(alloc: Global, text: &str) -> Result<Vec<u64>, Refusal>
    ensures { Answers vec_items result (seeds_in text.now) }
{
    let mut seeds = Vec::new(alloc);
    for piece in text.split(COMMA) {
        let Some(seed) = number(piece) else {
            return Err(Refusal::Kind(NUMBER));
        };
        seeds.push(seed)?;
    }
    if seeds.len() > MAX_SEEDS {
        return Err(Refusal::Kind(RANGE));
    }
    Ok(seeds)
}
