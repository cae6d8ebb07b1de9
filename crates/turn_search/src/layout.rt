// Where the words of a table lie.

ghost use Rattle.std.specs.Prelude.{◌≡◌, ◌+◌, ◌<◌, ◌≤◌, ◌/◌, length};
ghost use Rattle.turn_search.specs.Words.{bits_from, pilots_from, word_count};

use pilot_search::Plan;

/// The top bit of the turn word. The lower bits are the turn.
pub const STOP: u64 = 0x8000_0000_0000_0000;

// The first word of the bits of the positions. The turn word and the claim bits lie before it.
#[inline]
pub(crate) fn bits_from(plan: &Plan) -> u64
    ensures value { result ≡ bits_from plan.now }
    ensures bound { result ≤ 4_194_306 }
{
    1 + plan.ranks().div_ceil(64)
}

// The first word of the pilots.
#[inline]
pub(crate) fn pilots_from(plan: &Plan) -> u64
    ensures value { result ≡ pilots_from plan.now }
    ensures bound { result ≤ 8_388_612 }
{
    bits_from(plan) + plan.size().div_ceil(64)
}

// How many words there are.
pub(crate) fn word_count(plan: &Plan) -> u64
    ensures value { result ≡ word_count plan.now }
    ensures bound { result ≤ 276_824_068 }
{
    pilots_from(plan) + plan.ranks()
}
