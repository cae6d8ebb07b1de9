// Ranks are claimed, one claim bit after another.

ghost use Rattle.std.specs.Prelude.{◌≡◌, ℕ, ◌<◌, ◌≤◌, ◌==◌, cond, None};
ghost use Rattle.std.specs.Int.{bit_at};
ghost use Rattle.turn_search.specs.Words.{ranks_of};
ghost use Rattle.turn_search.specs.Steps.{past_place, with_claim};
ghost use Rattle.turn_search.specs.Claims.{claim_answer, gone_to};
ghost use Rattle.turn_search.specs.Passes.{IsPassOf};
ghost use Rattle.turn_search.specs.declared.claiming.Claim.TheVariants.{Mine, Nothing};

use crate::plays::ClaimStep;
use crate::table::{Pass, TurnTable};

/// What `TurnTable::claim` found.
#[derive(Clone, Copy, Debug, PartialEq, Eq)]
pub enum Claim {
    /// The pass has claimed this rank.
    Mine { rank: u64 },
    /// Every rank from the place of the pass on is claimed.
    Nothing,
}

impl<'a> TurnTable<'a> {
    /// Claims the first rank from the pass's place on whose bit is clear.
    pub fn claim(&self, pass: &mut Pass) -> Claim
        requires pass { IsPassOf self.now pass.old }
        requires no_claim { pass.old.view.claim ≡ None }
        ensures pass { IsPassOf self.now pass.new }
        ensures answer { result ≡ claim_answer pass.new.view.claim }

        // The bit of the rank was found clear by the last step, and nothing else changed.
        ensures mine { (rank : ℕ) → result ≡ Mine rank →
            pass.new.view ≡ with_claim (gone_to pass.old.view rank) }
        ensures ahead { (rank : ℕ) → result ≡ Mine rank → pass.old.view.place ≤ rank }
        ensures within { (rank : ℕ) → result ≡ Mine rank → rank < ranks_of self.now.plan }

        ensures nothing { result ≡ Nothing →
            pass.new.view ≡ gone_to pass.old.view (ranks_of self.now.plan) }
    {
        for rank in pass.place..self.plan.ranks() {
            if self.take_claim(pass) {
                return Claim::Mine { rank };
            }
        }
        Claim::Nothing
    }

    // Sets the bit at the place, and tells whether it was clear.
    fn take_claim(&self, pass: &mut Pass) -> bool
        requires pass { IsPassOf self.now pass.old }
        requires no_claim { pass.old.view.claim ≡ None }
        requires left { pass.old.view.place < ranks_of self.now.plan }
        ensures pass { IsPassOf self.now pass.new }
        ensures view { let view = pass.old.view in
            pass.new.view ≡ cond result (with_claim view) (past_place view) }
    {
        let place = pass.place;
        let word = 1 + place / 64;
        let bit = place % 64;
        let found = self
            .board
            .shared
            .fetch_or::<ClaimStep>(&mut pass.seat, word as usize, 1 << bit);
        pass.place = place + 1;
        !is_bit_set(found, bit)
    }
}

// Whether a bit of a word is set.
#[inline]
pub(crate) fn is_bit_set(word: u64, bit: u64) -> bool
    requires { bit < 64 }
    ensures { result ≡ (bit_at word bit == 1) }
{
    (word >> bit) & 1 == 1
}
