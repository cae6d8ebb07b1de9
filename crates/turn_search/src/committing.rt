// A bucket gets its pilot, or the search is stopped.

ghost use Rattle.std.specs.Prelude.{◌≡◌, ◌≢◌, ℕ, ◌+◌, ◌<◌, ◌≤◌, true, false, None, Some, slice_index};
ghost use Rattle.pthash.specs.Order.{most_members};
ghost use Rattle.pthash.specs.SearchLaws.{positions_at};
ghost use Rattle.turn_search.specs.Words.{ranks_of};
ghost use Rattle.turn_search.specs.Looks.{RejectsBelow, Shows};
ghost use Rattle.turn_search.specs.Rule.{keys_at};
ghost use Rattle.turn_search.specs.Steps.{after_bit, after_store, after_pass, after_stop};
ghost use Rattle.turn_search.specs.Passes.{IsPassOf, IsPassAt, HasSeenStop, with_bits};

use crate::layout::{STOP, pilots_from};
use crate::plays::{BitStep, PassStep, StopStep, StoreStep};
use crate::table::{Pass, TurnTable};
use crate::trying::Candidate;
use pilot_search::{Scratch, spread};

impl<'a> TurnTable<'a> {
    /// Takes the candidate's positions, stores its pilot, and passes the turn to the next rank.
    pub fn commit(&self, pass: &mut Pass, candidate: Candidate, scratch: &mut Scratch)
        requires pass { IsPassOf self.now pass.old }
        requires shown { Shows pass.old.view candidate.rank candidate.pilot }
        requires room { most_members self.now.plan.buckets ≤ scratch.old.members }
        ensures pass { IsPassOf self.now pass.new }
        ensures view { pass.new.view ≡ after_pass pass.old.view candidate.rank }
        ensures no_claim { pass.new.view.claim ≡ None }
        ensures turn { pass.new.view.last ≡ candidate.rank + 1 }
        ensures room { scratch.new.members ≡ scratch.old.members }
    {
        let rank = pass.rank();
        spread(self.plan, rank, candidate.pilot(), scratch);
        self.commit_at(pass, candidate, scratch.positions());
    }

    // The same with the candidate's positions at hand.
    pub(crate) fn commit_at(&self, pass: &mut Pass, candidate: Candidate, positions: &[u64])
        requires pass { IsPassOf self.now pass.old }
        requires shown { Shows pass.old.view candidate.rank candidate.pilot }
        requires positions { positions.now
            ≡ positions_at self.now.plan candidate.rank candidate.pilot }
        ensures pass { IsPassOf self.now pass.new }
        ensures view { pass.new.view ≡ after_pass pass.old.view candidate.rank }
        ensures no_claim { pass.new.view.claim ≡ None }
        ensures turn { pass.new.view.last ≡ candidate.rank + 1 }
    {
        let rank = pass.rank();
        let pilot = candidate.pilot();
        self.set_bits(pass, rank, pilot, positions);
        self.store_pilot(pass, rank, pilot);
        self.pass_turn(pass, rank);
    }

    /// Says for all passes that the search is stuck at the claimed rank.
    pub fn stop(&self, pass: &mut Pass)
        requires pass { IsPassOf self.now pass.old }
        requires holds { pass.old.view.holds ≡ true }
        requires claim { pass.old.view.claim ≢ None }
        requires all_rejected { (rank : ℕ) → pass.old.view.claim ≡ Some rank →
            RejectsBelow pass.old.view rank self.now.plan.limit }
        ensures pass { IsPassOf self.now pass.new }
        ensures view { (rank : ℕ) → pass.old.view.claim ≡ Some rank →
            pass.new.view ≡ after_stop pass.old.view rank }
        ensures stopped { (rank : ℕ) → pass.old.view.claim ≡ Some rank →
            HasSeenStop pass.new.view rank }
    {
        self.board
            .shared
            .fetch_or::<StopStep>(&mut pass.seat, 0, STOP);
    }

    // Sets the bits of the positions, one after another.
    fn set_bits(&self, pass: &mut Pass, rank: u64, pilot: u64, positions: &[u64])
        requires pass { IsPassOf self.now pass.old }
        requires shown { Shows pass.old.view rank pilot }
        requires positions { positions.now ≡ positions_at self.now.plan rank pilot }
        ensures pass { IsPassAt self.now pass.new }
        ensures view { pass.new.view ≡ with_bits pass.old.view (keys_at self.now.plan rank) }
    {
        for position in positions {
            self.set_next(pass, rank, pilot, *position);
        }
    }

    // Sets the bit of the next position of a pilot that the pass shows.
    fn set_next(&self, pass: &mut Pass, rank: u64, pilot: u64, position: u64)
        requires pass { IsPassAt self.now pass.old }
        requires shown { Shows pass.old.view rank pilot }
        requires left { pass.old.view.bits < keys_at self.now.plan rank }
        requires quiet { pass.old.view.wrote ≡ false }
        requires position { position
            ≡ slice_index (positions_at self.now.plan rank pilot) pass.old.view.bits }
        ensures pass { IsPassAt self.now pass.new }
        ensures view { pass.new.view ≡ after_bit pass.old.view }
    {
        let word = self.bits + position / 64;
        let mask = 1 << (position % 64);
        self.board
            .shared
            .fetch_or::<BitStep>(&mut pass.seat, word as usize, mask);
    }

    // Stores the pilot, whose bits are set.
    fn store_pilot(&self, pass: &mut Pass, rank: u64, pilot: u64)
        requires pass { IsPassAt self.now pass.old }
        requires shown { Shows pass.old.view rank pilot }
        requires all_set { pass.old.view.bits ≡ keys_at self.now.plan rank }
        requires rank { rank < ranks_of self.now.plan }
        ensures pass { IsPassAt self.now pass.new }
        ensures view { pass.new.view ≡ after_store pass.old.view }
    {
        let word = pilots_from(self.plan) + rank;
        self.board
            .shared
            .store::<StoreStep>(&mut pass.seat, word as usize, pilot);
    }

    // Passes the turn on.
    fn pass_turn(&self, pass: &mut Pass, rank: u64)
        requires pass { IsPassAt self.now pass.old }
        requires claim { pass.old.view.claim ≡ Some rank }
        requires holds { pass.old.view.holds ≡ true }
        requires all_set { pass.old.view.bits ≡ keys_at self.now.plan rank }
        requires stored { pass.old.view.wrote ≡ true }
        ensures pass { IsPassOf self.now pass.new }
        ensures view { pass.new.view ≡ after_pass pass.old.view rank }
    {
        self.board
            .shared
            .fetch_add::<PassStep>(&mut pass.seat, 0, 1);
    }
}
