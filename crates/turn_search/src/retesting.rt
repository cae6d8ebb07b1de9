// A candidate whose positions are at hand is tested again.

ghost use Rattle.std.specs.Prelude.{◌≡◌, ◌≢◌, ◌≤◌, ℕ, None, true};
ghost use Rattle.std.specs.List.{list_all};
ghost use Rattle.pthash.specs.Order.{most_members};
ghost use Rattle.pthash.specs.SearchLaws.{positions_at};
ghost use Rattle.turn_search.specs.Looks.{found_free, RejectsBelow, Shows};
ghost use Rattle.turn_search.specs.Passes.{CandidateData, IsPassOf, OnlyLooked, IsOfRank, IsSpread, new_looks};
ghost use Rattle.turn_search.specs.declared.trying.Spec.TheVariants.{Found, AllRejected};

use crate::table::{Pass, TurnTable};
use crate::trying::{Candidate, Spec};
use pilot_search::Scratch;

impl<'a> TurnTable<'a> {
    // `retest` of a candidate whose positions are in the scratch: they are distinct, so that looks are enough.
    pub(crate) fn retest_spread(
        &self,
        pass: &mut Pass,
        candidate: Candidate,
        scratch: &mut Scratch,
    ) -> Spec
        requires pass { IsPassOf self.now pass.old }
        requires holds { pass.old.view.holds ≡ true }
        requires candidate { IsOfRank pass.old.view candidate }
        requires spread { IsSpread self.now.plan candidate scratch.old.positions }
        requires room { most_members self.now.plan.buckets ≤ scratch.old.members }
        ensures pass { IsPassOf self.now pass.new }
        ensures looks { OnlyLooked pass.old.view pass.new.view }
        ensures room { scratch.new.members ≡ scratch.old.members }
        ensures shown { (it : CandidateData) → result ≡ Found it →
            Shows pass.new.view it.rank it.pilot }
        ensures positions { (it : CandidateData) → result ≡ Found it →
            scratch.new.positions ≡ positions_at self.now.plan it.rank it.pilot }
        ensures all_rejected { result ≡ AllRejected →
            RejectsBelow pass.new.view candidate.rank self.now.plan.limit }
    {
        self.know_turn(pass);
        if self.are_still_free(
            pass,
            candidate.rank(),
            candidate.pilot(),
            scratch.positions(),
        ) {
            return Spec::Found(candidate);
        }
        self.retest(pass, candidate, scratch)
    }

    // Looks at a pilot's positions, one after another, until one is taken.
    fn are_still_free(&self, pass: &mut Pass, rank: u64, pilot: u64, positions: &[u64]) -> bool
        requires pass { IsPassOf self.now pass.old }
        requires claim { pass.old.view.claim ≢ None }
        requires size { 1 ≤ self.now.plan.size }
        requires positions { positions.now ≡ positions_at self.now.plan rank pilot }
        ensures pass { IsPassOf self.now pass.new }
        ensures looks { OnlyLooked pass.old.view pass.new.view }
        ensures free { let looks = new_looks pass.old.view pass.new.view in
            result ≡ true → list_all (found_free looks) positions.now ≡ true }
    {
        for position in positions {
            if !self.is_free(pass, *position) {
                return false;
            }
        }
        true
    }
}
