// One worker: it claims ranks and gives each its pilot, until all are claimed or the search is stopped.

ghost use Rattle.std.specs.Prelude.{◌≡◌, ◌≢◌, ℕ, ◌<◌, ◌≤◌, true, false, None, Some};
ghost use Rattle.pthash.specs.Order.{most_members};
ghost use Rattle.turn_search.specs.Words.{ranks_of, HasStop};
ghost use Rattle.turn_search.specs.Looks.{RejectsBelow};
ghost use Rattle.turn_search.specs.Passes.{IsPassOf, IsOfRank, IsSpread};
ghost use Rattle.turn_search.specs.Works.{KeepsClaim, IsSettled, IsDone};

use crate::claiming::Claim;
use crate::gate::Gate;
use crate::table::{Pass, TurnTable};
use crate::trying::{Candidate, Spec};
use crate::turns::Turn;
use pilot_search::Scratch;
use std::sync::Wait;
use std::thread;

impl<'a> TurnTable<'a> {
    /// Claims ranks and gives each its pilot at its turn, until every rank is claimed or the search is stopped.
    pub fn work<R: Wait, G: Gate>(&self, rt: &R, pass: &mut Pass, scratch: &mut Scratch, gate: &G)
        requires pass { IsPassOf self.now pass.old }
        requires no_claim { pass.old.view.claim ≡ None }
        requires room { most_members self.now.plan.buckets ≤ scratch.old.members }
        ensures pass { IsPassOf self.now pass.new }
        ensures done { IsDone self.now.plan pass.new.view }
        ensures room { scratch.new.members ≡ scratch.old.members }
    {
        while let Claim::Mine { rank } = self.claim(pass) {
            if !self.settle(rt, pass, rank, scratch, gate) {
                return;
            }
        }
    }

    // Finds the pilot of the claimed rank and gives it at its turn. Whether the search goes on.
    fn settle<R: Wait, G: Gate>(
        &self,
        rt: &R,
        pass: &mut Pass,
        rank: u64,
        scratch: &mut Scratch,
        gate: &G,
    ) -> bool
        requires pass { IsPassOf self.now pass.old }
        requires claim { pass.old.view.claim ≡ Some rank }
        requires room { most_members self.now.plan.buckets ≤ scratch.old.members }
        ensures pass { IsPassOf self.now pass.new }
        ensures settled { IsSettled pass.old.view pass.new.view result }
        ensures room { scratch.new.members ≡ scratch.old.members }
    {
        match self.speculate(pass, scratch) {
            Spec::Found(candidate) => {
                gate.candidate(rank, candidate.pilot());
                self.settle_with(rt, pass, rank, candidate, scratch, gate)
            }
            Spec::AllRejected => self.settle_without(rt, pass, rank, gate),
        }
    }

    // Waits for the turn, and tests the candidate again, whose positions are at hand.
    fn settle_with<R: Wait, G: Gate>(
        &self,
        rt: &R,
        pass: &mut Pass,
        rank: u64,
        candidate: Candidate,
        scratch: &mut Scratch,
        gate: &G,
    ) -> bool
        requires pass { IsPassOf self.now pass.old }
        requires claim { pass.old.view.claim ≡ Some rank }
        requires candidate { IsOfRank pass.old.view candidate }
        requires spread { IsSpread self.now.plan candidate scratch.old.positions }
        requires room { most_members self.now.plan.buckets ≤ scratch.old.members }
        ensures pass { IsPassOf self.now pass.new }
        ensures settled { IsSettled pass.old.view pass.new.view result }
        ensures room { scratch.new.members ≡ scratch.old.members }
    {
        if !self.await_turn(rt, pass) {
            return false;
        }
        gate.turn(rank);
        match self.retest_spread(pass, candidate, scratch) {
            Spec::Found(shown) => {
                self.commit_at(pass, shown, scratch.positions());
                true
            }
            Spec::AllRejected => {
                self.stop(pass);
                false
            }
        }
    }

    // Waits for the turn of a rank of which every pilot is rejected, and stops the search.
    fn settle_without<R: Wait, G: Gate>(&self, rt: &R, pass: &mut Pass, rank: u64, gate: &G) -> bool
        requires pass { IsPassOf self.now pass.old }
        requires claim { pass.old.view.claim ≡ Some rank }
        requires all_rejected { RejectsBelow pass.old.view rank self.now.plan.limit }
        ensures pass { IsPassOf self.now pass.new }
        ensures settled { IsSettled pass.old.view pass.new.view result }
    {
        if !self.await_turn(rt, pass) {
            return false;
        }
        gate.turn(rank);
        self.stop(pass);
        false
    }

    // Looks until it is the turn of the claimed rank, or the search is stopped. Whether it is the turn.
    fn await_turn<R: Wait>(&self, rt: &R, pass: &mut Pass) -> bool
        requires pass { IsPassOf self.now pass.old }
        requires claim { pass.old.view.claim ≢ None }
        ensures pass { IsPassOf self.now pass.new }
        ensures kept { KeepsClaim pass.old.view pass.new.view }
        ensures turn { result ≡ true → pass.new.view.holds ≡ true }
        ensures stopped { result ≡ false → HasStop pass.new.view.last }
    {
        for _ in rt.forever() {
            match self.look(pass) {
                Turn::Mine => return true,
                Turn::NotYet { turn: _ } => thread::yield_now(),
                Turn::Stopped { rank: _ } => return false,
            }
        }
        unreachable!()
    }
}
