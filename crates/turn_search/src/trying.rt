// Pilots are tried on the positions that the table shows.

ghost use Rattle.std.specs.Prelude.{◌≡◌, ◌≢◌, ◌+◌, ◌<◌, ◌≤◌, ◌↔◌, ℕ, true, false, not, None, Some, Err, IfSome, IfNone};
ghost use Rattle.std.specs.List.{list_all};
ghost use Rattle.pthash.specs.Order.{bucket_at, most_members};
ghost use Rattle.pthash.specs.Search.{prefix_of};
ghost use Rattle.pilot_search.specs.Table.{positions_under};
ghost use Rattle.pthash.specs.SearchLaws.{positions_at, fits_at};
ghost use Rattle.turn_search.specs.Words.{ranks_of};
ghost use Rattle.turn_search.specs.Looks.{found_taken, found_free, RejectsBelow, IsCandidateBy, Shows};
ghost use Rattle.turn_search.specs.Told.{HasTurnIfHeld};
ghost use Rattle.turn_search.specs.Passes.{CandidateData, IsPassOf, LooksAt, OnlyLooked, IsOfRank, IsPilotOf, new_looks};
ghost use Rattle.turn_search.specs.declared.trying.Spec.TheVariants.{Found, AllRejected};

use crate::claiming::is_bit_set;
use crate::plays::LookStep;
use crate::table::{Pass, TurnTable};
use divisor::Divisor;
use pilot_search::{Scratch, spread};
use std::marker::Model;

// Where one part in so many of the ranks has its pilots, a quarter of the positions or so is taken.
const FEW_TAKEN: u64 = 8;

/// A pilot that a pass has found for its rank.
#[derive(Drop)]
pub struct Candidate {
    rank: u64,
    pilot: u64,
}

impl Model for Candidate {
    ghost use Rattle.turn_search.specs.Passes.{CandidateData};

    ghost Value = { CandidateData };

    ghost view = { λ a. record { rank = a.rank; pilot = a.pilot } };
}

impl Candidate {
    /// The rank of the bucket.
    pub fn rank(&self) -> u64
        ensures { result ≡ self.now.rank }
    {
        self.rank
    }

    /// The pilot that was found.
    pub fn pilot(&self) -> u64
        ensures { result ≡ self.now.pilot }
    {
        self.pilot
    }
}

/// What the tests of a pass came to.
#[derive(Drop)]
pub enum Spec {
    /// The least pilot that the pass has not rejected.
    Found(Candidate),
    /// The pass has rejected every pilot below the limit.
    AllRejected,
}

impl<'a> TurnTable<'a> {
    /// Looks for the pilot of the claimed rank, from pilot 0 on, whosever turn it is.
    pub fn speculate(&self, pass: &mut Pass, scratch: &mut Scratch) -> Spec
        requires pass { IsPassOf self.now pass.old }
        requires claim { pass.old.view.claim ≢ None }
        requires room { most_members self.now.plan.buckets ≤ scratch.old.members }
        ensures pass { IsPassOf self.now pass.new }
        ensures looks { OnlyLooked pass.old.view pass.new.view }
        ensures room { scratch.new.members ≡ scratch.old.members }

        ensures rank { (it : CandidateData) → result ≡ Found it → IsOfRank pass.new.view it }
        ensures found { (it : CandidateData) → result ≡ Found it →
            IsCandidateBy self.now.plan (new_looks pass.old.view pass.new.view) it.rank it.pilot }
        ensures positions { (it : CandidateData) → result ≡ Found it →
            scratch.new.positions ≡ positions_at self.now.plan it.rank it.pilot }
        ensures all_rejected { (rank : ℕ) → pass.old.view.claim ≡ Some rank →
            result ≡ AllRejected → RejectsBelow pass.new.view rank self.now.plan.limit }
    {
        self.spec_from(pass, 0, scratch)
    }

    /// Tests a candidate again at its rank's turn, and goes on upward where it collides.
    pub fn retest(&self, pass: &mut Pass, candidate: Candidate, scratch: &mut Scratch) -> Spec
        requires pass { IsPassOf self.now pass.old }
        requires holds { pass.old.view.holds ≡ true }
        requires candidate { IsOfRank pass.old.view candidate }
        requires room { most_members self.now.plan.buckets ≤ scratch.old.members }
        ensures pass { IsPassOf self.now pass.new }
        ensures looks { OnlyLooked pass.old.view pass.new.view }
        ensures room { scratch.new.members ≡ scratch.old.members }

        ensures rank { (it : CandidateData) → result ≡ Found it → IsOfRank pass.new.view it }
        ensures found { (it : CandidateData) → result ≡ Found it →
            IsCandidateBy self.now.plan (new_looks pass.old.view pass.new.view) it.rank it.pilot }
        ensures shown { (it : CandidateData) → result ≡ Found it →
            Shows pass.new.view it.rank it.pilot }
        ensures pilot { (it : CandidateData) → result ≡ Found it →
            IsPilotOf self.now.plan it.rank it.pilot }
        ensures same_rank { (it : CandidateData) → result ≡ Found it →
            it.rank ≡ candidate.rank }
        ensures positions { (it : CandidateData) → result ≡ Found it →
            scratch.new.positions ≡ positions_at self.now.plan it.rank it.pilot }

        ensures stuck { (result ≡ AllRejected)
            ↔ (prefix_of self.now.plan (candidate.rank + 1) ≡ Err candidate.rank) }
        ensures all_rejected { result ≡ AllRejected →
            RejectsBelow pass.new.view candidate.rank self.now.plan.limit }
    {
        self.know_turn(pass);
        let spec = self.spec_from(pass, candidate.pilot, scratch);
        self.know_turn(pass);
        spec
    }

    // Nothing is done: a pass that holds the turn has looks that are true of the search.
    #[inline]
    pub(crate) fn know_turn(&self, pass: &Pass)
        ensures turn { HasTurnIfHeld pass.now.view }
        ensures size { 1 ≤ self.now.plan.size }
    {
        let _ = &self.plan;
        let _ = &pass.place;
    }

    // The least pilot from `first` on that is not rejected, as a candidate.
    fn spec_from(&self, pass: &mut Pass, first: u64, scratch: &mut Scratch) -> Spec
        requires pass { IsPassOf self.now pass.old }
        requires claim { pass.old.view.claim ≢ None }
        requires room { most_members self.now.plan.buckets ≤ scratch.old.members }
        requires lower { (rank : ℕ) → pass.old.view.claim ≡ Some rank →
            RejectsBelow pass.old.view rank first }
        ensures pass { IsPassOf self.now pass.new }
        ensures looks { OnlyLooked pass.old.view pass.new.view }
        ensures room { scratch.new.members ≡ scratch.old.members }
        ensures rank { (it : CandidateData) → result ≡ Found it → IsOfRank pass.new.view it }
        ensures found { (it : CandidateData) → result ≡ Found it →
            IsCandidateBy self.now.plan (new_looks pass.old.view pass.new.view) it.rank it.pilot }
        ensures positions { (it : CandidateData) → result ≡ Found it →
            scratch.new.positions ≡ positions_at self.now.plan it.rank it.pilot }
        ensures all_rejected { (rank : ℕ) → pass.old.view.claim ≡ Some rank →
            result ≡ AllRejected → RejectsBelow pass.new.view rank self.now.plan.limit }
    {
        let rank = pass.rank();
        match self.find_from(pass, rank, first, scratch) {
            Some(pilot) => Spec::Found(Candidate { rank, pilot }),
            None => Spec::AllRejected,
        }
    }

    // The least pilot from `first` on that is not rejected, and then its positions.
    fn find_from(
        &self,
        pass: &mut Pass,
        rank: u64,
        first: u64,
        scratch: &mut Scratch,
    ) -> Option<u64>
        requires pass { IsPassOf self.now pass.old }
        requires claim { pass.old.view.claim ≡ Some rank }
        requires rank { rank < ranks_of self.now.plan }
        requires room { most_members self.now.plan.buckets ≤ scratch.old.members }
        requires lower { RejectsBelow pass.old.view rank first }
        ensures pass { IsPassOf self.now pass.new }
        ensures looks { OnlyLooked pass.old.view pass.new.view }
        ensures room { scratch.new.members ≡ scratch.old.members }
        ensures lower { IfSome result (λ pilot. RejectsBelow pass.new.view rank pilot) }
        ensures found { let looks = new_looks pass.old.view pass.new.view in
            IfSome result (λ pilot. IsCandidateBy self.now.plan looks rank pilot) }
        ensures positions { let places = positions_at self.now.plan rank in
            IfSome result (λ pilot. scratch.new.positions ≡ places pilot) }
        ensures all_rejected { IfNone result
            (RejectsBelow pass.new.view rank self.now.plan.limit) }
    {
        if rank <= self.plan.ranks() / FEW_TAKEN {
            self.find_between(pass, rank, first, self.plan.limit(), scratch)
        } else {
            self.find_by_groups(pass, rank, first, scratch)
        }
    }

    // The same below `end`, one pilot after another.
    pub(crate) fn find_between(
        &self,
        pass: &mut Pass,
        rank: u64,
        first: u64,
        end: u64,
        scratch: &mut Scratch,
    ) -> Option<u64>
        requires pass { IsPassOf self.now pass.old }
        requires claim { pass.old.view.claim ≡ Some rank }
        requires rank { rank < ranks_of self.now.plan }
        requires end { end ≤ self.now.plan.limit }
        requires room { most_members self.now.plan.buckets ≤ scratch.old.members }
        requires lower { RejectsBelow pass.old.view rank first }
        ensures pass { IsPassOf self.now pass.new }
        ensures looks { OnlyLooked pass.old.view pass.new.view }
        ensures room { scratch.new.members ≡ scratch.old.members }
        ensures lower { IfSome result (λ pilot. RejectsBelow pass.new.view rank pilot) }
        ensures found { let looks = new_looks pass.old.view pass.new.view in
            IfSome result (λ pilot. IsCandidateBy self.now.plan looks rank pilot) }
        ensures positions { let places = positions_at self.now.plan rank in
            IfSome result (λ pilot. scratch.new.positions ≡ places pilot) }
        ensures all_rejected { IfNone result (RejectsBelow pass.new.view rank end) }
    {
        let members = self.plan.members(rank);
        for pilot in first..end {
            if self.try_pilot(pass, rank, members, pilot, &self.size, scratch) {
                return Some(pilot);
            }
        }
        None
    }

    // Whether the pilot's positions are distinct and all of them were found free.
    pub(crate) fn try_pilot(
        &self,
        pass: &mut Pass,
        rank: u64,
        members: &[u64],
        pilot: u64,
        size: &Divisor,
        scratch: &mut Scratch,
    ) -> bool
        requires pass { IsPassOf self.now pass.old }
        requires claim { pass.old.view.claim ≡ Some rank }
        requires rank { rank < ranks_of self.now.plan }
        requires members { members.now ≡ (bucket_at self.now.plan.buckets rank).members }
        requires pilot { pilot < self.now.plan.limit }
        requires size { size.now ≡ self.now.plan.size }
        requires room { most_members self.now.plan.buckets ≤ scratch.old.members }
        ensures pass { IsPassOf self.now pass.new }
        ensures looks { OnlyLooked pass.old.view pass.new.view }
        ensures room { scratch.new.members ≡ scratch.old.members }
        ensures found { let looks = new_looks pass.old.view pass.new.view in
            result ≡ true → IsCandidateBy self.now.plan looks rank pilot }
        ensures positions { let places = positions_at self.now.plan rank in
            result ≡ true → scratch.new.positions ≡ places pilot }
        ensures rejected { let taken = found_taken pass.new.view.looks in
            result ≡ false → fits_at pass.new.view.plan taken rank pilot ≡ false }
    {
        let hash = self.hash_of(pilot);
        if !self.are_free(pass, members, hash, size) {
            return false;
        }
        spread(self.plan, rank, pilot, scratch)
    }

    // Looks at one position after another, until one is taken.
    fn are_free(&self, pass: &mut Pass, members: &[u64], hash: u64, size: &Divisor) -> bool
        requires pass { IsPassOf self.now pass.old }
        requires claim { pass.old.view.claim ≢ None }
        requires size { size.now ≡ self.now.plan.size }
        ensures pass { IsPassOf self.now pass.new }
        ensures looks { OnlyLooked pass.old.view pass.new.view }
        ensures free { let looks = new_looks pass.old.view pass.new.view in
            let positions = positions_under hash size.now members.now in
            result ≡ true → list_all (found_free looks) positions ≡ true }
        ensures taken { let looks = pass.new.view.looks in
            let positions = positions_under hash size.now members.now in
            result ≡ false → list_all (λ p. not (found_taken looks p)) positions ≡ false }
    {
        for member in members {
            if !self.is_free(pass, size.remainder(*member ^ hash)) {
                return false;
            }
        }
        true
    }

    // Whether a look finds the position free.
    #[inline]
    pub(crate) fn is_free(&self, pass: &mut Pass, position: u64) -> bool
        requires pass { IsPassOf self.now pass.old }
        requires claim { pass.old.view.claim ≢ None }
        requires position { position < self.now.plan.size }
        ensures pass { IsPassOf self.now pass.new }
        ensures look { LooksAt pass.old.view pass.new.view position result }
    {
        let word = self.bits + position / 64;
        let found = self
            .board
            .shared
            .load::<LookStep>(&mut pass.seat, word as usize);
        !is_bit_set(found, position % 64)
    }
}
