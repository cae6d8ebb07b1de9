// Pilots that are looked at in groups, where the table is fuller.

ghost use Rattle.std.specs.Prelude.{◌≡◌, ◌≢◌, ◌+◌, ◌<◌, ◌≤◌, None, Some, IfSome, IfNone, length};
ghost use Rattle.pthash.specs.Order.{bucket_at, most_members};
ghost use Rattle.pthash.specs.SearchLaws.{positions_at, fits_at};
ghost use Rattle.pilot_search.specs.Flags.{FailWhereSet};
ghost use Rattle.pilot_search.specs.Kept.{AreHashes};
ghost use Rattle.turn_search.specs.Words.{ranks_of};
ghost use Rattle.turn_search.specs.Looks.{found_taken, is_open_under, RejectsBelow, IsCandidateBy};
ghost use Rattle.turn_search.specs.Passes.{IsPassOf, OnlyLooked, new_looks};

use crate::table::{Pass, TurnTable};
use divisor::Divisor;
use pilot_search::Scratch;

// So many pilots make a group.
const GROUP: u64 = 8;

impl<'a> TurnTable<'a> {
    // The least pilot from `first` on that is not rejected, and then its positions: one group after another while the
    // hashes of a whole group are kept.
    pub(crate) fn find_by_groups(
        &self,
        pass: &mut Pass,
        rank: u64,
        first: u64,
        scratch: &mut Scratch,
    ) -> Option<u64>
        requires pass { IsPassOf self.now pass.old }
        requires claim { pass.old.view.claim ≡ Some rank }
        requires rank { rank < ranks_of self.now.plan }
        requires room { most_members self.now.plan.buckets ≤ scratch.old.members }
        requires lower { RejectsBelow pass.old.view rank first }
        ensures pass { IsPassOf self.now pass.new }
        ensures looks { OnlyLooked pass.old.view pass.new.view }
        ensures room { scratch.new.members ≡ scratch.old.members }
        ensures lower { IfSome result (λ pilot. RejectsBelow pass.new.view rank pilot) }
        ensures found { let looks = new_looks pass.old.view pass.new.view in
            IfSome result (λ pilot. IsCandidateBy self.now.plan looks rank pilot) }
        ensures positions { let places = positions_at self.now.plan rank in
            IfSome result (λ pilot. scratch.new.positions ≡ places pilot) }
        ensures all_rejected { IfNone result
            (RejectsBelow pass.new.view rank self.now.plan.limit) }
    {
        let members = self.plan.members(rank);
        let end = self.plan.limit().min(self.hashes.len() as u64);
        let mut next = first;
        while end.saturating_sub(next) >= GROUP {
            match self.find_in_group(pass, rank, members, next, &self.size, &self.hashes, scratch) {
                Some(pilot) => return Some(pilot),
                None => {}
            }
            next += GROUP;
        }
        self.find_between(pass, rank, next, self.plan.limit(), scratch)
    }

    // The same among the pilots of a group.
    fn find_in_group(
        &self,
        pass: &mut Pass,
        rank: u64,
        members: &[u64],
        from: u64,
        size: &Divisor,
        hashes: &[u64],
        scratch: &mut Scratch,
    ) -> Option<u64>
        requires pass { IsPassOf self.now pass.old }
        requires claim { pass.old.view.claim ≡ Some rank }
        requires rank { rank < ranks_of self.now.plan }
        requires members { members.now ≡ (bucket_at self.now.plan.buckets rank).members }
        requires some { 1 ≤ length members.now }
        requires size { size.now ≡ self.now.plan.size }
        requires hashes { AreHashes self.now.plan.seed hashes.now }
        requires kept { from + GROUP ≤ length hashes.now }
        requires group { from + GROUP ≤ self.now.plan.limit }
        requires room { most_members self.now.plan.buckets ≤ scratch.old.members }
        requires lower { RejectsBelow pass.old.view rank from }
        ensures pass { IsPassOf self.now pass.new }
        ensures looks { OnlyLooked pass.old.view pass.new.view }
        ensures room { scratch.new.members ≡ scratch.old.members }
        ensures lower { IfSome result (λ pilot. RejectsBelow pass.new.view rank pilot) }
        ensures found { let looks = new_looks pass.old.view pass.new.view in
            IfSome result (λ pilot. IsCandidateBy self.now.plan looks rank pilot) }
        ensures positions { let places = positions_at self.now.plan rank in
            IfSome result (λ pilot. scratch.new.positions ≡ places pilot) }
        ensures all_rejected { IfNone result
            (RejectsBelow pass.new.view rank (from + GROUP)) }
    {
        let end = from + GROUP;
        let mut flags = self.group_flags(pass, rank, members, from, size, hashes);
        let mut next = from;
        while next < end {
            let skipped = flags.trailing_ones();
            let pilot = next + u64::from(skipped);
            if pilot >= end {
                return None;
            }
            if self.try_pilot(pass, rank, members, pilot, size, scratch) {
                return Some(pilot);
            }
            flags = flags >> skipped >> 1;
            next = pilot + 1;
        }
        None
    }

    // A bit for each pilot of a group: set where looks found the first or the second member's position taken.
    #[inline]
    fn group_flags(
        &self,
        pass: &mut Pass,
        rank: u64,
        members: &[u64],
        from: u64,
        size: &Divisor,
        hashes: &[u64],
    ) -> u64
        requires pass { IsPassOf self.now pass.old }
        requires claim { pass.old.view.claim ≡ Some rank }
        requires members { members.now ≡ (bucket_at self.now.plan.buckets rank).members }
        requires some { 1 ≤ length members.now }
        requires size { size.now ≡ self.now.plan.size }
        requires hashes { AreHashes self.now.plan.seed hashes.now }
        requires kept { from + GROUP ≤ length hashes.now }
        ensures pass { IsPassOf self.now pass.new }
        ensures looks { OnlyLooked pass.old.view pass.new.view }
        ensures bound { result < 256 }
        ensures fail { let view = pass.new.view in
            FailWhereSet (fits_at view.plan (found_taken view.looks) rank) from result }
    {
        let first = self.member_flags(pass, members[0], hashes, from, size);
        if members.len() == 1 {
            first
        } else {
            first | self.member_flags(pass, members[1], hashes, from, size)
        }
    }

    // The flags of one member.
    #[inline]
    fn member_flags(
        &self,
        pass: &mut Pass,
        member: u64,
        hashes: &[u64],
        from: u64,
        size: &Divisor,
    ) -> u64
        requires pass { IsPassOf self.now pass.old }
        requires claim { pass.old.view.claim ≢ None }
        requires size { size.now ≡ self.now.plan.size }
        requires kept { from + GROUP ≤ length hashes.now }
        ensures pass { IsPassOf self.now pass.new }
        ensures looks { OnlyLooked pass.old.view pass.new.view }
        ensures bound { result < 256 }
        ensures fail { let looks = pass.new.view.looks in
            FailWhereSet (is_open_under looks hashes.now member size.now) from result }
    {
        let last = from + (GROUP - 1);
        let mut flags = 0;
        for done in 0..GROUP {
            let hash = hashes[(last - done) as usize];
            let free = self.is_free(pass, size.remainder(member ^ hash));
            flags = 2 * flags + u64::from(!free);
        }
        flags
    }
}
