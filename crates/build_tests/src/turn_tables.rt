// Passes whose calls one thread makes in turn.

ghost use Rattle.std.specs.Prelude.{◌≡◌, ◌≤◌, None, IfSome};
ghost use Rattle.pthash.specs.Order.{most_members};
ghost use Rattle.turn_search.specs.Passes.{IsPassOf, IsOfRank};

use bucket_map::{Map, NoMemory, Record, ordered_buckets};
use pilot_search::{Plan, Scratch};
use std::alloc::Global;
use std::test::Fail;
use turn_search::{Candidate, Claim, Pass, Spec, Turn, TurnTable};

// The seed at which pilot 0 has the hash 0, so that a position is a second hash modulo the size.
const SEED_OF_ZERO: u64 = 3_829_533_694_005_038_248;

// Two buckets: the first takes the positions 0 and 1, and the second asks for `last` modulo 5.
pub(crate) fn two_buckets(alloc: Global, last: u64) -> Result<Plan, NoMemory> {
    let records = [
        Record {
            a: 0,
            b: 0,
            ordinal: 0,
        },
        Record {
            a: 2,
            b: 1,
            ordinal: 1,
        },
        Record {
            a: 1,
            b: last,
            ordinal: 2,
        },
    ];
    Ok(Plan {
        seed: SEED_OF_ZERO,
        size: 5,
        limit: 1,
        buckets: ordered_buckets(alloc, &records, Map::Skewed, 7)?,
    })
}

// Whether the pass claims a rank, and which.
fn claim_rank(table: &TurnTable<'_>, pass: &mut Pass) -> Option<u64>
    requires pass { IsPassOf table.now pass.old }
    requires no_claim { pass.old.view.claim ≡ None }
    ensures pass { IsPassOf table.now pass.new }
    ensures claim { pass.new.view.claim ≡ result }
{
    match table.claim(pass) {
        Claim::Mine { rank } => Some(rank),
        Claim::Nothing => None,
    }
}

// The pass has its turn: it tests its candidate again, and commits what it finds.
fn take_turn(
    table: &TurnTable<'_>,
    pass: &mut Pass,
    first: Candidate,
    scratch: &mut Scratch,
) -> Option<u64>
    requires pass { IsPassOf table.now pass.old }
    requires rank { IsOfRank pass.old.view first }
    requires room { most_members table.now.plan.buckets ≤ scratch.old.members }
    ensures pass { IsPassOf table.now pass.new }
    ensures claim { IfSome result (λ _. pass.new.view.claim ≡ None) }
    ensures room { scratch.new.members ≡ scratch.old.members }
{
    match table.look(pass) {
        Turn::Mine => match table.retest(pass, first, scratch) {
            Spec::Found(second) => {
                let pilot = second.pilot();
                table.commit(pass, second, scratch);
                Some(pilot)
            }
            Spec::AllRejected => None,
        },
        _ => None,
    }
}

// The pass has its turn, and no pilot is left: it stops the search.
fn stop_at_turn(
    table: &TurnTable<'_>,
    pass: &mut Pass,
    first: Candidate,
    scratch: &mut Scratch,
) -> bool
    requires pass { IsPassOf table.now pass.old }
    requires rank { IsOfRank pass.old.view first }
    requires room { most_members table.now.plan.buckets ≤ scratch.old.members }
    ensures pass { IsPassOf table.now pass.new }
    ensures claim { pass.new.view.claim ≡ pass.old.view.claim }
    ensures room { scratch.new.members ≡ scratch.old.members }
{
    match table.look(pass) {
        Turn::Mine => match table.retest(pass, first, scratch) {
            Spec::Found(_) => false,
            Spec::AllRejected => {
                table.stop(pass);
                true
            }
        },
        _ => false,
    }
}

#[test]
fn two_buckets_get_their_pilots_in_turn(rt: HostRuntime) -> Result<(), Fail> {
    let plan = two_buckets(rt.alloc(), 8)?;
    let mut scratch = Scratch::new(rt.alloc(), &plan)?;
    for last_closes in [false, true] {
        let (table, mut first) = TurnTable::new(rt.alloc(), &plan)?;
        let mut second = table.split(&mut first);
        let mut third = table.split(&mut first);
        assert_eq!(rt; claim_rank(&table, &mut first), Some(0));
        assert_eq!(rt; claim_rank(&table, &mut second), Some(1));
        assert_eq!(rt; table.claim(&mut third), Claim::Nothing);
        let Spec::Found(early) = table.speculate(&mut second, &mut scratch) else {
            panic!(rt; "the second bucket has no pilot")
        };
        assert_eq!(rt; (early.rank(), early.pilot()), (1, 0));
        assert_eq!(rt; table.look(&mut second), Turn::NotYet { turn: 0 });
        let Spec::Found(own) = table.speculate(&mut first, &mut scratch) else {
            panic!(rt; "the first bucket has no pilot")
        };
        assert_eq!(rt; take_turn(&table, &mut first, own, &mut scratch), Some(0));
        assert_eq!(rt;
            take_turn(&table, &mut second, early, &mut scratch),
            Some(0)
        );
        let ended = table.close(if last_closes { third } else { second });
        assert_eq!(rt; ended.pilots.as_slice(), [0, 0].as_slice());
        assert_eq!(rt; ended.stuck, None);
        assert_eq!(rt; ended.rest, 0);
    }
    Ok(())
}

#[test]
fn a_bucket_that_has_no_pilot_stops_the_search(rt: HostRuntime) -> Result<(), Fail> {
    let plan = two_buckets(rt.alloc(), 6)?;
    let mut scratch = Scratch::new(rt.alloc(), &plan)?;
    for first_closes in [false, true] {
        let (table, mut first) = TurnTable::new(rt.alloc(), &plan)?;
        let mut second = table.split(&mut first);
        assert_eq!(rt; claim_rank(&table, &mut first), Some(0));
        assert_eq!(rt; claim_rank(&table, &mut second), Some(1));
        let Spec::Found(early) = table.speculate(&mut second, &mut scratch) else {
            panic!(rt; "the second bucket has no pilot")
        };
        let Spec::Found(own) = table.speculate(&mut first, &mut scratch) else {
            panic!(rt; "the first bucket has no pilot")
        };
        assert_eq!(rt; take_turn(&table, &mut first, own, &mut scratch), Some(0));
        assert!(rt; stop_at_turn(&table, &mut second, early, &mut scratch));
        if !first_closes {
            assert_eq!(rt; table.look(&mut second), Turn::Stopped { rank: 1 });
        }
        assert_eq!(rt; table.claim(&mut first), Claim::Nothing);
        let ended = table.close(if first_closes { first } else { second });
        assert_eq!(rt; ended.pilots.as_slice(), [0].as_slice());
        assert_eq!(rt; ended.stuck, Some(1));
        assert_eq!(rt; ended.rest, 1);
    }
    Ok(())
}
