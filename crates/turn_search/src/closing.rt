// What a search that is over has come to.

ghost use Rattle.std.specs.Prelude.{◌≡◌, ◌+◌, ◌≤◌, take, drop, length};
ghost use Rattle.std.specs.Slots.{slots_items, IsFull};
ghost use Rattle.turn_search.specs.Closings.{IsEndOf, stuck_in};
ghost use Rattle.turn_search.specs.Passes.{IsPassOf};

use crate::layout::{STOP, pilots_from};
use crate::table::{Pass, TurnTable};
use atomic_table::Closed;
use std::alloc::Global;

/// The pilots of the first ranks, the rank at which the search is stuck, and how many ranks have no pilot.
#[derive(Drop)]
pub struct Ended {
    pub pilots: Vec<u64>,
    pub stuck: Option<u64>,
    pub rest: u64,
}

impl<'a> TurnTable<'a> {
    /// Ends the search of this table where it stands, which is no earlier than the pass has seen.
    pub fn close(self, pass: Pass) -> Ended
        requires pass { IsPassOf self pass }
        ensures { IsEndOf self.entry pass.view result }
    {
        let TurnTable {
            plan,
            board,
            mut pilots,
            ..
        } = self;
        let Pass { seat, place: _ } = pass;
        let closed = board.close_with(seat);
        let last = closed.word(0);
        let turn = last % STOP;
        copy_pilots(&closed, pilots_from(plan), pilots.as_mut_slice(), turn);
        closed.free();
        pilots.truncate(turn as usize);
        Ended {
            pilots,
            stuck: stuck_in(last),
            rest: plan.ranks() - turn,
        }
    }
}

// The rank at which a value of the turn word says that the search is stuck.
fn stuck_in(last: u64) -> Option<u64>
    ensures { result ≡ stuck_in last }
{
    if last >= STOP {
        Some(last % STOP)
    } else {
        None
    }
}

// Copies the words of the first pilots.
fn copy_pilots(closed: &Closed<(), Global>, from: u64, pilots: &mut [u64], count: u64)
    requires full { IsFull closed.now.words }
    requires within { from + count ≤ length (slots_items closed.now.words) }
    requires room { count ≤ length pilots.old }
    ensures len { length pilots.new ≡ length pilots.old }
    ensures copied { take count pilots.new
        ≡ take count (drop from (slots_items closed.now.words)) }
{
    for rank in 0..count {
        pilots[rank as usize] = closed.word((from + rank) as usize);
    }
}
