// The table and its passes.

ghost use Rattle.std.specs.Prelude.{◌≡◌, ◌≢◌, ◌<◌, IfOk, Some, None, []};
ghost use Rattle.turn_search.specs.Words.{ranks_of, word_count};
ghost use Rattle.turn_search.specs.Steps.{new_view};
ghost use Rattle.turn_search.specs.Passes.{IsPassOf};

use crate::board::{Board, Place};
use crate::hashes::hashes_of;
use crate::layout::{bits_from, word_count};
use crate::plays::SplitStep;
use atomic_table::Table;
use bucket_map::NoMemory;
use divisor::Divisor;
use pilot_search::Plan;
use std::alloc::{AllocError, Global};
use std::marker::Model;

/// A search that passes share: whose turn it is, which ranks are claimed, which positions are taken, and the pilots.
#[derive(Drop)]
pub struct TurnTable<'a> {
    pub(crate) plan: &'a Plan,
    pub(crate) board: Board,
    // room for the pilots that `close` answers
    pub(crate) pilots: Vec<u64>,
    // the first word of the positions' bits
    pub(crate) bits: u64,
    pub(crate) size: Divisor,
    // the hashes of the first pilots
    pub(crate) hashes: Vec<u64>,
}

impl<'a> Model for TurnTable<'a> {
    ghost use Rattle.turn_search.specs.Passes.{TurnTableData, IsLaid};

    ghost Value = { TurnTableData };

    ghost view = { λ a. record { plan = a.plan.now; table = a.board.shared.table_id } };

    ghost invariant = { λ a. let shared = a.board.shared in
        IsLaid a.plan.now shared.key shared.table_id.words shared.table_id.slots a.pilots.items
        a.bits a.size a.hashes.items };
}

/// What one worker carries through a search: its claim, and what it has found.
#[derive(Drop)]
pub struct Pass {
    pub(crate) seat: Place,
    pub(crate) place: u64,
}

impl Model for Pass {
    ghost use Rattle.turn_search.specs.Passes.{PassData, IsSeated};

    ghost Value = { PassData };

    ghost view = { λ a. record { table = a.seat.table_id; view = a.seat.me.0 } };

    ghost invariant = { λ a. IsSeated a.seat.me a.place };
}

impl Pass {
    // The claimed rank is the one before the place.
    #[inline]
    pub(crate) fn rank(&self) -> u64
        requires { self.now.view.claim ≢ None }
        ensures rank { self.now.view.claim ≡ Some result }
        ensures within { result < ranks_of self.now.view.plan }
    {
        self.place - 1
    }
}

impl<'a> TurnTable<'a> {
    /// A table at the first turn, and its first pass.
    pub fn new(alloc: Global, plan: &'a Plan) -> Result<(Self, Pass), NoMemory>
        ensures plan { IfOk result (λ made. made.0.plan ≡ plan.now) }
        ensures pass { IfOk result (λ made. IsPassOf made.0 made.1) }
        ensures view { IfOk result (λ made. made.1.view ≡ new_view plan.now 0) }
    {
        let pilots = vec![in alloc; 0; plan.ranks() as usize]?;
        let hashes = hashes_of(alloc, plan)?;
        let (board, seat) = lay(alloc, plan)?;
        let table = Self {
            plan,
            board,
            pilots,
            bits: bits_from(plan),
            size: Divisor::new(plan.size()),
            hashes,
        };
        let place = 0;
        Ok((table, Pass { seat, place }))
    }

    /// One more pass, which has seen of the turn what this one has.
    pub fn split(&self, pass: &mut Pass) -> Pass
        requires pass { IsPassOf self.now pass.old }
        requires no_claim { pass.old.view.claim ≡ None }
        ensures kept { pass.new ≡ pass.old }
        ensures pass { IsPassOf self.now result }
        ensures view { result.view ≡ new_view self.now.plan pass.old.view.last }
    {
        Pass {
            seat: self.board.shared.split_seat::<SplitStep>(&mut pass.seat),
            place: 0,
        }
    }
}

// Words of zeros for a plan, and the first seat.
fn lay(alloc: Global, plan: &Plan) -> Result<(Board, Place), AllocError>
    ensures key { IfOk result (λ made. made.0.shared.key ≡ plan.now) }
    ensures words { IfOk result (λ made. made.0.shared.table_id.words ≡ word_count plan.now) }
    ensures slots { IfOk result (λ made. made.0.shared.table_id.slots ≡ 0) }
    ensures seat { IfOk result (λ made. made.1.table_id ≡ made.0.shared.table_id) }
    ensures view { IfOk result (λ made. made.1.me ≡ (new_view plan.now 0, [])) }
{
    let words = vec![in alloc; 0; word_count(plan) as usize]?;
    Table::of_words(alloc, &words, plan)
}
