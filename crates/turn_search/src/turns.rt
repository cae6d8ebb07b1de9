// A pass sees whose turn it is.

ghost use Rattle.std.specs.Prelude.{◌≡◌, ◌≢◌, ℕ, ◌+◌, ◌<◌, ◌≤◌, None, Some, true};
ghost use Rattle.turn_search.specs.Words.{turn_of, HasStop};
ghost use Rattle.turn_search.specs.Steps.{after_load};
ghost use Rattle.turn_search.specs.Claims.{look_answer};
ghost use Rattle.turn_search.specs.Looks.{HasTurn};
ghost use Rattle.turn_search.specs.Told.{HasTurnIfHeld};
ghost use Rattle.turn_search.specs.Passes.{IsPassOf};
ghost use Rattle.turn_search.specs.declared.turns.Turn.TheVariants.{Mine, NotYet, Stopped};

use crate::layout::STOP;
use crate::plays::LoadStep;
use crate::table::{Pass, TurnTable};

/// Whose turn `TurnTable::look` found.
#[derive(Clone, Copy, Debug, PartialEq, Eq)]
pub enum Turn {
    /// It is the turn of the rank that the pass has claimed.
    Mine,
    /// It is the turn of a lower rank.
    NotYet { turn: u64 },
    /// The search is stuck at this rank.
    Stopped { rank: u64 },
}

impl<'a> TurnTable<'a> {
    /// Loads the turn word once.
    pub fn look(&self, pass: &mut Pass) -> Turn
        requires pass { IsPassOf self.now pass.old }
        requires claim { pass.old.view.claim ≢ None }
        ensures pass { IsPassOf self.now pass.new }
        // One load more, and of the rest only the turn may be new: the claim and the looks stay.
        ensures view { pass.new.view ≡ after_load pass.old.view pass.new.view.last }
        ensures answer { result ≡ look_answer pass.new.view }

        ensures mine { result ≡ Mine → (rank : ℕ) → pass.new.view.claim ≡ Some rank →
            HasTurn pass.new.view rank }
        ensures holds { result ≡ Mine → pass.new.view.holds ≡ true }
        ensures ahead { (turn rank : ℕ) → result ≡ NotYet turn →
            pass.old.view.claim ≡ Some rank → turn < rank }
        ensures never_back { turn_of pass.old.view.last ≤ turn_of pass.new.view.last }
        ensures stop_stays { HasStop pass.old.view.last →
            pass.new.view.last ≡ pass.old.view.last }
    {
        let found = self.load_turn(pass);
        let turn = found % STOP;
        if found >= STOP {
            Turn::Stopped { rank: turn }
        } else if turn == pass.rank() {
            Turn::Mine
        } else {
            Turn::NotYet { turn }
        }
    }

    // The turn word.
    fn load_turn(&self, pass: &mut Pass) -> u64
        requires pass { IsPassOf self.now pass.old }
        ensures pass { IsPassOf self.now pass.new }
        ensures view { pass.new.view ≡ after_load pass.old.view result }
        ensures claim { pass.old.view.claim ≡ pass.new.view.claim }
        ensures has_turn { HasTurnIfHeld pass.new.view }
        ensures never_back { turn_of pass.old.view.last ≤ turn_of result }
        ensures ahead { (rank : ℕ) → pass.old.view.claim ≡ Some rank →
            turn_of result ≤ rank }
        ensures stop_stays { HasStop pass.old.view.last → result ≡ pass.old.view.last }
    {
        self.board.shared.load::<LoadStep>(&mut pass.seat, 0)
    }
}
