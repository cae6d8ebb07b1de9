// What a pass knows, and the rule that the words and all passes keep.

use atomic_table::{Seat, Table, TableRule};
use pilot_search::Plan;
use std::alloc::Global;

/// The value that a pass loaded from a word of the positions' bits, counted from the first of these.
pub struct Look {
    pub word: u64,
    pub value: u64,
}

/// What a pass knows. No value of it is made.
pub struct View {
    /// What is searched.
    pub plan: Plan,
    /// The next claim bit to try.
    pub place: u64,
    /// The rank that it has claimed.
    pub claim: Option<u64>,
    /// It has seen that it is its rank's turn.
    pub holds: bool,
    /// Its loads of words of the positions' bits since its claim. A clause reads an array as a list, of any length.
    pub looks: [Look; 0],
    /// How many looks it had when it got the turn.
    pub mark: u64,
    /// How many bits it has set for its rank.
    pub bits: u64,
    /// It has stored the pilot of its rank.
    pub wrote: bool,
    /// The value of the turn word that it loaded or made last.
    pub last: u64,
    /// How often it has loaded the turn word.
    pub loads: u64,
}

pub(crate) struct TurnRule;

impl TableRule<(), View, Plan> for TurnRule {
    ghost use Rattle.turn_search.specs.Rule.{Kept};
    ghost use Rattle.turn_search.specs.Steps.{new_view};

    ghost holds = { λ plan state. Kept plan state.words state.views };

    ghost first = { λ plan. new_view plan 0 };
}

pub(crate) type Board = Table<(), View, Plan, TurnRule, Global>;

pub(crate) type Place = Seat<(), View>;
