// What each kind of step tells the pass that takes it.

ghost use Rattle.turn_search.specs.Told.{ClaimTold, LoadTold, LookTold, BitTold, StoreTold, PassTold, StopTold};
ghost use Rattle.turn_search.specs.Steps.{new_view};

use crate::board::View;
use atomic_table::{Play, Split};

// Kind 1: a new pass that knows what the other has seen of the turn.
pub(crate) struct SplitStep;

impl Split<View> for SplitStep {
    ghost left = { λ view. view };

    ghost right = { λ view. new_view view.plan view.last };
}

// Kind 2: the claim bit at the place.
pub(crate) struct ClaimStep;

impl Play<(), View> for ClaimStep {
    ghost then = { ClaimTold };
}

// Kind 3: a load of the turn word.
pub(crate) struct LoadStep;

impl Play<(), View> for LoadStep {
    ghost then = { LoadTold };
}

// Kind 4: a load of a word of the positions' bits.
pub(crate) struct LookStep;

impl Play<(), View> for LookStep {
    ghost then = { LookTold };
}

// Kind 5: the bit of a position.
pub(crate) struct BitStep;

impl Play<(), View> for BitStep {
    ghost then = { BitTold };
}

// Kind 6: the pilot of the rank.
pub(crate) struct StoreStep;

impl Play<(), View> for StoreStep {
    ghost then = { StoreTold };
}

// Kind 7: the turn goes to the next rank.
pub(crate) struct PassStep;

impl Play<(), View> for PassStep {
    ghost then = { PassTold };
}

// Kind 8: the stop bit.
pub(crate) struct StopStep;

impl Play<(), View> for StopStep {
    ghost then = { StopTold };
}
