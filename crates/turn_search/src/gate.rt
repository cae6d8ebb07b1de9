// What workers tell of their way.

/// What the workers of a search tell, for tests that hold one of them back or write down what they did.
pub trait Gate: Sync {
    /// A worker has tested pilots of its rank, whosever turn it was, and found this candidate.
    fn candidate(&self, rank: u64, pilot: u64);

    /// A worker has seen that it is its rank's turn, and hasn't yet tested again or stopped.
    fn turn(&self, rank: u64);
}

/// A gate that holds nobody back.
#[derive(Clone, Copy, Debug, Default, Drop)]
pub struct FreeGate;

impl Gate for FreeGate {
    #[inline]
    fn candidate(&self, _rank: u64, _pilot: u64) {}

    #[inline]
    fn turn(&self, _rank: u64) {}
}
