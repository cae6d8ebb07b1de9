// Who searches the pilots of a partition.

/// How the pilots of a partition are searched: by one thread, or by this many workers, in rounds or by turns.
#[derive(Clone, Copy, Debug, PartialEq, Eq)]
pub enum How {
    Alone,
    Rounds(u32),
    Turns(u32),
}
