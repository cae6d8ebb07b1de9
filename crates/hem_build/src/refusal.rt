// Why no index was built.
ghost use Rattle.std.specs.Prelude.{◌≡◌};
ghost use Rattle.hem_build.specs.declared.refusal.Refusal.TheVariants.{NoMemory as OutOfMemory};

use bucket_map::NoMemory;
use build_outcome::Cause;

/// Why each seed did not succeed, in the order in which they were tried.
#[derive(Debug, Drop)]
pub struct Causes {
    pub list: Vec<Cause>,
}

/// Why no index was built.
#[derive(Debug, Drop)]
pub enum Refusal {
    /// The keys at these places, counted from 0, are equal.
    RepeatedKey { first: u64, second: u64 },
    /// No seed succeeded.
    SeedsExhausted { causes: Causes },
    NoMemory,
}

impl From<NoMemory> for Refusal {
    ghost from_gives = { λ _ e. e ≡ OutOfMemory };

    fn from(_: NoMemory) -> Self {
        Refusal::NoMemory
    }
}
