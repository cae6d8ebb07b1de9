// The keys of a demonstration.
ghost use Rattle.std.specs.Prelude.{◌≤◌};
ghost use Rattle.command_words.specs.declared.demo.TheConstants.{MAX_DEMO_KEYS};

/// The most keys of a demonstration.
pub const MAX_DEMO_KEYS: u64 = 1_000_000;

/// The keys of a demonstration: how many, and the seed that they are made with.
#[derive(Clone, Copy, Debug, PartialEq, Eq)]
pub struct Demo {
    pub count: u64,
    pub seed: u64,
    pub ghost some: { 1 ≤ count },
    pub ghost few: { count ≤ MAX_DEMO_KEYS },
}
