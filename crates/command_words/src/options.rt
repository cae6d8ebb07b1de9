// What the settings of a command come to.
ghost use Rattle.std.specs.Prelude.{◌≤◌};
ghost use Rattle.pthash.specs.declared.TheConstants.{MAX_KEYS};
ghost use Rattle.settings.specs.declared.settings.TheConstants.{MAX_BLOCKS};

use settings::{Encoding, Settings};

/// The settings of a build, how its pilots are kept, how many blocks of memory its records may take (0 for all that
/// they need), and the most keys.
#[derive(Debug, Drop)]
pub struct Options {
    pub settings: Settings,
    pub enc: Encoding,
    pub blocks: u32,
    pub most: u64,
    pub ghost few_blocks: { blocks ≤ MAX_BLOCKS },
    pub ghost some_key: { 1 ≤ most },
    pub ghost few_keys: { most ≤ MAX_KEYS },
}
