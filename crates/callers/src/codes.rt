// A list is spelled under a code.
ghost use Rattle.std.specs.Prelude.{◌≡◌, ◌≤◌, ◌<◌, ◌^◌, ℕ, None, length, slice_index, IfOk};
ghost use Rattle.pilot_codecs.specs.Spelling.{split_text};
ghost use Rattle.pilot_codecs.specs.declared.code.Code.TheVariants.{Dict};

use pilot_codecs::{Code, Encoding, NoMemory, Pilots};
use std::alloc::Global;

/// The spelling of a list by its distinct values.
pub fn dictionary(alloc: Global, values: &[u64]) -> Result<Vec<u8>, NoMemory>
    requires few { length values.now ≤ 2 ^ 30 }
    requires small { (i : ℕ) → slice_index values.now i < 2 ^ 32 }
    ensures { IfOk result (λ bytes. bytes.items ≡ split_text Dict None values.now) }
{
    let enc = Encoding {
        front: Code::Dict,
        back: None,
    };
    let mut bytes = Vec::new(alloc);
    Pilots::encode(alloc, values, enc)?.write(&mut bytes)?;
    Ok(bytes)
}
