// A small file is read whole.
ghost use Rattle.std.specs.Prelude.{◌≡◌};

use pth_outside::{Files, read_whole};
use std::alloc::Global;

/// The bytes of a file that has at most 1,000, or `None`.
pub fn small<F: Files>(alloc: Global, files: &mut F, name: &str) -> Option<Vec<u8>>
    ensures { (F.state files.new).told ≡ (F.state files.old).told }
{
    read_whole(alloc, files, name, 1000).ok()
}
