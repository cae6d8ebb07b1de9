// The last value of a list that doesn't fall.
ghost use Rattle.std.specs.Prelude.{◌≡◌, ◌-◌, length};
ghost use Rattle.std.specs.List.{slice_get};

use elias_fano::EliasFano;

/// The last value, or `None` where the list is empty.
pub fn last(list: &EliasFano) -> Option<u64>
    ensures { result ≡ slice_get list.now (length list.now - 1) }
{
    list.get(list.len().saturating_sub(1))
}
