// How many workers a search has.
ghost use Rattle.std.specs.Prelude.{◌≡◌};
ghost use Rattle.settings.specs.Workers.{workers_of};

use settings::How;

pub(crate) fn worker_count(how: How) -> u32
    ensures { result ≡ workers_of how }
{
    match how {
        How::Alone => 1,
        How::Rounds(workers) | How::Turns(workers) => workers,
    }
}
