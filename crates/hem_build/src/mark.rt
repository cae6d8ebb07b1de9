// The mark of a list of keys, from its records.
ghost use Rattle.std.specs.Prelude.{◌≡◌};
ghost use Rattle.hem_build.specs.Marks.{mark_by, added_marks};

use bucket_map::Record;
use build_outcome::KeyMark;

// The sum of the first hashes, which wraps, and the xor of the second ones.
pub(crate) fn mark_of_records(records: &[Record]) -> KeyMark
    ensures { result ≡ mark_by records.now }
{
    let mut sum: u64 = 0;
    let mut xor = 0;
    for record in records {
        sum = sum.wrapping_add(record.a);
        xor ^= record.b;
    }
    KeyMark { sum, xor }
}

// The mark of two lists together.
pub(crate) fn both_marks(first: KeyMark, second: KeyMark) -> KeyMark
    ensures { result ≡ added_marks first second }
{
    KeyMark {
        sum: first.sum.wrapping_add(second.sum),
        xor: first.xor ^ second.xor,
    }
}
