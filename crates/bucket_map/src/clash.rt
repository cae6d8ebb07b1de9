// The least two records with the same pair of hashes.

ghost use Rattle.std.specs.Prelude.{◌≡◌, ◌↔◌, AllPairs, IsNone, IfSome};
ghost use Rattle.std.specs.List.Sorted.{IsPermutation};
ghost use Rattle.bucket_map.specs.Clash.{Clash, HasDistinctPairs, HasDistinctOrdinals, IsLeastClash, IsNoLater, with_neighbours};

use pthash::Record;

/// Sorts the records and finds two with the same pair of hashes: by their ordinals, the earliest
/// record that repeats an earlier one, and the earliest that it repeats.
pub fn least_clash(records: &mut [Record]) -> Option<(u64, u64)>
    ensures none { IsNone result ↔ HasDistinctPairs records.old }
    ensures clash { IfSome result (λ c. Clash records.old c.0 c.1) }
    ensures least { HasDistinctOrdinals records.old
        → IfSome result (λ c. IsLeastClash records.old c.0 c.1) }

    ensures permutation { IsPermutation records.old records.new }
    ensures sorted { AllPairs IsNoLater records.new }
{
    sort_records(records);
    least_repeat(records)
}

fn sort_records(records: &mut [Record])
    ensures permutation { IsPermutation records.old records.new }
    ensures sorted { AllPairs IsNoLater records.new }
{
    records.sort_unstable_by_key(|r| (r.a, r.b, r.ordinal));
}

/// The same of records that are sorted by both hashes and then by ordinal.
pub fn least_repeat(records: &[Record]) -> Option<(u64, u64)>
    requires { AllPairs IsNoLater records.now }
    ensures none { IsNone result ↔ HasDistinctPairs records.now }
    ensures clash { IfSome result (λ c. Clash records.now c.0 c.1) }
    ensures least { HasDistinctOrdinals records.now
        → IfSome result (λ c. IsLeastClash records.now c.0 c.1) }
{
    let mut least = None;
    for k in 1..records.len() {
        least = with_neighbours(least, records[k - 1], records[k]);
    }
    least
}

// The least clash so far and of one more pair of neighbours.
fn with_neighbours(least: Option<(u64, u64)>, x: Record, y: Record) -> Option<(u64, u64)>
    ensures { result ≡ with_neighbours least x y }
{
    if x.a != y.a || x.b != y.b {
        return least;
    }
    match least {
        Some((_, j)) if j <= y.ordinal => least,
        _ => Some((x.ordinal, y.ordinal)),
    }
}
