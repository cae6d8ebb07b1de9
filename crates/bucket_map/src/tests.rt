// Sizes, buckets, partitions and clashes, beside those of an independent program.

use super::*;
use std::test::Fail;

#[test]
fn sizes_are_those_of_an_independent_program(rt: HostRuntime) {
    let cases: [(u64, u32, u32, u64, u64, u64); 14] = [
        (0, 98, 700, 0, 0, 0),
        (1, 98, 700, 3, 7, 2),
        (1, 100, 700, 2, 7, 2),
        (2, 100, 100, 3, 2, 0),
        (3, 100, 1500, 3, 45, 13),
        (31, 97, 700, 33, 55, 16),
        (63, 50, 333, 126, 42, 12),
        (1000, 98, 700, 1021, 778, 233),
        (1003, 98, 700, 1025, 781, 234),
        (67_108_864, 50, 700, 134_217_729, 18_067_772, 5_420_331),
        (67_108_864, 100, 1500, 67_108_865, 38_716_653, 11_614_995),
        (67_108_863, 98, 100, 68_478_432, 2_684_355, 805_306),
        (980, 98, 700, 1000, 763, 228),
        (65536, 100, 700, 65537, 28672, 8601),
    ];
    for (n, alpha, c, size, buckets, front) in cases {
        assert!(rt; n <= MAX_KEYS);
        assert!(rt; MIN_ALPHA <= alpha && alpha <= MAX_ALPHA && MIN_C <= c && c <= MAX_C);
        assert_eq!(rt; table_size(n, alpha), size, "size of {n}");
        let m = bucket_count(n, c);
        assert_eq!(rt; m, buckets, "buckets of {n}");
        assert_eq!(rt; front_count(m), front, "front buckets of {n}");
    }
}

#[test]
fn a_border_hash_is_a_back_hash(rt: HostRuntime) {
    let border = pthash::FRONT_HASHES;
    for (map, a, m, bucket) in [
        (Map::Skewed, border - 1, 7, 0),
        (Map::Skewed, border, 7, 6),
        (Map::Skewed, 5, 3, 2),
        (Map::Skewed, u64::MAX, 7, 2),
        (Map::Uniform, u64::MAX, 7, 1),
    ] {
        assert_eq!(rt; bucket_of(map, a, m), bucket, "bucket of {a}");
    }
    assert_eq!(rt; partition_of(u64::MAX, 0, 8), 7);
    assert_eq!(rt; partition_of(12345, 12345, 8), 0);
}

#[test]
fn the_larger_bucket_comes_first(rt: HostRuntime) -> Result<(), Fail> {
    let border = pthash::FRONT_HASHES;
    let seven = [
        0,
        1,
        border + 1,
        border + 4,
        border + 7,
        border + 2,
        border + 5,
    ];
    let four = [0, 1, 2, 4];
    let cases: [(Map, &[u64], &[(u64, &[u64])]); 3] = [
        (
            Map::Skewed,
            &seven,
            &[(2, &[12, 13, 14]), (0, &[10, 11]), (3, &[15, 16])],
        ),
        (Map::Skewed, &four, &[(0, &[10, 11, 12, 13])]),
        (
            Map::Uniform,
            &four,
            &[(0, &[10, 13]), (1, &[11]), (2, &[12])],
        ),
    ];
    for (map, hashes, wanted) in cases {
        let mut records = Vec::new(rt.alloc());
        for (i, a) in hashes.iter().enumerate() {
            let ordinal = i as u64;
            let b = 10 + ordinal;
            records.push(Record { a: *a, b, ordinal })?;
        }
        let buckets = ordered_buckets(rt.alloc(), &records, map, 4)?;
        assert_eq!(rt; buckets.len(), wanted.len() as u64);
        assert!(rt; buckets.len() > 0);
        assert_eq!(rt; buckets.largest(), buckets.members(0).len() as u64);
        for (rank, (number, members)) in wanted.iter().enumerate() {
            let rank = rank as u64;
            assert!(rt; rank < buckets.len());
            assert_eq!(rt; buckets.bucket(rank), *number);
            assert_eq!(rt; buckets.members(rank), *members);
        }
    }
    Ok(())
}

#[test]
fn the_least_repeated_ordinal_is_found(rt: HostRuntime) {
    let mut records = [(1, 1, 0), (2, 2, 1), (2, 2, 2), (1, 1, 3), (2, 2, 4)].map(|(
        a,
        b,
        ordinal,
    )| Record { a, b, ordinal });
    assert_eq!(rt; least_clash(&mut records), Some((1, 2)));
    assert_eq!(rt; least_clash(&mut records[..1]), None);
}

#[test]
fn each_partition_keeps_the_order_of_the_list(rt: HostRuntime) -> Result<(), Fail> {
    let mut records = Vec::new(rt.alloc());
    for (i, a) in [u64::MAX, 0, 1 << 63, 1, u64::MAX - 1].iter().enumerate() {
        let ordinal = i as u64;
        records.push(Record {
            a: *a,
            b: 0,
            ordinal,
        })?;
    }
    let partitions = partitioned(rt.alloc(), &records, 4)?;
    let wanted: [&[u64]; 4] = [&[1, 3], &[], &[2], &[0, 4]];
    assert_eq!(rt; partitions.len(), 4);
    for (partition, ordinals) in wanted.iter().enumerate() {
        let partition = partition as u64;
        assert!(rt; partition < partitions.len());
        let found = partitions.records(partition);
        assert_eq!(rt; found.len(), ordinals.len());
        for (r, ordinal) in found.iter().zip(*ordinals) {
            assert_eq!(rt; r.ordinal, *ordinal);
        }
    }
    Ok(())
}
