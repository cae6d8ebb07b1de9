// Hashes that an independent program gave.
use super::*;

#[test]
fn hashes_are_those_of_an_independent_program(rt: HostRuntime) {
    let cases: [(&[u8], u64, u64); 14] = [
        (b"", 0, 0),
        (b"", 1, 0xc6a4_a793_5bd0_64dc),
        (b"", 0xffff_ffff_ffff_fffe, 0x777d_efef_88a7_076e),
        (&[0; 7], 0x6e80_9507_82bd_6313, 0),
        (&[0; 8], 0x3525_3c9a_de8f_4ca8, 0),
        (&[0; 9], 0xfbc9_e42e_3a61_363d, 0),
        (b"a", 0xc6a4_a793_5bd1_e9f4, 0),
        (b"a", 0, 0x0717_17d2_d36b_6b11),
        (b"abcdefg", 3, 0x2540_1102_52ca_aafc),
        (b"abcdefgh", 3, 0x9d0e_0268_286e_5992),
        (b"abcdefghi", 3, 0x309a_0fc2_35f1_d72c),
        (&[0; 16], 1, 0x105e_7153_9ee0_8fe5),
        (&[255; 31], u64::MAX, 0x8f81_62bb_c36c_f89f),
        (&[255; 32], 12345, 0xde45_cf09_8abe_082e),
    ];
    for (bytes, seed, hash) in cases {
        assert_eq!(rt; murmur64(bytes, seed), hash, "seed {seed}");
    }
}

#[test]
fn pairs_are_those_of_an_independent_program(rt: HostRuntime) {
    let cases: [(&[u8], u64, HashPair); 4] = [
        (
            b"apple",
            1,
            HashPair {
                a: 0x76e1_48d2_5b15_13f2,
                b: 0x9227_e146_f250_a51c,
            },
        ),
        (
            b"k0",
            1,
            HashPair {
                a: 0x6a0a_8c73_e9c1_201c,
                b: 0x5482_a4c3_3788_e287,
            },
        ),
        (
            b"k1999",
            8,
            HashPair {
                a: 0x6828_75da_8f14_a79f,
                b: 0x8bfe_7aec_d7e1_4c60,
            },
        ),
        (
            b"a",
            0,
            HashPair {
                a: 0x0717_17d2_d36b_6b11,
                b: 0x3434_d0b6_f5d6_7f81,
            },
        ),
    ];
    for (key, seed, pair) in cases {
        assert_eq!(rt; hash_pair(key, seed), pair, "seed {seed}");
    }
}

#[test]
fn pilot_hashes_are_those_of_an_independent_program(rt: HostRuntime) {
    let cases: [(u64, u64, u64); 5] = [
        (0, 0, 8_217_090_173_679_840_641),
        (1, 1, 5_833_352_340_892_006_082),
        (7, 1, 12_982_362_733_409_533_052),
        (16_777_215, 8, 16_778_396_237_004_748_789),
        (u64::MAX, u64::MAX, 1_317_380_444_104_773_032),
    ];
    for (pilot, seed, hash) in cases {
        assert_eq!(rt; pilot_hash(pilot, seed), hash, "pilot {pilot}");
    }
}
