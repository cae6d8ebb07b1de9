// Lists of keys, and what the checks of other lists against them come to.
use key_check::Checked;

pub(super) const FIVE: [&str; 5] = ["k0", "k1", "k2", "k3", "k4"];

pub(super) const TWENTY_ONE: [&str; 21] = [
    "k0", "k1", "k2", "k3", "k4", "k5", "k6", "k7", "k8", "k9", "k10", "k11", "k12", "k13", "k14",
    "k15", "k16", "k17", "k18", "k19", "k20",
];

// The keys that a demonstration makes of 40 numbers at seed 3.
pub(super) const FORTY: [&str; 40] = [
    "29de944e0037abd2",
    "1be1cf92bd40fd85",
    "7ab6ca98a9ae652d",
    "6e2e81528864f29a",
    "c727a3b362d4596a",
    "97619086688cc3c2",
    "2cfed0775f20c78b",
    "70c4e07768f515a8",
    "5a2b85a91498aedd",
    "992989f72c5dcc12",
    "8986b7914e537478",
    "5994d7249231fd47",
    "9f3b7d611ed21c67",
    "9bbe1053d2e3bc2e",
    "d390c15a80c7edb3",
    "4e593e595dc328b5",
    "3b1976d841af1a25",
    "aa6d983353650f4f",
    "39cf7da187d495ba",
    "d48670f725932ee2",
    "484f8fe8c523fb11",
    "09bbca38c3c49f91",
    "dace56fb1620ed96",
    "df3376cd60bdb129",
    "2eb8a6e8f8108791",
    "0c465bbb107aa079",
    "0495b1835c3c64db",
    "0968953501a11d26",
    "0ee0b1998b964ef4",
    "d126e6f0cb9d1ba7",
    "018cb4592c4e3f5a",
    "5084c76dfaefd2b4",
    "e14d2aa1ba46012d",
    "51420b3fe240ba14",
    "a3896f2ec3528606",
    "92a1bcfed2c766e9",
    "a4effdce2383c593",
    "0c78d208f10f8c03",
    "25e9b662faee53e9",
    "ba11aa2bd527c757",
];

const LETTERS: &[u8] = b"a\nb\nc\nd\ne\nf\n";

const EMPTY_KEY: [&str; 1] = [""];

// Keys, the number of partitions of their index, other lines, and what the check of these comes to.
pub(super) const OTHER_LISTS: [(&[&str], u32, &[u8], Checked); 11] = [
    (&EMPTY_KEY, 1, b"", Checked::Counts { n: 1, lines: 0 }),
    (
        &EMPTY_KEY,
        1,
        LETTERS,
        Checked::Repeats {
            line: 2,
            earlier: 1,
        },
    ),
    (
        &EMPTY_KEY,
        1,
        b"\n\n",
        Checked::Repeats {
            line: 2,
            earlier: 1,
        },
    ),
    (&EMPTY_KEY, 8, LETTERS, Checked::NoValue { line: 1 }),
    (
        &EMPTY_KEY,
        8,
        b"\n\n",
        Checked::Repeats {
            line: 2,
            earlier: 1,
        },
    ),
    (&FIVE, 1, b"x\n", Checked::Counts { n: 5, lines: 1 }),
    (
        &FIVE,
        1,
        LETTERS,
        Checked::Repeats {
            line: 4,
            earlier: 2,
        },
    ),
    (&TWENTY_ONE, 4, b"x\n", Checked::Counts { n: 21, lines: 1 }),
    (
        &TWENTY_ONE,
        4,
        LETTERS,
        Checked::Repeats {
            line: 3,
            earlier: 2,
        },
    ),
    (&FORTY, 64, b"x\n", Checked::NoValue { line: 1 }),
    (&FORTY, 64, LETTERS, Checked::NoValue { line: 1 }),
];
