// The spelling of each code and pair of codes, as numbers.
use super::{MAX, NONE, check_text};
use pilot_codecs::Code::{Compact, Dict, EliasFano, Parted};
use pilot_codecs::Encoding;
use std::test::*;

#[test]
fn no_values(rt: HostRuntime) -> Result<(), Fail> {
    // The codes, and the numbers that spell the empty list.
    for (front, back, numbers) in [
        (Compact, None, [1].as_slice()),
        (Parted, None, NONE.as_slice()),
        (Dict, None, [0, 1].as_slice()),
        (EliasFano, None, [0, 0].as_slice()),
        (Compact, Some(Compact), [1, 1].as_slice()),
        (Compact, Some(Parted), [1].as_slice()),
        (Compact, Some(Dict), [1, 0, 1].as_slice()),
        (Compact, Some(EliasFano), [1, 0, 0].as_slice()),
        (Parted, Some(Compact), [1].as_slice()),
        (Parted, Some(Parted), NONE.as_slice()),
        (Parted, Some(Dict), [0, 1].as_slice()),
        (Parted, Some(EliasFano), [0, 0].as_slice()),
        (Dict, Some(Compact), [0, 1, 1].as_slice()),
        (Dict, Some(Parted), [0, 1].as_slice()),
        (Dict, Some(Dict), [0, 1, 0, 1].as_slice()),
        (Dict, Some(EliasFano), [0, 1, 0, 0].as_slice()),
        (EliasFano, Some(Compact), [0, 0, 1].as_slice()),
        (EliasFano, Some(Parted), [0, 0].as_slice()),
        (EliasFano, Some(Dict), [0, 0, 0, 1].as_slice()),
        (EliasFano, Some(EliasFano), [0, 0, 0, 0].as_slice()),
    ] {
        check_text(&rt, rt.alloc(), &NONE, Encoding { front, back }, numbers)?;
    }
    Ok(())
}

#[test]
fn one_value(rt: HostRuntime) -> Result<(), Fail> {
    // The codes, and the numbers that spell 7.
    for (front, back, numbers) in [
        (Compact, None, [3, 7].as_slice()),
        (Parted, None, [3, 7].as_slice()),
        (Dict, None, [1, 7, 1, 0].as_slice()),
        (EliasFano, None, [7, 3, 2].as_slice()),
        (Compact, Some(Compact), [1, 3, 7].as_slice()),
        (Compact, Some(Parted), [1, 3, 7].as_slice()),
        (Compact, Some(Dict), [1, 1, 7, 1, 0].as_slice()),
        (Compact, Some(EliasFano), [1, 7, 3, 2].as_slice()),
        (Parted, Some(Compact), [3, 7].as_slice()),
        (Parted, Some(Parted), [3, 7].as_slice()),
        (Parted, Some(Dict), [1, 7, 1, 0].as_slice()),
        (Parted, Some(EliasFano), [7, 3, 2].as_slice()),
        (Dict, Some(Compact), [0, 1, 3, 7].as_slice()),
        (Dict, Some(Parted), [0, 1, 3, 7].as_slice()),
        (Dict, Some(Dict), [0, 1, 1, 7, 1, 0].as_slice()),
        (Dict, Some(EliasFano), [0, 1, 7, 3, 2].as_slice()),
        (EliasFano, Some(Compact), [0, 0, 3, 7].as_slice()),
        (EliasFano, Some(Parted), [0, 0, 3, 7].as_slice()),
        (EliasFano, Some(Dict), [0, 0, 1, 7, 1, 0].as_slice()),
        (EliasFano, Some(EliasFano), [0, 0, 7, 3, 2].as_slice()),
    ] {
        check_text(&rt, rt.alloc(), &[7], Encoding { front, back }, numbers)?;
    }
    Ok(())
}

#[test]
fn three_values(rt: HostRuntime) -> Result<(), Fail> {
    // The codes, and the numbers that spell 9, 2, 7.
    for (front, back, numbers) in [
        (Compact, None, [4, 1833].as_slice()),
        (Parted, None, [4, 1833].as_slice()),
        (Dict, None, [3, 2, 7, 9, 2, 18].as_slice()),
        (EliasFano, None, [18, 45, 76].as_slice()),
        (Compact, Some(Compact), [1, 4, 1833].as_slice()),
        (Compact, Some(Parted), [1, 4, 1833].as_slice()),
        (Compact, Some(Dict), [1, 3, 2, 7, 9, 2, 18].as_slice()),
        (Compact, Some(EliasFano), [1, 18, 45, 76].as_slice()),
        (Parted, Some(Compact), [4, 1833].as_slice()),
        (Parted, Some(Parted), [4, 1833].as_slice()),
        (Parted, Some(Dict), [3, 2, 7, 9, 2, 18].as_slice()),
        (Parted, Some(EliasFano), [18, 45, 76].as_slice()),
        (Dict, Some(Compact), [0, 1, 4, 1833].as_slice()),
        (Dict, Some(Parted), [0, 1, 4, 1833].as_slice()),
        (Dict, Some(Dict), [0, 1, 3, 2, 7, 9, 2, 18].as_slice()),
        (Dict, Some(EliasFano), [0, 1, 18, 45, 76].as_slice()),
        (EliasFano, Some(Compact), [0, 0, 4, 1833].as_slice()),
        (EliasFano, Some(Parted), [0, 0, 4, 1833].as_slice()),
        (EliasFano, Some(Dict), [0, 0, 3, 2, 7, 9, 2, 18].as_slice()),
        (EliasFano, Some(EliasFano), [0, 0, 18, 45, 76].as_slice()),
    ] {
        check_text(
            &rt,
            rt.alloc(),
            &[9, 2, 7],
            Encoding { front, back },
            numbers,
        )?;
    }
    Ok(())
}

#[test]
fn groups(rt: HostRuntime) -> Result<(), Fail> {
    // The codes, how often a value comes, the value, the one that follows, and the numbers.
    for (front, back, times, value, last, numbers) in [
        (
            Parted,
            None,
            256,
            0,
            1000,
            [1, 0, 0, 0, 0, 10, 1000].as_slice(),
        ),
        (
            Parted,
            None,
            255,
            1,
            0,
            [1, MAX, MAX, MAX, 9223372036854775807].as_slice(),
        ),
        (
            Parted,
            None,
            255,
            0,
            1,
            [1, 0, 0, 0, 9223372036854775808].as_slice(),
        ),
        (
            Compact,
            None,
            255,
            1,
            0,
            [1, MAX, MAX, MAX, 9223372036854775807].as_slice(),
        ),
        (
            Compact,
            None,
            255,
            0,
            1,
            [1, 0, 0, 0, 9223372036854775808].as_slice(),
        ),
        (
            Dict,
            None,
            256,
            0,
            1000,
            [2, 0, 1000, 1, 0, 0, 0, 0, 1].as_slice(),
        ),
        (
            Dict,
            None,
            255,
            1,
            0,
            [2, 0, 1, 1, MAX, MAX, MAX, 9223372036854775807].as_slice(),
        ),
        (
            Dict,
            None,
            255,
            0,
            1,
            [2, 0, 1, 1, 0, 0, 0, 9223372036854775808].as_slice(),
        ),
        (
            EliasFano,
            None,
            256,
            0,
            1000,
            [
                1000,
                0,
                0,
                0,
                0,
                0,
                MAX,
                MAX,
                MAX,
                MAX,
                0,
                0,
                0,
                0,
                0,
                0,
                0,
                4503599627370496,
            ]
            .as_slice(),
        ),
        (
            EliasFano,
            None,
            255,
            1,
            0,
            [
                255,
                12297829382473034410,
                12297829382473034410,
                12297829382473034410,
                12297829382473034410,
                12297829382473034410,
                12297829382473034410,
                12297829382473034410,
                7686143364045646506,
            ]
            .as_slice(),
        ),
        (
            EliasFano,
            None,
            255,
            0,
            1,
            [1, MAX, MAX, MAX, 9223372036854775807, 1].as_slice(),
        ),
        (
            Dict,
            Some(Parted),
            255,
            1,
            0,
            [1, 1, 1, 0, 0, 1, MAX, MAX, 2251799813685247].as_slice(),
        ),
        (
            Dict,
            Some(Parted),
            255,
            0,
            1,
            [1, 0, 1, 0, 0, 1, 0, 0, 2251799813685248].as_slice(),
        ),
    ] {
        let mut values = Vec::new(rt.alloc());
        for _ in 0..times {
            values.push(value)?;
        }
        values.push(last)?;
        check_text(&rt, rt.alloc(), &values, Encoding { front, back }, numbers)?;
    }
    Ok(())
}
