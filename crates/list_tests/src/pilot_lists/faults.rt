// The first fault of a spelling, and what is read where there is none.
use super::{NONE, bytes_of, check_values, read_all};
use pilot_codecs::Code::{Compact, Dict, EliasFano, Parted};
use pilot_codecs::{Encoding, FormFault, ReadErr};
use std::test::*;

#[test]
fn faults(rt: HostRuntime) -> Result<(), Fail> {
    // The codes, the count, the numbers, and the kind and the place of the fault.
    for (front, back, count, numbers, kind, at) in [
        (Compact, None, 1, [2, 1].as_slice(), 2, 0),
        (Compact, None, 1, [1, 3].as_slice(), 3, 8),
        (Compact, None, 0, [2].as_slice(), 2, 0),
        (Compact, None, 0, NONE.as_slice(), 1, 0),
        (Compact, None, 3, [0, 0].as_slice(), 2, 0),
        (Compact, None, 3, [65, 0].as_slice(), 2, 0),
        (Compact, None, 1, [64].as_slice(), 1, 8),
        (Dict, None, 2, [2, 5, 5, 1, 2].as_slice(), 4, 16),
        (Dict, None, 1, [2, 5, 6, 1, 0].as_slice(), 5, 0),
        (Dict, None, 2, [3, 5, 6, 7, 2, 4].as_slice(), 5, 0),
        (Dict, None, 2, [0, 1, 0].as_slice(), 5, 0),
        (Dict, None, 0, [0, 2].as_slice(), 2, 8),
        (Dict, None, 3, [1, 5, 1, 8].as_slice(), 3, 24),
        (Dict, None, 3, [2, 5, 6, 2, 2].as_slice(), 5, 32),
        (Dict, None, 3, [3, 2, 7, 9, 2, 19].as_slice(), 5, 40),
        (Dict, None, 67108864, [5, 1].as_slice(), 1, 8),
        (EliasFano, None, 3, [5, 41].as_slice(), 6, 0),
        (EliasFano, None, 0, [0, 1].as_slice(), 5, 8),
        (
            Dict,
            Some(Dict),
            7,
            [1, 0, 1, 4, 1, 0, 1, 0].as_slice(),
            3,
            24,
        ),
    ] {
        let bytes = bytes_of(rt.alloc(), numbers)?;
        match read_all(&rt, rt.alloc(), &bytes, count, Encoding { front, back }) {
            Ok(_) => return Err("there is a fault".into()),
            Err(e) => assert_eq!(rt; e, ReadErr::Form(FormFault { at, kind })),
        }
    }
    Ok(())
}

#[test]
fn what_is_read(rt: HostRuntime) -> Result<(), Fail> {
    // The codes, the numbers, the values, and the place after them.
    for (front, back, numbers, values, after) in [
        (Compact, None, [1, 1].as_slice(), [1].as_slice(), 16),
        (Compact, None, [1].as_slice(), NONE.as_slice(), 8),
        (Compact, None, [3, 7].as_slice(), [7, 0, 0].as_slice(), 16),
        (Compact, None, [3, 455].as_slice(), [7, 0, 7].as_slice(), 16),
        (
            Compact,
            None,
            [64, 9223372036854775808].as_slice(),
            [9223372036854775808].as_slice(),
            16,
        ),
        (
            Dict,
            None,
            [2, 5, 6, 1, 2].as_slice(),
            [5, 6].as_slice(),
            40,
        ),
        (Dict, None, [0, 1].as_slice(), NONE.as_slice(), 16),
        (
            Dict,
            None,
            [1, 5, 1, 0].as_slice(),
            [5, 5, 5].as_slice(),
            32,
        ),
        (
            Dict,
            None,
            [3, 2, 7, 9, 2, 18].as_slice(),
            [9, 2, 7].as_slice(),
            48,
        ),
        (
            EliasFano,
            None,
            [5, 145].as_slice(),
            [0, 3, 2].as_slice(),
            16,
        ),
        (EliasFano, None, [0, 0].as_slice(), NONE.as_slice(), 16),
        (Parted, None, NONE.as_slice(), NONE.as_slice(), 0),
        (Parted, None, [1, 2].as_slice(), [0, 1].as_slice(), 16),
        (Parted, None, [1, 2, 9].as_slice(), [0, 1].as_slice(), 16),
        (
            Dict,
            Some(Dict),
            [1, 0, 1, 0, 1, 0, 1, 0].as_slice(),
            [0, 0, 0, 0, 0, 0, 0].as_slice(),
            64,
        ),
        (
            Compact,
            Some(EliasFano),
            [1, 0, 1].as_slice(),
            [0].as_slice(),
            24,
        ),
        (
            EliasFano,
            Some(Compact),
            [0, 0, 1, 1].as_slice(),
            [1].as_slice(),
            32,
        ),
        (
            Parted,
            Some(Dict),
            [1, 5, 1, 0].as_slice(),
            [5, 5, 5].as_slice(),
            32,
        ),
    ] {
        let bytes = bytes_of(rt.alloc(), numbers)?;
        let (list, place) = read_all(
            &rt,
            rt.alloc(),
            &bytes,
            values.len() as u64,
            Encoding { front, back },
        )?;
        assert_eq!(rt; place, after);
        check_values(&rt, &list, values);
    }
    Ok(())
}
