// How many values at the front are below a bound, under every encoding.
use super::{CODES, pilots_of};
use pilot_codecs::{Encoding, Pilots};
use std::alloc::Global;
use std::process::Abort;
use std::test::*;

// How many values at the front are below a bound, by a look at each.
fn below_by_each(list: &Pilots, bound: u64) -> u64 {
    for i in 0..list.len() {
        if list.get(i).unwrap_or(0) >= bound {
            return i;
        }
    }
    list.len()
}

fn check_below(
    rt: &impl Abort,
    alloc: Global,
    values: &[u64],
    enc: Encoding,
    bound: u64,
    below: u64,
) -> Result<(), Fail> {
    let list = pilots_of(rt, alloc, values, enc)?;
    assert_eq!(rt; list.below(bound), below, "{enc:?} {bound}");
    assert_eq!(rt; below_by_each(&list, bound), below, "{enc:?} {bound}");
    Ok(())
}

#[test]
fn bounds(rt: HostRuntime) -> Result<(), Fail> {
    // The place of a large value among 600 from 0 to 4, a bound, and how many at the front are below it.
    for (place, bound, below) in [
        (0, 5, 0),
        (255, 5, 255),
        (256, 5, 256),
        (599, 5, 599),
        (600, 5, 600),
        (255, 4, 4),
        (511, 1 << 31, 511),
        (511, 1 << 32, 600),
        (511, 0, 0),
    ] {
        let mut values = Vec::new(rt.alloc());
        for i in 0..600 {
            values.push(if i == place { (1 << 32) - 1 } else { i % 5 })?;
        }
        for front in CODES {
            let back = None;
            check_below(
                &rt,
                rt.alloc(),
                &values,
                Encoding { front, back },
                bound,
                below,
            )?;
            for code in CODES {
                let back = Some(code);
                check_below(
                    &rt,
                    rt.alloc(),
                    &values,
                    Encoding { front, back },
                    bound,
                    below,
                )?;
            }
        }
    }
    Ok(())
}
