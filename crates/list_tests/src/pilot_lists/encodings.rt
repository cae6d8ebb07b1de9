// Lists of several lengths under every encoding, read again from what they write.
use super::{CODES, check_list};
use pilot_codecs::Encoding;
use std::test::*;

#[test]
fn every_encoding(rt: HostRuntime) -> Result<(), Fail> {
    // How many values, a large one at every so many of them, and the others, if all are the same.
    for (count, step, same) in [
        (255, 300, None),
        (256, 100, None),
        (257, 256, None),
        (1000, 700, None),
        (300, 301, Some(0)),
        (300, 301, Some(7)),
    ] {
        let mut values = Vec::new(rt.alloc());
        for i in 0..count {
            let large = i % step == step - 1;
            let other = same.unwrap_or(i % 5);
            values.push(if large { (1 << 32) - 2 } else { other })?;
        }
        for front in CODES {
            check_list(&rt, rt.alloc(), &values, Encoding { front, back: None })?;
            for code in CODES {
                let back = Some(code);
                check_list(&rt, rt.alloc(), &values, Encoding { front, back })?;
            }
        }
    }
    Ok(())
}
