// Keys read from a file.
use pth_outside::{KeysErr, MemFiles, read_keys};
use std::test::Fail;

#[test]
fn keys_are_cut_at_line_feeds(rt: HostRuntime) -> Result<(), Fail> {
    let alloc = rt.alloc();
    for (text, most, want) in [
        (b"".as_slice(), 3, Ok(0)),
        (b"x\n\ny", 3, Ok(3)),
        (b"\n", 3, Ok(1)),
        (b"a\nb\nc\nd\n", 3, Err(KeysErr::TooMany)),
        (b"a\nb\n", 1, Err(KeysErr::TooMany)),
    ] {
        let mut files = MemFiles::new(alloc, Vec::new(alloc), 2);
        files.put("f", text).ok().ok_or("memory")?;
        let read = read_keys(alloc, &mut files, "f", most);
        assert_eq!(rt; read.map(|keys| keys.len()), want, "{text:?}");
    }
    Ok(())
}

// Seven reads take the file.
#[test]
fn each_failing_read_is_a_fault(rt: HostRuntime) -> Result<(), Fail> {
    let alloc = rt.alloc();
    for number in 0..8u64 {
        let mut files = MemFiles::new(alloc, vec![in alloc; number]?, 2);
        files.put("f", b"ab\n\ncde\nf").ok().ok_or("memory")?;
        match read_keys(alloc, &mut files, "f", 4) {
            Ok(keys) => {
                assert_eq!(rt; number, 7);
                assert_eq!(rt; keys.len(), 4);
                for (i, want) in [b"ab".as_slice(), b"", b"cde", b"f"].iter().enumerate() {
                    assert!(rt; (i as u64) < keys.len());
                    assert_eq!(rt; keys.key(i as u64), *want);
                }
            }
            Err(err) => {
                assert!(rt; number < 7, "call {number}");
                assert_eq!(rt; err, KeysErr::Fault, "call {number}");
            }
        }
    }
    Ok(())
}

#[test]
fn a_key_has_at_most_65535_bytes(rt: HostRuntime) -> Result<(), Fail> {
    let alloc = rt.alloc();
    for (len, want) in [(65535, Ok(1)), (65536, Err(KeysErr::TooLong { line: 1 }))] {
        let text = vec![in alloc; b'x'; len]?;
        let mut files = MemFiles::new(alloc, Vec::new(alloc), 70000);
        files.put("f", text.as_slice()).ok().ok_or("memory")?;
        let read = read_keys(alloc, &mut files, "f", 2);
        assert_eq!(rt; read.map(|keys| keys.len()), want, "{len} bytes");
    }
    Ok(())
}
