// Files read whole.
use pth_outside::{MemFiles, WholeErr, read_whole};
use std::test::Fail;

#[test]
fn a_file_is_read_up_to_the_limit(rt: HostRuntime) -> Result<(), Fail> {
    let alloc = rt.alloc();
    for (text, most, read) in [
        (b"abcd".as_slice(), 4, true),
        (b"abcd", 3, false),
        (b"", 0, true),
        (b"a", 0, false),
    ] {
        let mut files = MemFiles::new(alloc, Vec::new(alloc), 3);
        files.put("f", text).ok().ok_or("memory")?;
        match read_whole(alloc, &mut files, "f", most) {
            Ok(bytes) => {
                assert!(rt; read, "{text:?} with most {most}");
                assert_eq!(rt; bytes.as_slice(), text);
            }
            Err(err) => {
                assert!(rt; !read, "{text:?} with most {most}");
                assert_eq!(rt; err, WholeErr::TooLarge);
            }
        }
    }
    Ok(())
}

#[test]
fn a_file_of_many_pieces_is_read_whole(rt: HostRuntime) -> Result<(), Fail> {
    let alloc = rt.alloc();
    let mut text = Vec::new(alloc);
    for i in 0..150_000u32 {
        text.push((i % 251) as u8)?;
    }
    for (most, read) in [(150_000, true), (149_999, false)] {
        let mut files = MemFiles::new(alloc, Vec::new(alloc), 100_000);
        files.put("f", &text).ok().ok_or("memory")?;
        match read_whole(alloc, &mut files, "f", most) {
            Ok(bytes) => {
                assert!(rt; read, "most {most}");
                assert!(rt; bytes == text, "most {most}");
            }
            Err(err) => {
                assert!(rt; !read, "most {most}");
                assert_eq!(rt; err, WholeErr::TooLarge);
            }
        }
    }
    Ok(())
}

// Three reads take the file, and the fourth would be one too many to fail.
#[test]
fn each_failing_read_is_a_fault(rt: HostRuntime) -> Result<(), Fail> {
    let alloc = rt.alloc();
    for (number, fault) in [(0u64, true), (1, true), (2, true), (3, false)] {
        let mut files = MemFiles::new(alloc, vec![in alloc; number]?, 2);
        files.put("f", b"abcd").ok().ok_or("memory")?;
        let err = read_whole(alloc, &mut files, "f", 4).err();
        assert_eq!(rt;
            err,
            if fault { Some(WholeErr::Fault) } else { None },
            "call {number}"
        );
    }
    let mut files = MemFiles::new(alloc, Vec::new(alloc), 2);
    let missing = read_whole(alloc, &mut files, "f", 4).err();
    assert_eq!(rt; missing, Some(WholeErr::Fault));
    Ok(())
}
