// Files and a sink in memory.
use pth_outside::{FileErr, Files, MemFiles, MemSink, Sink, SinkErr};
use std::test::Fail;

#[test]
fn each_call_does_its_work(rt: HostRuntime) -> Result<(), Fail> {
    let alloc = rt.alloc();
    let mut files = MemFiles::new(alloc, Vec::new(alloc), 3);
    let mut into = [b'.'; 5];
    files.put("old", b"abcd").ok().ok_or("memory")?;
    assert_eq!(rt; files.read_at("old", 1, &mut into), Ok(3));
    assert_eq!(rt; into.as_slice(), b"bcd..".as_slice());
    assert_eq!(rt; files.read_at("old", 4, &mut into), Ok(0));

    assert_eq!(rt; files.create("new"), Ok(()));
    assert_eq!(rt; files.append("new", b"xy"), Ok(()));
    assert_eq!(rt; files.append("new", b"z"), Ok(()));
    assert_eq!(rt; files.publish("new", "old"), Ok(()));
    assert_eq!(rt; files.get("old"), Some(b"xyz".as_slice()));
    assert_eq!(rt; files.get("new"), None);
    assert!(rt; files.created("new"));
    assert!(rt; !files.created("old"));

    assert_eq!(rt; files.remove("old"), Ok(()));
    assert_eq!(rt; files.remove("old"), Err(FileErr::Failed));
    assert_eq!(rt; files.append("old", b"x"), Err(FileErr::Failed));
    assert_eq!(rt; files.publish("old", "new"), Err(FileErr::Failed));
    assert_eq!(rt; files.read_at("old", 0, &mut into), Err(FileErr::Failed));
    Ok(())
}

#[test]
fn the_listed_calls_fail(rt: HostRuntime) -> Result<(), Fail> {
    let alloc = rt.alloc();
    let mut files = MemFiles::new(alloc, vec![in alloc; 0u64, 2, 4, 6]?, 1);
    assert_eq!(rt; files.create("a"), Err(FileErr::Failed));
    assert_eq!(rt; files.create("a"), Ok(()));
    assert_eq!(rt; files.append("a", b"12345"), Err(FileErr::Failed));
    assert_eq!(rt; files.append("a", b"6"), Ok(()));
    assert_eq!(rt; files.publish("a", "b"), Err(FileErr::Failed));
    assert_eq!(rt; files.append("a", b"7"), Ok(()));
    assert_eq!(rt; files.remove("a"), Err(FileErr::Failed));
    assert_eq!(rt; files.get("a"), Some(b"1267".as_slice()));
    Ok(())
}

#[test]
fn a_failed_write_leaves_half(rt: HostRuntime) -> Result<(), Fail> {
    let alloc = rt.alloc();
    let mut sink = MemSink::new(alloc, vec![in alloc; 1u64]?);
    assert_eq!(rt; sink.write(b"ab"), Ok(()));
    assert_eq!(rt; sink.write(b"cdefg"), Err(SinkErr::Failed));
    assert_eq!(rt; sink.write(b"h"), Ok(()));
    assert_eq!(rt; sink.bytes(), b"abcdh".as_slice());
    Ok(())
}
