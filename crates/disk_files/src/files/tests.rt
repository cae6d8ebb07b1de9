// The calls on the files of the disk, also where the system refuses, and where other programs change the names.
use super::fake::FakeSystem;
use super::*;
use std::io::{ErrorKind, Write};
use std::os::fd::AsRawFd;
use std::os::unix::fs::symlink;
use std::test::Fail;
use std::{fs, io};

// What a read of four bytes leaves of dashes, and how many bytes it gives.
fn read_four<S: System>(
    files: &mut DiskFiles<'_, S>,
    name: &str,
    at: u64,
) -> Result<(usize, [u8; 4]), FileErr> {
    let mut into = *b"----";
    let count = files.read_at(name, at, &mut into)?;
    Ok((count, into))
}

// Whether a file holds these bytes.
fn holds(rt: &HostRuntime, name: &str, bytes: &[u8]) -> io::Result<bool> {
    Ok(fs::read(rt, name)?.as_slice() == bytes)
}

#[test]
fn a_read_begins_at_its_place(rt: HostRuntime) -> Result<(), Fail> {
    fs::write(&rt, "read.txt", "0123456789")?;
    let mut files = DiskFiles::new(rt.alloc(), &rt);
    for (at, count, bytes) in [
        (0, 4, *b"0123"),
        (4, 4, *b"4567"),
        (3, 4, *b"3456"),
        (8, 2, *b"89--"),
        (10, 0, *b"----"),
    ] {
        let read = read_four(&mut files, "read.txt", at);
        assert_eq!(rt; read, Ok((count, bytes)), "at {at}");
    }
    fs::remove_file(&rt, "read.txt")?;
    Ok(())
}

#[test]
fn a_pass_reads_one_file(rt: HostRuntime) -> Result<(), Fail> {
    fs::write(&rt, "list.txt", "old list")?;
    fs::write(&rt, "list.new", "new text")?;
    let mut files = DiskFiles::new(rt.alloc(), &rt);
    let first = read_four(&mut files, "list.txt", 0);
    fs::rename(&rt, "list.new", "list.txt")?;
    let second = read_four(&mut files, "list.txt", 4);
    let anew = read_four(&mut files, "list.txt", 0);
    let removed = files.remove("list.txt");
    let gone = read_four(&mut files, "list.txt", 4);
    assert_eq!(rt;
        [first, second, anew, gone],
        [
            Ok((4, *b"old ")),
            Ok((4, *b"list")),
            Ok((4, *b"new ")),
            Err(FileErr::Failed),
        ]
    );
    assert_eq!(rt; removed, Ok(()));
    Ok(())
}

#[test]
fn a_pipe_is_read_once(rt: HostRuntime) -> Result<(), Fail> {
    let (reader, mut writer) = io::pipe(&rt)?;
    writer.write_all(b"one two")?;
    drop(writer);
    let name = format!(in rt.alloc(); "/proc/self/fd/{}", reader.as_raw_fd())?;
    let mut files = DiskFiles::new(rt.alloc(), &rt);
    let reads = [
        read_four(&mut files, &name, 0),
        read_four(&mut files, &name, 4),
        read_four(&mut files, &name, 7),
        read_four(&mut files, &name, 3),
    ];
    assert_eq!(rt;
        reads,
        [
            Ok((4, *b"one ")),
            Ok((3, *b"two-")),
            Ok((0, *b"----")),
            Err(FileErr::Failed),
        ]
    );
    Ok(())
}

#[test]
fn a_failed_read_is_no_end(rt: HostRuntime) -> Result<(), Fail> {
    fs::write(&rt, "failed.txt", "1234")?;
    let (read, failed) = (Ok(2), Err(FileErr::Failed));
    // The open, a read, a read, the seek back, and a read, between which a signal may come.
    for (kind, number, answers, faults) in [
        (ErrorKind::Other, 1, [failed, read, read], 1),
        (ErrorKind::Other, 2, [failed, read, read], 1),
        (ErrorKind::Other, 3, [read, failed, read], 1),
        (ErrorKind::Other, 4, [read, read, failed], 1),
        (ErrorKind::Other, 5, [read, read, failed], 1),
        (ErrorKind::Interrupted, 2, [read; 3], 0),
        (ErrorKind::Interrupted, 3, [read; 3], 0),
        (ErrorKind::Interrupted, 5, [read; 3], 0),
    ] {
        let fake = FakeSystem::new(&rt, kind);
        let mut files = DiskFiles::new(rt.alloc(), &fake);
        fake.fail_at(number);
        let reads = [
            files.read_at("failed.txt", 0, &mut [0; 2]),
            files.read_at("failed.txt", 2, &mut [0; 2]),
            files.read_at("failed.txt", 1, &mut [0; 2]),
        ];
        assert_eq!(rt; (reads, files.faults), (answers, faults), "call {number}");
    }
    fs::remove_file(&rt, "failed.txt")?;
    Ok(())
}

#[test]
fn a_refused_call_is_counted(rt: HostRuntime) -> Result<(), Fail> {
    let mut files = DiskFiles::new(rt.alloc(), &rt);
    // A folder can be opened, and not read.
    let reads = [
        read_four(&mut files, "missing.txt", 0),
        read_four(&mut files, ".", 0),
        read_four(&mut files, ".", 1),
    ];
    let calls = [
        files.create("missing/new.txt"),
        files.create("."),
        files.append("missing.txt", b"two"),
        files.publish("missing.txt", "to.txt"),
        files.remove("missing.txt"),
    ];
    assert_eq!(rt; reads, [Err(FileErr::Failed); 3]);
    assert_eq!(rt; calls, [Err(FileErr::Failed); 5]);
    assert_eq!(rt; files.faults, 8);
    Ok(())
}

#[test]
fn a_created_file_takes_the_place_of_a_link(rt: HostRuntime) -> Result<(), Fail> {
    fs::write(&rt, "target.txt", "old")?;
    symlink(&rt, "target.txt", "link.txt")?;
    let mut files = DiskFiles::new(rt.alloc(), &rt);
    let made = [files.create("link.txt"), files.append("link.txt", b"new")];
    assert_eq!(rt; made, [Ok(()); 2]);
    assert!(rt; holds(&rt, "target.txt", b"old")?);
    assert!(rt; holds(&rt, "link.txt", b"new")?);
    assert_eq!(rt; files.create("link.txt"), Ok(()));
    assert!(rt; holds(&rt, "link.txt", b"")?);
    fs::remove_file(&rt, "target.txt")?;
    fs::remove_file(&rt, "link.txt")?;
    Ok(())
}

#[test]
fn a_piece_arrives_whole(rt: HostRuntime) -> Result<(), Fail> {
    fs::write(&rt, "append.txt", "one ")?;
    let fake = FakeSystem::new(&rt, ErrorKind::Interrupted);
    let mut files = DiskFiles::new(rt.alloc(), &fake);
    fake.fail_at(3);
    let appended = [
        files.append("append.txt", b"two, "),
        files.append("append.txt", b"three"),
    ];
    assert_eq!(rt; appended, [Ok(()); 2]);
    assert!(rt; holds(&rt, "append.txt", b"one two, three")?);
    fs::remove_file(&rt, "append.txt")?;
    Ok(())
}

#[test]
fn a_piece_goes_to_the_file_that_was_made(rt: HostRuntime) -> Result<(), Fail> {
    fs::write(&rt, "to.txt", "old")?;
    let mut files = DiskFiles::new(rt.alloc(), &rt);
    let created = files.create("made.txt");
    // Another program takes the name.
    fs::remove_file(&rt, "made.txt")?;
    fs::write(&rt, "made.txt", "other")?;
    let appended = files.append("made.txt", b"new");
    let published = files.publish("made.txt", "to.txt");
    assert_eq!(rt;
        [created, appended, published],
        [Ok(()), Ok(()), Err(FileErr::Failed)]
    );
    assert!(rt; holds(&rt, "made.txt", b"other")?);
    assert!(rt; holds(&rt, "to.txt", b"old")?);
    fs::remove_file(&rt, "made.txt")?;
    fs::remove_file(&rt, "to.txt")?;
    Ok(())
}

#[test]
fn a_refused_publication_leaves_the_old_file(rt: HostRuntime) -> Result<(), Fail> {
    // The sync of the file, the open of the folder, two looks at the name, the rename, and the sync of the folder.
    let left: [&[u8]; 6] = [b"old", b"old", b"old", b"old", b"old", b"new"];
    for (number, bytes) in (1u64..).zip(left) {
        fs::write(&rt, "old.txt", "old")?;
        let fake = FakeSystem::new(&rt, ErrorKind::Other);
        let mut files = DiskFiles::new(rt.alloc(), &fake);
        let made = [files.create("new.txt"), files.append("new.txt", b"new")];
        fake.fail_at(number);
        let published = files.publish("new.txt", "old.txt");
        assert_eq!(rt; made, [Ok(()); 2], "call {number}");
        assert_eq!(rt;
            (published, files.faults),
            (Err(FileErr::Failed), 1),
            "call {number}"
        );
        assert!(rt; holds(&rt, "old.txt", bytes)?, "call {number}");
    }
    fs::remove_file(&rt, "old.txt")?;
    Ok(())
}

#[test]
fn a_published_file_takes_the_place_of_another(rt: HostRuntime) -> Result<(), Fail> {
    fs::create_dir(&rt, "folder")?;
    fs::write(&rt, "folder/to.txt", "old")?;
    let mut files = DiskFiles::new(rt.alloc(), &rt);
    let calls = [
        files.create("folder/from.txt"),
        files.append("folder/from.txt", b"new"),
        files.publish("folder/from.txt", "folder/to.txt"),
        files.publish("folder/from.txt", "folder/to.txt"),
    ];
    assert_eq!(rt; calls, [Ok(()), Ok(()), Ok(()), Err(FileErr::Failed)]);
    assert!(rt; holds(&rt, "folder/to.txt", b"new")?);
    assert_eq!(rt; files.remove("folder/to.txt"), Ok(()));
    fs::remove_dir(&rt, "folder")?;
    Ok(())
}
