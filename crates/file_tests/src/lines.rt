// Lines read one by one.
use pth_outside::{Line, LineErr, LineReader, MemFiles};
use std::alloc::{AllocError, Global};
use std::test::Fail;

// As many letters.
fn letters(alloc: Global, len: usize) -> Result<Vec<u8>, AllocError> {
    vec![in alloc; b'x'; len]
}

#[test]
fn a_line_that_is_too_long_stays_so(rt: HostRuntime) -> Result<(), Fail> {
    let alloc = rt.alloc();
    let text = letters(alloc, 65536)?;
    let mut files = MemFiles::new(alloc, Vec::new(alloc), 40000);
    files.put("f", text.as_slice()).ok().ok_or("memory")?;
    let mut reader = LineReader::new(alloc, "f").ok().ok_or("memory")?;
    let mut line = Vec::new(alloc);
    let first = reader.next_line(&mut files, &mut line);
    assert_eq!(rt; first, Err(LineErr::TooLong { line: 1 }));
    let again = reader.next_line(&mut files, &mut line);
    assert_eq!(rt; again, Err(LineErr::TooLong { line: 1 }));
    Ok(())
}

#[test]
fn a_last_line_needs_no_feed(rt: HostRuntime) -> Result<(), Fail> {
    let alloc = rt.alloc();
    let mut files = MemFiles::new(alloc, Vec::new(alloc), 2);
    files.put("f", b"x\n\ny").ok().ok_or("memory")?;
    let mut reader = LineReader::new(alloc, "f").ok().ok_or("memory")?;
    let mut line = Vec::new(alloc);
    let first = reader.next_line(&mut files, &mut line);
    assert_eq!(rt; first, Ok(Line::Got));
    assert_eq!(rt; line.as_slice(), b"x".as_slice());
    let empty = reader.next_line(&mut files, &mut line);
    assert_eq!(rt; empty, Ok(Line::Got));
    assert_eq!(rt; line.as_slice(), b"".as_slice());
    let last = reader.next_line(&mut files, &mut line);
    assert_eq!(rt; last, Ok(Line::Got));
    assert_eq!(rt; line.as_slice(), b"y".as_slice());
    let end = reader.next_line(&mut files, &mut line);
    assert_eq!(rt; end, Ok(Line::End));
    Ok(())
}
