// The lines of a file, one after another.
ghost use Rattle.std.specs.Prelude.{◌≡◌, ◌+◌, ◌<◌, ◌≤◌, ◌^◌, ℕ, [], ◌∷◌, Ok, None, IfOk, IfSome, OnOk, OnErr, IsErrOf, vec_len};
ghost use Rattle.pth_outside.specs.Files.{ReadsFiles, contents, IsThere};
ghost use Rattle.pth_outside.specs.Reading.{IsInStep, HasLeft, lines_left, IsAt, IsStuck, IsNextLine, IsTooLong};
ghost use Rattle.pth_outside.specs.declared.line_reader.LineErr.TheVariants.{NoMemory as OutOfMemory};

use crate::whole::zeros;
use crate::{FileErr, Files, LONGEST_KEY, NoMemory};
use std::alloc::{AllocError, AllocFailed, Global};
use std::marker::Model;

mod ahead;

// The longest key with its line feed.
const BUFFER: usize = 65536;

/// Reads the lines of one file in their order, through a buffer that holds the longest one.
#[derive(Drop)]
pub struct LineReader {
    name: String,
    buffer: Vec<u8>,
    start: usize,
    end: usize,
    place: u64,
    lines: u64,
}

impl Model for LineReader {
    ghost use Rattle.std.specs.Prelude.{ℕ, length, take, drop, ◌-◌, string_bytes};
    ghost use Rattle.pth_outside.specs.Reading.{Reader};
    ghost use Rattle.pth_outside.specs.ReaderFields.{AreFields};

    ghost Value = { Reader };

    ghost view = { λ r. record {
      name = string_bytes r.name;
      place = r.place;
      ahead = take (r.end - r.start) (drop r.start r.buffer.items);
      lines = r.lines;
    } };

    ghost invariant = { λ r. AreFields (length r.buffer.items) r.start r.end r.place r.lines };
}

/// What `next_line` found.
#[derive(Clone, Copy, Debug, PartialEq, Eq)]
pub enum Line {
    Got,
    End,
}

/// Why there is no line.
#[derive(Clone, Copy, Debug, PartialEq, Eq)]
pub enum LineErr {
    /// The file is missing, or the outside failed.
    Fault,
    /// The line with this number, counted from 1, has more bytes than a key may have.
    TooLong { line: u64 },
    NoMemory,
}

impl From<AllocError> for LineErr {
    ghost from_gives = { λ _ e. e ≡ OutOfMemory };

    fn from(_: AllocError) -> Self {
        LineErr::NoMemory
    }
}

impl<T: Drop> From<AllocFailed<T>> for LineErr {
    ghost from_gives = { λ _ e. e ≡ OutOfMemory };

    fn from(_: AllocFailed<T>) -> Self {
        LineErr::NoMemory
    }
}

// The bytes of a line, and those that it takes of the file with its feed.
#[derive(Clone, Copy)]
pub(crate) struct Span {
    pub(crate) len: usize,
    pub(crate) whole: usize,
}

impl LineReader {
    /// Stands at the start of a file.
    pub fn new(alloc: Global, name: &str) -> Result<Self, NoMemory>
        ensures name { IfOk result (λ r. r.name ≡ name.now) }
        ensures place { IfOk result (λ r. r.place ≡ 0) }
        ensures ahead { IfOk result (λ r. r.ahead ≡ []) }
        ensures lines { IfOk result (λ r. r.lines ≡ 0) }
    {
        Ok(LineReader {
            name: String::from_str(alloc, name)?,
            buffer: zeros(alloc, BUFFER)?,
            start: 0,
            end: 0,
            place: 0,
            lines: 0,
        })
    }

    // Reads on until a whole line is ahead, or the file's end.
    pub(crate) fn find_line<F: Files>(&mut self, files: &mut F) -> Result<Option<Span>, LineErr>
        requires { self.old.lines < 2 ^ 40 }
        ensures at { IsAt self.old self.new }
        ensures step { IsInStep self.old (F.state files.old).told →
            IsInStep self.new (F.state files.old).told }
        ensures line { IfOk result (λ found. IfSome found (λ span.
            IsNextLine self.new (F.state files.old).told span.len span.whole)) }
        ensures end { result ≡ Ok None →
            HasLeft self.old (F.state files.old).told (λ _. []) }
        ensures too_long { (line : ℕ) → IsErrOf result (LineErr.TooLong line) →
            IsTooLong self.old self.new (F.state files.old).told line }
        ensures again { IsStuck self.old.ahead →
            IsErrOf result (LineErr.TooLong (self.old.lines + 1)) }

        ensures there { OnOk result (self.old.ahead ≡ [] →
            IsThere (F.state files.old).told self.old.name) }
        ensures leaves { ReadsFiles (F.state files.old) (F.state files.new)
            (IsErrOf result LineErr.Fault)
            (contents (F.state files.old).told self.old.name ≡ None) }
    {
        loop {
            if let Some(len) = self.feed() {
                return Ok(Some(Span {
                    len,
                    whole: len + 1,
                }));
            }
            let len = self.ahead_len();
            if len == BUFFER {
                return Err(LineErr::TooLong {
                    line: self.number(),
                });
            }
            let count = match self.read_ahead(files) {
                Ok(count) => count,
                Err(FileErr::Failed) => return Err(LineErr::Fault),
                Err(FileErr::NoMemory) => return Err(LineErr::NoMemory),
            };
            if count == 0 {
                if len == 0 {
                    return Ok(None);
                }
                return Ok(Some(Span { len, whole: len }));
            }
        }
    }

    /// Gives the next line, without its line feed, in place of what `into` held.
    pub fn next_line<F: Files>(
        &mut self,
        files: &mut F,
        into: &mut Vec<u8>,
    ) -> Result<Line, LineErr>
        requires { self.old.lines < 2 ^ 40 }
        ensures got { result ≡ Ok Line.Got → HasLeft self.old (F.state files.old).told (λ bytes.
            into.new.items ∷ lines_left self.new bytes) }
        ensures end { result ≡ Ok Line.End →
            HasLeft self.old (F.state files.old).told (λ _. []) }
        ensures short { OnOk result (vec_len into.new ≤ LONGEST_KEY) }
        ensures too_long { (line : ℕ) → IsErrOf result (LineErr.TooLong line) →
            IsTooLong self.old self.new (F.state files.old).told line }
        ensures again { IsStuck self.old.ahead →
            IsErrOf result (LineErr.TooLong (self.old.lines + 1)) }

        // Where the reader stands afterwards.
        ensures name { self.new.name ≡ self.old.name }
        ensures counted { result ≡ Ok Line.Got → self.new.lines ≡ self.old.lines + 1 }
        ensures stays { result ≡ Ok Line.End → IsAt self.old self.new }
        ensures err { OnErr result (IsAt self.old self.new) }
        ensures step { IsInStep self.old (F.state files.old).told →
            IsInStep self.new (F.state files.old).told }
        ensures empty { result ≡ Ok Line.End → into.new.items ≡ [] }
        ensures empty_err { OnErr result (into.new.items ≡ []) }

        ensures there { OnOk result (self.old.ahead ≡ [] →
            IsThere (F.state files.old).told self.old.name) }
        ensures leaves { ReadsFiles (F.state files.old) (F.state files.new)
            (IsErrOf result LineErr.Fault)
            (contents (F.state files.old).told self.old.name ≡ None) }
    {
        into.clear();
        match self.find_line(files)? {
            Some(span) => {
                into.extend_from_slice(self.line(span))?;
                self.pass(span);
                Ok(Line::Got)
            }
            None => Ok(Line::End),
        }
    }
}
