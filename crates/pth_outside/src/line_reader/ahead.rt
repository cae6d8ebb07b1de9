// The bytes that a reader has read ahead, and the line that it takes off them.
ghost use Rattle.std.specs.Prelude.{◌≡◌, ◌+◌, ◌-◌, ◌<◌, ◌≤◌, ◌^◌, ◌++◌, Ok, None, length, take, drop};
ghost use Rattle.std.specs.Prelude.{IfOk, IfSome, IfNone, OnOk, OnErr, IsErrOf};
ghost use Rattle.pth_outside.specs.Files.{ReadsFiles, ForFile, contents, IsThere};
ghost use Rattle.pth_outside.specs.Keys.{HasNoFeed};
ghost use Rattle.pth_outside.specs.Reading.{advanced, IsAt, IsFirstFeed};

use super::{BUFFER, LineReader, Span};
use crate::{FileErr, Files, LINE_FEED};
use memchr::memchr_iter;

// Moves the bytes between two places to the front of a buffer.
fn move_to_front(buffer: &mut [u8], start: usize, end: usize)
    requires rises { start ≤ end }
    requires within { end ≤ length buffer.old }
    ensures len { length buffer.new ≡ length buffer.old }
    ensures moved { take (end - start) buffer.new ≡ take (end - start) (drop start buffer.old) }
{
    buffer.copy_within(start..end, 0);
}

// Reads behind the first `end` bytes of a buffer.
fn read_behind<F: Files>(
    files: &mut F,
    name: &str,
    at: u64,
    buffer: &mut [u8],
    end: usize,
) -> Result<usize, FileErr>
    requires { end ≤ length buffer.old }
    ensures bound { IfOk result (λ count. end + count ≤ length buffer.old) }
    ensures front { take end buffer.new ≡ take end buffer.old }
    ensures read { IfOk result (λ count. ForFile (F.state files.old).told name.now (λ bytes.
        take (end + count) buffer.new ≡ take end buffer.old ++ take count (drop at bytes))) }
    ensures nothing { IfOk result (λ count. ForFile (F.state files.old).told name.now (λ bytes.
        count ≡ 0 → end < length buffer.old → length bytes ≤ at)) }
    ensures within { IfOk result (λ count. ForFile (F.state files.old).told name.now (λ bytes.
        count ≤ length bytes - at)) }

    ensures there { OnOk result (IsThere (F.state files.old).told name.now) }
    ensures leaves { ReadsFiles (F.state files.old) (F.state files.new)
        (IsErrOf result FileErr.Failed) (contents (F.state files.old).told name.now ≡ None) }
{
    files.read_at(name, at, &mut buffer[end..])
}

impl LineReader {
    // The place of the first line feed ahead.
    pub(crate) fn feed(&self) -> Option<usize>
        ensures found { IfSome result (IsFirstFeed self.now.ahead) }
        ensures none { IfNone result (HasNoFeed self.now.ahead) }
        ensures bound { length self.now.ahead ≤ BUFFER }
    {
        // The iterator looks at the nearest bytes first, and most lines are short.
        memchr_iter(LINE_FEED, &self.buffer[self.start..self.end]).next()
    }

    // How many bytes are ahead.
    pub(crate) fn ahead_len(&self) -> usize
        ensures len { result ≡ length self.now.ahead }
        ensures bound { length self.now.ahead ≤ BUFFER }
    {
        self.end - self.start
    }

    // The number of the next line, counted from 1.
    pub(crate) fn number(&self) -> u64
        requires { self.now.lines < 2 ^ 40 }
        ensures { result ≡ self.now.lines + 1 }
    {
        self.lines + 1
    }

    // The next line.
    pub(crate) fn line(&self, span: Span) -> &[u8]
        requires within { span.whole ≤ length self.now.ahead }
        requires begins { span.len ≤ span.whole }
        ensures { result.now ≡ take span.len self.now.ahead }
    {
        &self.buffer[self.start..self.start + span.len]
    }

    // Goes on behind the next line.
    pub(crate) fn pass(&mut self, span: Span)
        requires within { span.whole ≤ length self.old.ahead }
        requires lines { self.old.lines < 2 ^ 40 }
        ensures { self.new ≡ advanced span.whole self.old }
    {
        self.start += span.whole;
        self.place += span.whole as u64;
        self.lines += 1;
    }

    // Reads on, behind the bytes that are ahead.
    pub(crate) fn read_ahead<F: Files>(&mut self, files: &mut F) -> Result<usize, FileErr>
        requires room { length self.old.ahead < BUFFER }
        requires lines { self.old.lines < 2 ^ 40 }
        ensures at { IsAt self.old self.new }
        ensures more { IfOk result (λ count.
            length self.new.ahead ≡ length self.old.ahead + count) }
        ensures err { OnErr result (self.new.ahead ≡ self.old.ahead) }
        ensures none { result ≡ Ok 0 → self.new.ahead ≡ self.old.ahead }
        ensures read { IfOk result (λ count.
            ForFile (F.state files.old).told self.old.name (λ bytes.
            let at = self.old.place + length self.old.ahead in
            self.new.ahead ≡ self.old.ahead ++ take count (drop at bytes))) }
        ensures nothing { result ≡ Ok 0 →
            ForFile (F.state files.old).told self.old.name (λ bytes.
            length bytes ≤ self.old.place + length self.old.ahead) }
        ensures within { IfOk result (λ count.
            ForFile (F.state files.old).told self.old.name (λ bytes.
            count ≤ length bytes - (self.old.place + length self.old.ahead))) }

        ensures there { OnOk result (IsThere (F.state files.old).told self.old.name) }
        ensures leaves { ReadsFiles (F.state files.old) (F.state files.new)
            (IsErrOf result FileErr.Failed)
            (contents (F.state files.old).told self.old.name ≡ None) }
    {
        move_to_front(self.buffer.as_mut_slice(), self.start, self.end);
        self.end -= self.start;
        self.start = 0;
        let at = self.place + self.end as u64;
        let count = read_behind(
            files,
            self.name.as_str(),
            at,
            self.buffer.as_mut_slice(),
            self.end,
        )?;
        self.end += count;
        Ok(count)
    }
}
