// The end of a command: its file, its text and its status.
ghost use Rattle.std.specs.Prelude.{◌≡◌, ◌≢◌, ◌≤◌, ◌⊎◌, None, length, option_map, string_bytes};
ghost use Rattle.std.specs.Prelude.{IfOk, IfErr, IsErr, OnOk, OnErr, IsErrOf};
ghost use Rattle.command_words.specs.Names.{tmp_of};
ghost use Rattle.pth_outside.specs.Files.{FilesState, LeavesFiles, appended, contents};
ghost use Rattle.pth_outside.specs.Sink.{LeavesSink, Prints, WritesFront, written};
ghost use Rattle.pth_top.specs.Done.{done_of, new_file_data, with_file, with_new};
ghost use Rattle.pth_top.specs.Ending.{ChangesOnly, Finishes, GivesUp};
ghost use Rattle.pth_top.specs.Finishing.{KeepsBut};
ghost use Rattle.pth_top.specs.Texts.{file_fault, no_memory};

use crate::answer::{Answer, NewFile, Stop};
use crate::{CHECK_FAILED, FAILED_OUTPUT, FILE_FAULT, NO_MEMORY};
use pth_outside::{FileErr, Files, Sink, SinkErr};
use std::alloc::{AllocError, Global};

// The most bytes that are handed to the files at a time.
const PIECE: usize = 65536;

/// Ends a command on files: its file is written under another name and put in place by the last call on the files, then its
/// text is handed over. Answers the status.
pub fn finish<F: Files, O: Sink>(
    alloc: Global,
    answer: Result<Answer, Stop>,
    files: &mut F,
    out: &mut O,
) -> u8
    ensures done { IfOk answer (λ answer. Finishes (done_of answer) result
        (F.state files.old) (F.state files.new) (O.state out.old) (O.state out.new)) }
    ensures undone { IfErr answer (λ stop.
        GivesUp (stop ≡ Stop.Fault) result (O.state out.old) (O.state out.new)) }
    ensures no_call { IsErr answer → files.new ≡ files.old }
{
    match answer {
        Ok(answer) => finish_done(alloc, &answer, files, out),
        Err(stop) => give_up(stop, out),
    }
}

/// Ends a command on no file: its text is handed over. Answers the status.
pub fn finish_text<O: Sink>(answer: Result<Answer, Stop>, out: &mut O) -> u8
    requires { IfOk answer (λ answer. answer.file ≡ None) }
    // The files stay, whatever they tell.
    ensures done { (files : FilesState) → IfOk answer (λ answer. Finishes (done_of answer) result
        files files (O.state out.old) (O.state out.new)) }
    ensures undone { IfErr answer (λ stop.
        GivesUp (stop ≡ Stop.Fault) result (O.state out.old) (O.state out.new)) }
{
    match answer {
        Ok(answer) => show(out, answer.status, answer.text.as_bytes()),
        Err(stop) => give_up(stop, out),
    }
}

// Ends a command that was done.
fn finish_done<F: Files, O: Sink>(alloc: Global, answer: &Answer, files: &mut F, out: &mut O) -> u8
    ensures { Finishes (done_of answer.now) result
        (F.state files.old) (F.state files.new) (O.state out.old) (O.state out.new) }
{
    match write_new(alloc, &answer.file, files) {
        Ok(()) => show(out, answer.status, answer.text.as_bytes()),
        Err(stop) => give_up(stop, out),
    }
}

// Writes the new file, if there is one.
fn write_new<F: Files>(alloc: Global, file: &Option<NewFile>, files: &mut F) -> Result<(), Stop>
    ensures ok { OnOk result ((F.state files.new).told
        ≡ option_map (with_file (option_map new_file_data file.now)) (F.state files.old).told) }
    ensures err { OnErr result (KeepsBut (option_map new_file_data file.now)
        (F.state files.old).told (F.state files.new).told) }
    ensures leaves { LeavesFiles (F.state files.old) (F.state files.new)
        (IsErrOf result Stop.Fault) ((F.state files.old).told ≡ None) }
{
    match file {
        None => Ok(()),
        Some(file) => write_file(alloc, file, files),
    }
}

// Writes a file under another name, and puts it in its place.
fn write_file<F: Files>(alloc: Global, file: &NewFile, files: &mut F) -> Result<(), Stop>
    ensures ok { OnOk result ((F.state files.new).told
        ≡ option_map (with_new (new_file_data file.now)) (F.state files.old).told) }
    ensures err { OnErr result (ChangesOnly (tmp_of (string_bytes file.now.name))
        (F.state files.old).told (F.state files.new).told) }
    ensures leaves { LeavesFiles (F.state files.old) (F.state files.new)
        (IsErrOf result Stop.Fault) ((F.state files.old).told ≡ None) }
{
    let tmp = tmp_name(alloc, &file.name)?;
    match put_file(&tmp, &file.name, &file.bytes, files) {
        Ok(()) => Ok(()),
        Err(FileErr::Failed) => Err(Stop::Fault),
        Err(FileErr::NoMemory) => Err(Stop::NoMemory),
    }
}

// Writes bytes under a name, and puts the file in its place by the last call.
fn put_file<F: Files>(tmp: &str, name: &str, bytes: &[u8], files: &mut F) -> Result<(), FileErr>
    requires { tmp.now ≡ tmp_of name.now }
    ensures ok { OnOk result ((F.state files.new).told
        ≡ option_map (with_new (record { name = name.now; bytes = bytes.now }))
        (F.state files.old).told) }
    ensures err { OnErr result (ChangesOnly tmp.now
        (F.state files.old).told (F.state files.new).told) }
    ensures leaves { LeavesFiles (F.state files.old) (F.state files.new)
        (IsErrOf result FileErr.Failed) ((F.state files.old).told ≡ None) }
{
    files.create(tmp)?;
    append_pieces(tmp, bytes, files)?;
    files.publish(tmp, name)?;
    Ok(())
}

// The name under which a file is written.
fn tmp_name(alloc: Global, name: &str) -> Result<String, AllocError>
    ensures { IfOk result (λ tmp. string_bytes tmp ≡ tmp_of name.now) }
{
    let mut tmp = String::from_str(alloc, name)?;
    tmp.push_str(".tmp")?;
    Ok(tmp)
}

// Puts bytes at the end of a file, piece by piece.
fn append_pieces<F: Files>(name: &str, bytes: &[u8], files: &mut F) -> Result<(), FileErr>
    ensures ok { OnOk result ((F.state files.new).told
        ≡ option_map (appended name.now bytes.now) (F.state files.old).told) }
    ensures err { OnErr result (ChangesOnly name.now
        (F.state files.old).told (F.state files.new).told) }
    ensures leaves { LeavesFiles (F.state files.old) (F.state files.new)
        (IsErrOf result FileErr.Failed) (contents (F.state files.old).told name.now ≡ None) }
{
    let mut at = 0;
    while at < bytes.len() {
        let end = at + PIECE.min(bytes.len() - at);
        files.append(name, &bytes[at..end])?;
        at = end;
    }
    Ok(())
}

// Says why a command was not done.
fn give_up<O: Sink>(stop: Stop, out: &mut O) -> u8
    ensures { GivesUp (stop ≡ Stop.Fault) result (O.state out.old) (O.state out.new) }
{
    match stop {
        Stop::Fault => show(out, FILE_FAULT, b"file fault\n"),
        Stop::NoMemory => show_want(out),
    }
}

/// Hands a text over, and answers its status or that of a sink that failed or had no memory.
pub fn show<O: Sink>(out: &mut O, status: u8, text: &[u8]) -> u8
    requires { status ≤ CHECK_FAILED }
    ensures answers { (result ≡ status) ⊎ ((result ≡ FAILED_OUTPUT) ⊎ (result ≡ NO_MEMORY)) }

    ensures shown { result ≡ status → Prints text.now (O.state out.old) (O.state out.new) }
    ensures whole { result ≡ 0 →
        (O.state out.new).told ≡ written text.now (O.state out.old).told }
    ensures nothing { length text.now ≡ 0 → out.new ≡ out.old }

    ensures done { result ≡ FAILED_OUTPUT → status ≡ 0 }
    ensures front { result ≡ FAILED_OUTPUT →
        WritesFront text.now (O.state out.old) (O.state out.new) }
    ensures memory { result ≡ NO_MEMORY →
        WritesFront no_memory (O.state out.old) (O.state out.new) }
    ensures leaves { LeavesSink (O.state out.old) (O.state out.new) (result ≡ FAILED_OUTPUT) }
{
    if text.is_empty() {
        return status;
    }
    match out.write(text) {
        Ok(()) => status,
        Err(SinkErr::Failed) if status == 0 => FAILED_OUTPUT,
        Err(SinkErr::Failed) => status,
        Err(SinkErr::NoMemory) => show_want(out),
    }
}

/// Says that memory ran out, if the sink takes it, and answers the status of that.
pub fn show_want<O: Sink>(out: &mut O) -> u8
    ensures status { result ≡ NO_MEMORY }
    ensures text { WritesFront no_memory (O.state out.old) (O.state out.new) }
    ensures leaves { LeavesSink (O.state out.old) (O.state out.new) (result ≡ FAILED_OUTPUT) }
{
    let _ = out.write(b"no memory\n");
    NO_MEMORY
}
