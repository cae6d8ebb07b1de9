//! The program `pth`: its words, the files of the disk and standard output, handed to `pth_top::run`.
#![tactic(auto)]

ghost use Rattle.std.specs.Prelude.{◌≡◌, ◌≢◌, Err, IfErr, IsErr};
ghost use Rattle.std.specs.IoError.{error_kind};
ghost use Rattle.command_words.specs.Words.{fault_at};
ghost use Rattle.command_words.specs.declared.kinds.TheConstants.{COMMAND};
ghost use Rattle.pth_outside.specs.Sink.{WritesFront};
ghost use Rattle.pth_top.specs.Ending.{EndsAs};
ghost use Rattle.pth_top.specs.declared.TheConstants.{NO_MEMORY};
ghost use Rattle.pth_top.specs.Texts.{no_memory};
ghost use Rattle.pth_top.specs.Words.{refused};

use disk_files::{DiskFiles, StdSink};
use pth_outside::{Files, Sink};
use pth_top::{run, show_want};
use std::alloc::Global;
use std::env::Args;
use std::io::ErrorKind;
use std::process::ExitCode;
use std::sync::Wait;
use std::thread::Threads;
use std::{env, io};
use turn_search::FreeGate;

fn main(rt: HostRuntime) -> ExitCode {
    let mut files = DiskFiles::new(rt.alloc(), &rt);
    let mut out = StdSink::new(&rt);
    let args = env::args(&rt);
    ExitCode::from(answer(&rt, rt.alloc(), args, &mut files, &mut out))
}

// Does what the words ask for that the system gave after the program's name, and answers the status.
fn answer<R: Threads + Wait + Sync, F: Files, O: Sink>(
    rt: &R,
    alloc: Global,
    args: io::Result<Args>,
    files: &mut F,
    out: &mut O,
) -> u8
    ensures want { IfErr args (λ e. error_kind e ≡ ErrorKind.OutOfMemory → result ≡ NO_MEMORY) }
    ensures no_text { IfErr args (λ e. error_kind e ≢ ErrorKind.OutOfMemory →
        result ≢ NO_MEMORY →
        EndsAs (refused (fault_at 0 COMMAND)) result
        (O.state out.old) (O.state out.new) (F.state files.old).told (F.state files.new).told) }
    ensures text { IsErr args → result ≡ NO_MEMORY →
        WritesFront no_memory (O.state out.old) (O.state out.new) }
    ensures no_call { IsErr args → files.new ≡ files.old }
{
    match words_after(alloc, args) {
        Ok(words) => run(rt, alloc, &words, files, out, &FreeGate),
        Err(e) if e.kind() == ErrorKind::OutOfMemory => show_want(out),
        // No words can be told apart here, so what is refused is one that names no command.
        Err(_) => run(rt, alloc, &[String::new(alloc)], files, out, &FreeGate),
    }
}

// The words after the program's name.
fn words_after(alloc: Global, args: io::Result<Args>) -> io::Result<Vec<String>>
    ensures { IfErr args (λ e. result ≡ Err e) }
{
    let mut words = Vec::new(alloc);
    for word in args?.skip(1) {
        words.push(word)?;
    }
    Ok(words)
}
