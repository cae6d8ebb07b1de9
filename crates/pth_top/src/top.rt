// The top call: from the words to a status, a text and the files.
ghost use Rattle.std.specs.Prelude.{◌≡◌, ◌≢◌, ℕ, Ok, Err, IfSome, IsErr, IsSomeAnd, None};
ghost use Rattle.command_words.specs.declared.faults.WordFault.{WordFault};
ghost use Rattle.command_words.specs.Options.{words_of};
ghost use Rattle.command_words.specs.Words.{DemoOf, command_of};
ghost use Rattle.pth_outside.specs.Files.{FilesState, LeavesFiles};
ghost use Rattle.pth_outside.specs.Sink.{LeavesSink, Prints, WritesFront};
ghost use Rattle.pth_top.specs.Ending.{Ends, EndsAs, IsCutOff, IsDone, LeavesFor};
ghost use Rattle.pth_top.specs.Statuses.{IsOfCommand, IsStatus};
ghost use Rattle.pth_top.specs.Texts.{file_fault, no_memory};
ghost use Rattle.pth_top.specs.Words.{refused, done, new_file, CommandBuilds, CommandRepeats};

use crate::build::build_command;
use crate::check::check_command;
use crate::demo::demo_command;
use crate::finish::{show, show_want};
use crate::pilots::pilots_command;
use crate::query::query_command;
use crate::stats::stats_command;
use crate::text::refused_word_text;
use crate::upgrade::upgrade_command;
use crate::{FAILED_OUTPUT, FILE_FAULT, NO_MEMORY, REPEATED_KEY, WORDS_REFUSED};
use command_words::{Command, WordFault, WordsErr, read_words};
use pth_outside::{Files, Sink};
use std::alloc::Global;
use std::sync::Wait;
use std::thread::Threads;
use turn_search::Gate;

/// Does what the words after the program's name ask for, writes the file that it gives, hands the text over to the sink in
/// one piece, and answers the status. Several workers by turns wait for each other, and tell the gate.
pub fn run<R: Threads + Wait + Sync, F: Files, O: Sink, G: Gate>(
    rt: &R,
    alloc: Global,
    words: &[String],
    files: &mut F,
    out: &mut O,
    gate: &G,
) -> u8
    // What the words ask for was done: status, text and files are those of the definition.
    ensures done { IsOfCommand result → IfSome (F.state files.old).told (λ m.
        IsSomeAnd (done (words_of words.now) m) (λ d. EndsAs d result
        (O.state out.old) (O.state out.new) (F.state files.old).told (F.state files.new).told)) }

    // An index that a build has written is that of the first seed that succeeds, and maps the keys one to one.
    ensures built { IsDone result → IfSome (F.state files.old).told (λ m.
        CommandBuilds (command_of (words_of words.now)) m (F.state files.new).told) }

    // Words that ask for nothing are refused, whatever the files tell, with no call on them.
    ensures refused { (fault : WordFault) → command_of (words_of words.now) ≡ Err fault →
        result ≢ NO_MEMORY → EndsAs (refused fault) result
        (O.state out.old) (O.state out.new) (F.state files.old).told (F.state files.new).told }
    ensures no_call { IsErr (command_of (words_of words.now)) → files.new ≡ files.old }
    ensures only_refused { result ≡ WORDS_REFUSED → IsErr (command_of (words_of words.now)) }

    // A demonstration needs no files: it ends alike whatever they tell, with no call on them.
    ensures demo { (count seed : ℕ) → command_of (words_of words.now) ≡ Ok (DemoOf count seed) →
        (any : FilesState) → Ends (Ok (DemoOf count seed)) result
        any any (O.state out.old) (O.state out.new) }
    ensures demo_no_call { (count seed : ℕ) →
        command_of (words_of words.now) ≡ Ok (DemoOf count seed) → files.new ≡ files.old }

    // Pairwise different keys are never refused for a repeat.
    ensures repeated { result ≡ REPEATED_KEY →
        IfSome (F.state files.old).told (CommandRepeats (command_of (words_of words.now))) }

    ensures statuses { IsStatus result }

    // A file fault comes only where the files failed, and over sure files only where a file that is read is missing.
    ensures files { LeavesFiles (F.state files.old) (F.state files.new) (result ≡ FILE_FAULT)
        (IfSome (F.state files.old).told (λ m. done (words_of words.now) m ≡ None)) }
    ensures fault_text { result ≡ FILE_FAULT →
        Prints file_fault (O.state out.old) (O.state out.new) }

    // A failed output comes only where the sink failed on the text of a command that was done.
    ensures sink { LeavesSink (O.state out.old) (O.state out.new) (result ≡ FAILED_OUTPUT) }
    ensures cut_off { result ≡ FAILED_OUTPUT → IfSome (F.state files.old).told (λ m.
        IsSomeAnd (done (words_of words.now) m) (λ d. IsCutOff d
        (O.state out.old) (O.state out.new) (F.state files.old).told (F.state files.new).told)) }

    // After want of memory the sink has gained at most its text.
    ensures memory { result ≡ NO_MEMORY →
        WritesFront no_memory (O.state out.old) (O.state out.new) }

    // No file changes where the command was refused.
    ensures kept { result ≢ 0 → result ≢ FAILED_OUTPUT → result ≢ NO_MEMORY →
        result ≢ FILE_FAULT → (F.state files.new).told ≡ (F.state files.old).told }
    // What becomes of the files: all stay where what is done has no file, else all but its own.
    ensures names { LeavesFor
        (new_file (command_of (words_of words.now)) (F.state files.old).told) result
        (F.state files.old).told (F.state files.new).told }
{
    run_words(rt, alloc, words, files, out, gate)
}

// The same, with what each command promises in one record.
fn run_words<R: Threads + Wait + Sync, F: Files, O: Sink, G: Gate>(
    rt: &R,
    alloc: Global,
    words: &[String],
    files: &mut F,
    out: &mut O,
    gate: &G,
) -> u8
    ensures ends { Ends (command_of (words_of words.now)) result
        (F.state files.old) (F.state files.new) (O.state out.old) (O.state out.new) }
    ensures refused { (fault : WordFault) → command_of (words_of words.now) ≡ Err fault →
        result ≢ NO_MEMORY → EndsAs (refused fault) result
        (O.state out.old) (O.state out.new) (F.state files.old).told (F.state files.new).told }
    ensures no_call { IsErr (command_of (words_of words.now)) → files.new ≡ files.old }
    ensures demo { (count seed : ℕ) → command_of (words_of words.now) ≡ Ok (DemoOf count seed) →
        (any : FilesState) → Ends (Ok (DemoOf count seed)) result
        any any (O.state out.old) (O.state out.new) }
    ensures demo_no_call { (count seed : ℕ) →
        command_of (words_of words.now) ≡ Ok (DemoOf count seed) → files.new ≡ files.old }
{
    match read_words(alloc, words) {
        Ok(Command::Pilots { keys, options }) => {
            pilots_command(rt, alloc, &keys, &options, files, out, gate)
        }
        Ok(
            Command::Build {
                keys,
                index,
                options,
            },
        ) => build_command(rt, alloc, &keys, &index, &options, files, out, gate),
        Ok(Command::Query { index, queries }) => query_command(alloc, &index, &queries, files, out),
        Ok(Command::Check { index, keys }) => check_command(alloc, &index, &keys, files, out),
        Ok(Command::Upgrade { index, keys }) => upgrade_command(alloc, &index, &keys, files, out),
        Ok(Command::Stats { index }) => stats_command(alloc, &index, files, out),
        Ok(Command::Demo(keys)) => demo_command(rt, alloc, keys, out, gate),
        Err(WordsErr::Bad(fault)) => refuse(alloc, fault, out),
        Err(WordsErr::NoMemory) => show_want(out),
    }
}

// Refuses words with a fault.
fn refuse<O: Sink>(alloc: Global, fault: WordFault, out: &mut O) -> u8
    ensures ends { (files : FilesState) →
        Ends (Err fault) result files files (O.state out.old) (O.state out.new) }
    ensures refused { (files : FilesState) → result ≢ NO_MEMORY →
        EndsAs (refused fault) result (O.state out.old) (O.state out.new) files.told files.told }
{
    match refused_word_text(alloc, fault) {
        Ok(text) => show(out, WORDS_REFUSED, text.as_bytes()),
        Err(_) => show_want(out),
    }
}
