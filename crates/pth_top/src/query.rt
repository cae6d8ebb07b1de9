// The command `query`.
ghost use Rattle.std.specs.Prelude.{◌≡◌, Ok, Some, None, IfOk, IfSome, IsErrOf};
ghost use Rattle.command_words.specs.Words.{QueryOf};
ghost use Rattle.pth_outside.specs.Files.{ReadsFiles};
ghost use Rattle.pth_top.specs.Done.{done_of};
ghost use Rattle.pth_top.specs.Ending.{Ends};
ghost use Rattle.pth_top.specs.Words.{command_result};

use crate::answer::{Answer, Stop};
use crate::finish::finish;
use crate::read::open_index;
use crate::values::values_of_file;
use pth_outside::{Files, Sink};
use std::alloc::Global;

/// Reads an index and a file of queries, hands over the value of each query or why there are none, and answers the status.
/// It waits for nothing.
pub fn query_command<F: Files, O: Sink>(
    alloc: Global,
    index: &str,
    queries: &str,
    files: &mut F,
    out: &mut O,
) -> u8
    ensures { Ends (Ok (QueryOf index.now queries.now)) result
        (F.state files.old) (F.state files.new) (O.state out.old) (O.state out.new) }
{
    let answer = query(alloc, index, queries, files);
    finish(alloc, answer, files, out)
}

// The values of the lines of a file in the index of another, or why there are none. A faulty index makes no call on the
// second file.
fn query<F: Files>(alloc: Global, index: &str, queries: &str, files: &mut F) -> Result<Answer, Stop>
    ensures done { IfOk result (λ answer. IfSome (F.state files.old).told (λ m.
        command_result (Ok (QueryOf index.now queries.now)) m ≡ Some (done_of answer))) }
    // No file changes, whatever the answer.
    ensures leaves { ReadsFiles (F.state files.old) (F.state files.new)
        (IsErrOf result Stop.Fault) (IfSome (F.state files.old).told (λ m.
        command_result (Ok (QueryOf index.now queries.now)) m ≡ None)) }
{
    match open_index(alloc, files, index)? {
        Ok(index) => values_of_file(alloc, &index, files, queries),
        Err(refusal) => Ok(refusal),
    }
}
