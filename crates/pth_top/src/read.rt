// The index that a command reads, or the refusal that it deserves.
ghost use Rattle.std.specs.Prelude.{◌≡◌, ◌++◌, List, None, OnOk, IfOk, IsErrOf, string_bytes};
ghost use Rattle.pth_outside.specs.Files.{ReadsFiles, OfFile, contents};
ghost use Rattle.pth_top.specs.Done.{done_of, or_refused};
ghost use Rattle.pth_top.specs.Query.{faulty_result, index_read};
ghost use Rattle.pth_top.specs.Texts.{fault_words, index_refused, word_of_two};

use crate::INDEX_REFUSED;
use crate::answer::{Answer, Stop};
use crate::text::push_number;
use index_file::{Index, IndexFault, MAX_BYTES, read_index};
use pth_outside::{Files, WholeErr, read_whole};
use std::alloc::{AllocError, Global};

/// The index of a file, or the refusal that the file deserves.
pub fn open_index<F: Files>(
    alloc: Global,
    files: &mut F,
    name: &str,
) -> Result<Result<Index, Answer>, Stop>
    ensures done { IfOk result (λ end. OfFile (F.state files.old).told name.now (λ bytes.
        index_read bytes ≡ or_refused end)) }
    ensures leaves { ReadsFiles (F.state files.old) (F.state files.new)
        (IsErrOf result Stop.Fault) (contents (F.state files.old).told name.now ≡ None) }
{
    match read_whole(alloc, files, name, MAX_BYTES as u64) {
        Ok(bytes) => of_bytes(alloc, &bytes),
        Err(WholeErr::TooLarge) => Ok(Err(faulty_answer(alloc, IndexFault::Large)?)),
        Err(WholeErr::Fault) => Err(Stop::Fault),
        Err(WholeErr::NoMemory) => Err(Stop::NoMemory),
    }
}

// The index that these bytes are, or the refusal of their fault.
fn of_bytes(alloc: Global, bytes: &[u8]) -> Result<Result<Index, Answer>, Stop>
    ensures done { IfOk result (λ end. index_read bytes.now ≡ or_refused end) }
    ensures memory { IsErrOf result Stop.Fault → ⊥ }
{
    match read_index(alloc, bytes) {
        Ok(index) => Ok(Ok(index)),
        Err(IndexFault::NoMemory) => Err(Stop::NoMemory),
        Err(fault) => Ok(Err(faulty_answer(alloc, fault)?)),
    }
}

// The refusal of an index with this fault.
fn faulty_answer(alloc: Global, fault: IndexFault) -> Result<Answer, AllocError>
    ensures { IfOk result (λ answer. done_of answer ≡ faulty_result fault) }
{
    let text = faulty_text(alloc, fault)?;
    Ok(Answer {
        status: INDEX_REFUSED,
        text,
        file: None,
    })
}

// The refusal of an index.
fn faulty_text(alloc: Global, fault: IndexFault) -> Result<String, AllocError>
    ensures { IfOk result (λ text. string_bytes text ≡ index_refused fault) }
{
    let mut text = String::from_str(alloc, "index refused: ")?;
    push_fault(&mut text, fault)?;
    text.push_str("\n")?;
    Ok(text)
}

// Appends a word and two numbers.
fn push_two(text: &mut String, word: &str, first: u64, second: u64) -> Result<(), AllocError>
    ensures { OnOk result
        (string_bytes text.new ≡ string_bytes text.old ++ word_of_two word.now first second) }
{
    push_number(text, word, first)?;
    push_number(text, " ", second)?;
    Ok(())
}

// Appends the words for a fault of an index.
#[tactic(auto, unfolding(crate::specs::Texts::fault_words))]
fn push_fault(text: &mut String, fault: IndexFault) -> Result<(), AllocError>
    ensures { OnOk result (string_bytes text.new ≡ string_bytes text.old ++ fault_words fault) }
{
    match fault {
        IndexFault::Short => text.push_str("short"),
        IndexFault::Magic => text.push_str("magic"),
        IndexFault::Version { found } => push_number(text, "version ", u64::from(found)),
        IndexFault::Digest { kept, counted } => push_two(text, "digest ", kept, counted),
        IndexFault::Encoding => text.push_str("encoding"),
        IndexFault::Field { at } => push_number(text, "field ", at),
        IndexFault::Count { kept, sum } => push_two(text, "count ", kept, sum),
        IndexFault::Form(form) => push_two(text, "form ", u64::from(form.kind), form.at),
        IndexFault::Pilot { part, bucket } => push_two(text, "pilot ", u64::from(part), bucket),
        IndexFault::Free { part, place } => push_two(text, "free ", u64::from(part), place),
        IndexFault::Long { at } => push_number(text, "long ", at),
        IndexFault::Large => text.push_str("large"),
        IndexFault::NoMemory => Ok(()),
    }
}
