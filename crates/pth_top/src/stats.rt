// The command `stats`.
ghost use Rattle.std.specs.Prelude.{◌≡◌, ◌++◌, List, Ok, None, IfOk, OnOk, IsErrOf, string_bytes};
ghost use Rattle.command_words.specs.Words.{StatsOf};
ghost use Rattle.bucket_map.specs.ShapeData.{shape_data};
ghost use Rattle.pth_outside.specs.Files.{ReadsFiles, OfFile, contents};
ghost use Rattle.pth_top.specs.Done.{done_of};
ghost use Rattle.pth_top.specs.Ending.{Ends};
ghost use Rattle.pth_top.specs.Stats.{encoding_line, field_lines, map_line, mark_lines, number_line, sum_lines};
ghost use Rattle.pth_top.specs.Stats.{stats_of_index, stats_result, stats_text};

use crate::answer::{Answer, Stop};
use crate::finish::finish;
use crate::read::open_index;
use crate::text::{map_text, push_encoding, push_mark, push_number};
use command_words::{Encoding, Map};
use index_file::{Head, Index, KeyMark};
use pth_outside::{Files, Sink};
use std::alloc::{AllocError, Global};

/// Reads an index, hands over what its file says of it or why it is refused, and answers the status. It waits for nothing.
pub fn stats_command<F: Files, O: Sink>(
    alloc: Global,
    index: &str,
    files: &mut F,
    out: &mut O,
) -> u8
    ensures { Ends (Ok (StatsOf index.now)) result
        (F.state files.old) (F.state files.new) (O.state out.old) (O.state out.new) }
{
    let answer = stats(alloc, index, files);
    finish(alloc, answer, files, out)
}

// What the file of an index says of it, or why it is refused.
fn stats<F: Files>(alloc: Global, index: &str, files: &mut F) -> Result<Answer, Stop>
    ensures done { IfOk result (λ answer. OfFile (F.state files.old).told index.now (λ bytes.
        stats_result bytes ≡ done_of answer)) }
    // No file changes, whatever the answer.
    ensures leaves { ReadsFiles (F.state files.old) (F.state files.new)
        (IsErrOf result Stop.Fault) (contents (F.state files.old).told index.now ≡ None) }
{
    match open_index(alloc, files, index)? {
        Ok(index) => Ok(stats_answer(alloc, &index)?),
        Err(refusal) => Ok(refusal),
    }
}

// The answer on an index.
fn stats_answer(alloc: Global, index: &Index) -> Result<Answer, AllocError>
    ensures { IfOk result (λ answer. done_of answer ≡ stats_of_index index.now) }
{
    let text = text_of_index(alloc, index)?;
    Ok(Answer {
        status: 0,
        text,
        file: None,
    })
}

// The lines on an index.
fn text_of_index(alloc: Global, index: &Index) -> Result<String, AllocError>
    ensures { IfOk result (λ text. string_bytes text ≡ stats_text index.now) }
{
    let head = index.head();
    let mut text = String::new(alloc);
    push_fields(&mut text, &head)?;
    push_encoding_line(&mut text, head.enc)?;
    push_sums(&mut text, &head)?;
    push_mark_line(alloc, &mut text, head.mark)?;
    push_map_line(&mut text, head.shape.map)?;
    Ok(text)
}

// Appends a label and a number as a line.
fn push_line(text: &mut String, label: &str, number: u64) -> Result<(), AllocError>
    ensures { OnOk result
        (string_bytes text.new ≡ string_bytes text.old ++ number_line label.now number) }
{
    push_number(text, label, number)?;
    text.push_str("\n")?;
    Ok(())
}

// Appends the version, the seed, the number of keys, the shape and the number of partitions.
fn push_fields(text: &mut String, head: &Head) -> Result<(), AllocError>
    ensures { OnOk result (string_bytes text.new ≡ string_bytes text.old
        ++ field_lines head.now.version head.now.seed head.now.n
        (shape_data head.now.shape) head.now.parts) }
{
    push_line(text, "version ", u64::from(head.version))?;
    push_line(text, "seed ", head.seed)?;
    push_line(text, "keys ", head.n)?;
    push_line(text, "alpha ", u64::from(head.shape.alpha))?;
    push_line(text, "c ", u64::from(head.shape.c))?;
    push_line(text, "parts ", u64::from(head.parts))?;
    Ok(())
}

// Appends the encoding of the pilots as a line.
fn push_encoding_line(text: &mut String, enc: Encoding) -> Result<(), AllocError>
    ensures { OnOk result (string_bytes text.new ≡ string_bytes text.old ++ encoding_line enc) }
{
    text.push_str("enc ")?;
    push_encoding(text, enc)?;
    text.push_str("\n")?;
    Ok(())
}

// Appends the sums over the partitions and the length of the file.
fn push_sums(text: &mut String, head: &Head) -> Result<(), AllocError>
    ensures { OnOk result (string_bytes text.new ≡ string_bytes text.old
        ++ sum_lines head.now.size head.now.buckets head.now.free head.now.bytes) }
{
    push_line(text, "size ", head.size)?;
    push_line(text, "buckets ", head.buckets)?;
    push_line(text, "free ", head.free)?;
    push_line(text, "bytes ", head.bytes)?;
    Ok(())
}

// Appends the mark of the keys as a line, if there is one.
fn push_mark_line(alloc: Global, text: &mut String, mark: Option<KeyMark>) -> Result<(), AllocError>
    ensures { OnOk result (string_bytes text.new ≡ string_bytes text.old ++ mark_lines mark) }
{
    let Some(mark) = mark else {
        return Ok(());
    };
    push_mark(alloc, text, "mark ", mark)?;
    text.push_str("\n")?;
    Ok(())
}

// Appends how hashes are spread over buckets as a line.
fn push_map_line(text: &mut String, map: Map) -> Result<(), AllocError>
    ensures { OnOk result (string_bytes text.new ≡ string_bytes text.old ++ map_line map) }
{
    text.push_str("map ")?;
    text.push_str(map_text(map))?;
    text.push_str("\n")?;
    Ok(())
}
