// The texts that commands print, appended piece by piece.
ghost use Rattle.std.specs.Prelude.{◌≡◌, ◌+◌, ◌++◌, ◌≤◌, List, OnOk, IfOk, string_bytes, decimal};
ghost use Rattle.pthash.specs.declared.TheConstants.{MIN_ALPHA, MAX_ALPHA};
ghost use Rattle.pth_top.specs.Pilots.{parts_lines};
ghost use Rattle.pth_top.specs.Texts.{kind_name, refused_word, repeated_key, too_long, too_many};
ghost use Rattle.pth_top.specs.Texts.{back_name, code_name, encoding_name, map_name, word_of_mark};
ghost use Rattle.pth_top.specs.Texts.{part_lines, seed_lines, spaced};
ghost use Rattle.pth_top.specs.Texts.{cause_line, cause_lines, same_hash_line, seeds_exhausted, stuck_line};

use bucket_map::table_size;
use command_words::{Code, Encoding, Map, WordFault, kinds};
use hem_build::{Built, Cause, Part};
use hex::encode;
use index_file::KeyMark;
use itoa::Buffer;
use std::alloc::{AllocError, Global};

// Appends a label and a number in plain decimal.
pub(crate) fn push_number(text: &mut String, label: &str, number: u64) -> Result<(), AllocError>
    ensures { OnOk result
        (string_bytes text.new ≡ string_bytes text.old ++ (label.now ++ decimal number)) }
{
    let mut digits = Buffer::new();
    text.push_str(label)?;
    text.push_str(digits.format(number))
}

// Appends each pilot after a space.
fn push_pilots(text: &mut String, pilots: &[u64]) -> Result<(), AllocError>
    ensures { OnOk result (string_bytes text.new ≡ string_bytes text.old ++ spaced pilots.now) }
{
    for pilot in pilots {
        push_number(text, " ", *pilot)?;
    }
    Ok(())
}

// Appends the seed and the number of keys, a line each.
fn push_seed(text: &mut String, seed: u64, keys: u64) -> Result<(), AllocError>
    ensures { OnOk result
        (string_bytes text.new ≡ string_bytes text.old ++ seed_lines seed keys) }
{
    push_number(text, "seed ", seed)?;
    push_number(text, "\nkeys ", keys)?;
    text.push_str("\n")?;
    Ok(())
}

// Appends the two lines of a partition.
fn push_partition(
    text: &mut String,
    number: u64,
    keys: u64,
    size: u64,
    pilots: &[u64],
) -> Result<(), AllocError>
    ensures { OnOk result
        (string_bytes text.new ≡ string_bytes text.old ++ part_lines number keys size pilots.now) }
{
    push_number(text, "part ", number)?;
    push_number(text, " keys ", keys)?;
    push_number(text, " size ", size)?;
    push_number(text, " buckets ", pilots.len() as u64)?;
    text.push_str("\npilots")?;
    push_pilots(text, pilots)?;
    text.push_str("\n")?;
    Ok(())
}

// Appends a label and the number from 1 of a place counted from 0.
fn push_place(text: &mut String, label: &str, place: u64) -> Result<(), AllocError>
    ensures { OnOk result
        (string_bytes text.new ≡ string_bytes text.old ++ (label.now ++ decimal (place + 1))) }
{
    let number = u128::from(place) + 1;
    let mut digits = Buffer::new();
    text.push_str(label)?;
    text.push_str(digits.format(number))
}

// Appends the line on a seed at which a bucket has no pilot.
fn push_stuck(text: &mut String, seed: u64, partition: u32, bucket: u64) -> Result<(), AllocError>
    ensures { OnOk result
        (string_bytes text.new ≡ string_bytes text.old ++ stuck_line seed partition bucket) }
{
    push_number(text, "seed ", seed)?;
    push_number(text, ": part ", partition as u64)?;
    push_number(text, " bucket ", bucket)?;
    text.push_str(" has no pilot\n")?;
    Ok(())
}

// Appends the line on a seed at which the keys at two places have the same pair of hashes.
fn push_same_hash(text: &mut String, seed: u64, first: u64, second: u64) -> Result<(), AllocError>
    ensures { OnOk result
        (string_bytes text.new
        ≡ string_bytes text.old ++ same_hash_line seed (first + 1) (second + 1)) }
{
    push_number(text, "seed ", seed)?;
    push_place(text, ": lines ", first)?;
    push_place(text, " and ", second)?;
    text.push_str(" have the same hash\n")?;
    Ok(())
}

// Appends the line on why a seed failed.
fn push_cause(text: &mut String, seed: u64, cause: Cause) -> Result<(), AllocError>
    ensures { OnOk result
        (string_bytes text.new ≡ string_bytes text.old ++ cause_line seed cause) }
{
    match cause {
        Cause::SameHash { first, second } => push_same_hash(text, seed, first, second),
        Cause::Stuck { part, bucket } => push_stuck(text, seed, part, bucket),
    }
}

// Appends a line for each seed that has a cause, in order.
fn push_causes(text: &mut String, seeds: &[u64], causes: &[Cause]) -> Result<(), AllocError>
    ensures { OnOk result
        (string_bytes text.new ≡ string_bytes text.old ++ cause_lines seeds.now causes.now) }
{
    for i in 0..seeds.len().min(causes.len()) {
        push_cause(text, seeds[i], causes[i])?;
    }
    Ok(())
}

// Appends the lines of all partitions.
fn push_partitions(text: &mut String, alpha: u32, parts: &[Part]) -> Result<(), AllocError>
    requires low { MIN_ALPHA ≤ alpha }
    requires high { alpha ≤ MAX_ALPHA }
    ensures { OnOk result
        (string_bytes text.new ≡ string_bytes text.old ++ parts_lines alpha 0 parts.now) }
{
    for number in 0..parts.len() {
        let part = &parts[number];
        let keys = part.n;
        let size = table_size(keys, alpha);
        push_partition(text, number as u64, keys, size, &part.pilots)?;
    }
    Ok(())
}

/// The pilots of an index, partition by partition.
pub fn built_text(alloc: Global, built: &Built) -> Result<String, AllocError>
    ensures { IfOk result (λ text. string_bytes text ≡ seed_lines built.now.seed built.now.n
        ++ parts_lines built.now.shape.alpha 0 built.now.parts) }
{
    let mut text = String::new(alloc);
    push_seed(&mut text, built.seed, built.n)?;
    push_partitions(&mut text, built.shape.alpha, &built.parts)?;
    Ok(text)
}

/// The refusal of a list for which no seed succeeds.
pub fn exhausted_text(alloc: Global, seeds: &[u64], causes: &[Cause]) -> Result<String, AllocError>
    ensures { IfOk result (λ text.
        string_bytes text ≡ seeds_exhausted ++ cause_lines seeds.now causes.now) }
{
    let mut text = String::from_str(alloc, "seeds exhausted\n")?;
    push_causes(&mut text, seeds, causes)?;
    Ok(text)
}

/// The refusal of words.
pub fn refused_word_text(alloc: Global, fault: WordFault) -> Result<String, AllocError>
    ensures { IfOk result (λ text. string_bytes text ≡ refused_word fault.word fault.kind) }
{
    let mut text = String::new(alloc);
    push_number(&mut text, "word ", fault.word)?;
    text.push_str(": ")?;
    text.push_str(kind_text(fault.kind))?;
    text.push_str("\n")?;
    Ok(text)
}

// The name of a kind of fault in a word.
#[tactic(auto, unfolding(crate::specs::Texts::kind_name))]
fn kind_text(kind: u8) -> &'static str
    ensures { result.now ≡ kind_name kind }
{
    match kind {
        kinds::COMMAND => "command",
        kinds::MISSING => "missing",
        kinds::EXTRA => "extra",
        kinds::NAME => "name",
        kinds::REPEATED => "repeated",
        kinds::NUMBER => "number",
        kinds::RANGE => "range",
        _ => "same name",
    }
}

/// The refusal of a key file with a line that is too long, by its number from 1.
pub fn too_long_text(alloc: Global, number: u64) -> Result<String, AllocError>
    ensures { IfOk result (λ text. string_bytes text ≡ too_long number) }
{
    let mut text = String::new(alloc);
    push_number(&mut text, "line ", number)?;
    text.push_str(" is too long\n")?;
    Ok(text)
}

/// The refusal of a file with more of these than that.
pub fn too_many_text(alloc: Global, what: &str, most: u64) -> Result<String, AllocError>
    ensures { IfOk result (λ text. string_bytes text ≡ too_many what.now most) }
{
    let mut text = String::from_str(alloc, "too many ")?;
    text.push_str(what)?;
    push_number(&mut text, ": limit ", most)?;
    text.push_str("\n")?;
    Ok(text)
}

/// The refusal of a list with the same key at two places.
pub fn repeated_key_text(alloc: Global, first: u64, second: u64) -> Result<String, AllocError>
    ensures { IfOk result (λ text.
        string_bytes text ≡ repeated_key (first + 1) (second + 1)) }
{
    let mut text = String::new(alloc);
    push_place(&mut text, "repeated key: lines ", first)?;
    push_place(&mut text, " and ", second)?;
    text.push_str("\n")?;
    Ok(text)
}

// Appends a word and the two numbers of a mark, each in 16 hexadecimal digits.
pub(crate) fn push_mark(
    alloc: Global,
    text: &mut String,
    word: &str,
    mark: KeyMark,
) -> Result<(), AllocError>
    ensures { OnOk result
        (string_bytes text.new ≡ string_bytes text.old ++ word_of_mark word.now mark) }
{
    text.push_str(word)?;
    text.push_str(&encode(alloc, mark.sum.to_be_bytes())?)?;
    text.push_str(" ")?;
    text.push_str(&encode(alloc, mark.xor.to_be_bytes())?)?;
    Ok(())
}

// The name of a code.
#[tactic(auto, unfolding(crate::specs::Texts::code_name))]
fn code_text(code: Code) -> &'static str
    ensures { result.now ≡ code_name code }
{
    match code {
        Code::Compact => "c",
        Code::Parted => "pc",
        Code::Dict => "d",
        Code::EliasFano => "ef",
    }
}

// Appends the back code after a dash, if there is one.
fn push_back(text: &mut String, back: Option<Code>) -> Result<(), AllocError>
    ensures { OnOk result (string_bytes text.new ≡ string_bytes text.old ++ back_name back) }
{
    let Some(back) = back else {
        return Ok(());
    };
    text.push_str("-")?;
    text.push_str(code_text(back))?;
    Ok(())
}

// Appends the name of an encoding.
pub(crate) fn push_encoding(text: &mut String, enc: Encoding) -> Result<(), AllocError>
    ensures { OnOk result (string_bytes text.new ≡ string_bytes text.old ++ encoding_name enc) }
{
    text.push_str(code_text(enc.front))?;
    push_back(text, enc.back)?;
    Ok(())
}

// The name of a map.
#[tactic(auto, unfolding(crate::specs::Texts::map_name))]
pub(crate) fn map_text(map: Map) -> &'static str
    ensures { result.now ≡ map_name map }
{
    match map {
        Map::Skewed => "skewed",
        Map::Uniform => "uniform",
    }
}
