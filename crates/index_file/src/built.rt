// The file of an index that was built, appended to bytes.
ghost use Rattle.std.specs.Prelude.{◌≡◌, ◌++◌, ◌≤◌, ◌<◌, length, take, drop, All, OnOk, OnErr};
ghost use Rattle.std.specs.List.{flat_map};
ghost use Rattle.pthash.specs.declared.TheConstants.{MAX_BUCKETS, MAX_PILOTS};
ghost use Rattle.elias_fano.specs.Spelling.{number};
ghost use Rattle.pilot_codecs.specs.Spelling.{pair_text};
ghost use Rattle.build_outcome.specs.Validity.{IsValidIndex};
ghost use Rattle.index_text.specs.Text.{key_counts, part_text, parts_text, body_text, index_text, IsIndex};
ghost use Rattle.index_file.specs.Pieces.{HasPilots};

use crate::writing::{marked_head, put_digest, put_head};
use elias_fano::put_numbers;
use hem_build::Built;
use index_text::HeadFields;
use part_function::Part;
use pilot_codecs::{Encoding, NoMemory, Pilots};

// The fields of the second version.
fn built_head(built: &Built, enc: Encoding) -> HeadFields
    ensures { result ≡ Rattle.index_text.specs.Text.fields_of built.now enc }
{
    let parts = built.parts.len() as u64;
    marked_head(built.seed, built.n, built.shape, parts, enc)
}

// Appends how many keys each partition has.
fn put_key_counts(out: &mut Vec<u8>, parts: &[Part]) -> Result<(), NoMemory>
    ensures ok { OnOk result (out.new.items
        ≡ out.old.items ++ flat_map number (key_counts parts.now)) }
    ensures kept { take (length out.old.items) out.new.items ≡ out.old.items }
{
    for i in 0..parts.len() {
        let part = &parts[i];
        put_numbers(out, &[part.n])?;
    }
    Ok(())
}

// Appends pilots in an encoding, and lets go of what they were encoded to.
fn put_pilots(out: &mut Vec<u8>, pilots: &[u64], enc: Encoding) -> Result<(), NoMemory>
    requires few { length pilots.now ≤ MAX_BUCKETS }
    requires small { All (λ k. k < MAX_PILOTS) pilots.now }
    ensures ok { OnOk result (out.new.items ≡ out.old.items ++ pair_text enc pilots.now) }
    ensures err { OnErr result (out.new.items ≡ out.old.items) }
{
    let encoded = Pilots::encode(*out.allocator(), pilots, enc)?;
    encoded.write(out)
}

// Appends the lists of a partition; an empty one has none.
#[tactic(auto, unfolding(index_text::specs::Text::part_text))]
fn put_part(out: &mut Vec<u8>, part: &Part, enc: Encoding) -> Result<(), NoMemory>
    requires { HasPilots part.now }
    ensures ok { OnOk result (out.new.items ≡ out.old.items ++ part_text enc part.now) }
    ensures kept { take (length out.old.items) out.new.items ≡ out.old.items }
{
    if part.n == 0 {
        return Ok(());
    }
    put_pilots(out, &part.pilots, enc)?;
    part.free.write(out)?;
    Ok(())
}

// Appends the lists of each partition.
fn put_parts(out: &mut Vec<u8>, parts: &[Part], enc: Encoding) -> Result<(), NoMemory>
    requires { All HasPilots parts.now }
    ensures ok { OnOk result (out.new.items ≡ out.old.items ++ parts_text enc parts.now) }
    ensures kept { take (length out.old.items) out.new.items ≡ out.old.items }
{
    for i in 0..parts.len() {
        put_part(out, &parts[i], enc)?;
    }
    Ok(())
}

// Appends all before the digest; on want of memory a part of it.
fn put_built_body(out: &mut Vec<u8>, built: &Built, enc: Encoding) -> Result<(), NoMemory>
    ensures ok { OnOk result (out.new.items ≡ out.old.items ++ body_text built.now enc) }
    ensures valid { OnOk result (IsValidIndex built.now) }
    ensures kept { take (length out.old.items) out.new.items ≡ out.old.items }
{
    put_head(out, built_head(built, enc))?;
    let mark = built.mark;
    put_numbers(out, &[mark.sum, mark.xor])?;
    put_key_counts(out, &built.parts)?;
    put_parts(out, &built.parts, enc)?;
    Ok(())
}

// Appends the file; on want of memory a part of it.
fn put_built(out: &mut Vec<u8>, built: &Built, enc: Encoding) -> Result<(), NoMemory>
    ensures ok { OnOk result (out.new.items ≡ out.old.items ++ index_text built.now enc) }
    ensures valid { OnOk result (IsValidIndex built.now) }
    ensures kept { take (length out.old.items) out.new.items ≡ out.old.items }
{
    let start = out.len();
    put_built_body(out, built, enc)?;
    put_digest(out, start)?;
    Ok(())
}

/// Appends the file of an index that was built, of the second version, in an encoding; on want of memory
/// nothing. Beside what is appended, memory is taken for the encoded pilots of one partition at a time.
pub fn write_index(built: &Built, enc: Encoding, out: &mut Vec<u8>) -> Result<(), NoMemory>
    ensures ok { OnOk result (out.new.items ≡ out.old.items ++ index_text built.now enc) }
    // So it is read again, and is not too long.
    ensures index { OnOk result (IsIndex (drop (length out.old.items) out.new.items)
        built.now enc) }
    ensures err { OnErr result (out.new.items ≡ out.old.items) }
{
    let start = out.len();
    let written = put_built(out, built, enc);
    if written.is_err() {
        out.truncate(start);
    }
    written
}
