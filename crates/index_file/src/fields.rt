// The digest and the fields that each index begins with.
ghost use Rattle.std.specs.Prelude.{◌≡◌, ◌+◌, ◌≤◌, ◌<◌, length, take, drop, IfOk};
ghost use Rattle.pthash.specs.declared.TheConstants.{MAX_PARTITIONS};
ghost use Rattle.bucket_map.specs.ShapeData.{shape_data};
ghost use Rattle.index_text.specs.Faults.{Gives};
ghost use Rattle.index_text.specs.Fields.{word_at, head_of, sealed_at, code_with, back_with, map_with, encoding_at, shape_at};

use bucket_map::{MAX_ALPHA, MAX_C, MAX_KEYS, MAX_PARTITIONS, MIN_ALPHA, MIN_C, Map, Shape};
use index_text::{
    ALPHA_AT, BUCKETS_AT, DIGEST_LEN, HeadFields, IndexFault, KEYS_AT, MAGIC, MARKED, MAX_BYTES,
    MIN_BYTES, PARTITIONS_AT, UNMARKED,
};
use murmur64::murmur64;
use pilot_codecs::{Code, Encoding};

// The number at a place.
pub(crate) fn word_in(bytes: &[u8], at: usize) -> u64
    requires { at + 8 ≤ length bytes.now }
    ensures { result ≡ word_at at bytes.now }
{
    let b = &bytes[at..at + 8];
    u64::from_le_bytes([b[0], b[1], b[2], b[3], b[4], b[5], b[6], b[7]])
}

// The bytes before the digest, if it is theirs.
#[tactic(auto, unfolding(index_text::specs::Fields::sealed_at))]
pub(crate) fn sealed(bytes: &[u8]) -> Result<&[u8], IndexFault>
    ensures { Gives (λ b. b.now) result (sealed_at bytes.now) }
{
    if bytes.len() > MAX_BYTES {
        return Err(IndexFault::Large);
    }
    if bytes.len() < MIN_BYTES {
        return Err(IndexFault::Short);
    }
    if bytes[..4] != MAGIC[..] {
        return Err(IndexFault::Magic);
    }
    let version = bytes[4];
    if !is_version(version) {
        return Err(IndexFault::Version { found: version });
    }
    let body = &bytes[..bytes.len() - DIGEST_LEN];
    let kept = word_in(bytes, bytes.len() - DIGEST_LEN);
    let counted = murmur64(body, 0);
    if kept != counted {
        return Err(IndexFault::Digest { kept, counted });
    }
    Ok(body)
}

// Whether a version is read.
fn is_version(version: u8) -> bool
    ensures { result ≡ Rattle.index_text.specs.Fields.is_version version }
{
    UNMARKED <= version && version <= MARKED
}

// Whether a number is in its range.
fn is_within(least: u64, most: u64, k: u64) -> bool
    ensures { result ≡ Rattle.index_text.specs.Fields.is_within least most k }
{
    least <= k && k <= most
}

// The fields that bytes begin with.
#[tactic(auto, unfolding(index_text::specs::Fields::head_of))]
pub(crate) fn head_fields(bytes: &[u8]) -> HeadFields
    requires { 48 ≤ length bytes.now }
    ensures { result ≡ head_of bytes.now }
{
    HeadFields {
        version: bytes[4],
        front: bytes[5],
        back: bytes[6],
        spread: bytes[7],
        seed: word_in(bytes, 8),
        n: word_in(bytes, 16),
        alpha: word_in(bytes, 24),
        c: word_in(bytes, 32),
        parts: word_in(bytes, 40),
    }
}

// The code with a number.
#[tactic(auto, unfolding(index_text::specs::Fields::code_with))]
fn code_of(number: u8) -> Result<Code, IndexFault>
    ensures { Gives (λ code. code) result (code_with number) }
{
    match number {
        1 => Ok(Code::Compact),
        2 => Ok(Code::Parted),
        3 => Ok(Code::Dict),
        4 => Ok(Code::EliasFano),
        _ => Err(IndexFault::Encoding),
    }
}

// The back code with a number.
#[tactic(auto, unfolding(index_text::specs::Fields::back_with))]
fn back_of(number: u8) -> Result<Option<Code>, IndexFault>
    ensures { Gives (λ back. back) result (back_with number) }
{
    if number == 0 {
        return Ok(None);
    }
    let code = code_of(number)?;
    Ok(Some(code))
}

// The encoding.
#[tactic(auto, unfolding(index_text::specs::Fields::encoding_at))]
pub(crate) fn encoding_of(head: HeadFields) -> Result<Encoding, IndexFault>
    ensures { Gives (λ enc. enc) result (encoding_at head) }
{
    let front = code_of(head.front)?;
    let back = back_of(head.back)?;
    Ok(Encoding { front, back })
}

// The map with a number.
#[tactic(auto, unfolding(index_text::specs::Fields::map_with))]
pub(crate) fn map_of(version: u8, number: u8) -> Result<Map, IndexFault>
    ensures { Gives (λ map. map) result (map_with version number) }
{
    if number == 0 {
        return Ok(Map::Skewed);
    }
    if number == 1 && version == MARKED {
        return Ok(Map::Uniform);
    }
    Err(IndexFault::Encoding)
}

// The shape, if it and the numbers of keys and partitions are in their ranges.
#[tactic(auto, unfolding(index_text::specs::Fields::shape_at))]
pub(crate) fn shape_of(map: Map, head: HeadFields) -> Result<Shape, IndexFault>
    ensures value { Gives shape_data result (shape_at map head) }
    ensures parts { IfOk result (λ shape. head.parts ≤ MAX_PARTITIONS) }
    ensures map { IfOk result (λ shape. shape.map ≡ map) }
{
    if !is_within(1, MAX_KEYS, head.n) {
        return Err(IndexFault::Field { at: KEYS_AT });
    }
    if !is_within(u64::from(MIN_ALPHA), u64::from(MAX_ALPHA), head.alpha) {
        return Err(IndexFault::Field { at: ALPHA_AT });
    }
    if !is_within(u64::from(MIN_C), u64::from(MAX_C), head.c) {
        return Err(IndexFault::Field { at: BUCKETS_AT });
    }
    if !is_within(1, u64::from(MAX_PARTITIONS), head.parts) {
        return Err(IndexFault::Field { at: PARTITIONS_AT });
    }
    Ok(Shape {
        alpha: head.alpha as u32,
        c: head.c as u32,
        map,
    })
}
