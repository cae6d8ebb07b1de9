// An index read from its bytes.
ghost use Rattle.std.specs.Prelude.{◌≡◌, ◌≤◌, ◌^◌, List, ℕ, Ok, length, drop, IfOk, OnOk};
ghost use Rattle.pilot_codecs.specs.declared.code.Encoding.{Encoding};
ghost use Rattle.build_outcome.specs.Index.{IndexData};
ghost use Rattle.index_text.specs.Faults.{Gives};
ghost use Rattle.index_text.specs.Reading.{headed_at, index_at};
ghost use Rattle.index_text.specs.Text.{IsIndex};
ghost use Rattle.index_file.specs.Held.{held_data, IsHeld};

use crate::counts::{counts_of, mark_of, starts_of};
use crate::fields::{encoding_of, head_fields, map_of, sealed, shape_of};
use crate::held::Held;
use crate::index::Index;
use crate::partitions::partitions_of;
use index_text::{HEAD_LEN, HeadFields, IndexFault};
use std::alloc::Global;

// The index with these fields, whose bytes before the digest are these.
#[tactic(auto, unfolding(index_text::specs::Reading::headed_at))]
fn held_of(alloc: Global, head: HeadFields, body: &[u8]) -> Result<Held, IndexFault>
    requires head { 48 ≤ length body.now }
    requires most { length body.now ≤ 2 ^ 40 }
    ensures value { Gives (λ held. (held_data held, held.enc)) result
        (headed_at (length body.now) head (drop 48 body.now)) }
    ensures held { IfOk result (λ held. IsHeld held) }
{
    let enc = encoding_of(head)?;
    let map = map_of(head.version, head.spread)?;
    let shape = shape_of(map, head)?;
    let (mark, at) = mark_of(head.version, body, HEAD_LEN)?;
    let (counts, at) = counts_of(alloc, head.n, head.parts, body, at)?;
    let (parts, at) = partitions_of(alloc, body, at, enc, shape, &counts)?;
    if at != body.len() {
        return Err(IndexFault::Long { at: at as u64 });
    }
    Ok(Held {
        seed: head.seed,
        n: head.n,
        shape,
        enc,
        mark,
        parts,
        starts: starts_of(alloc, &counts)?,
    })
}

// What an index keeps of its bytes.
#[tactic(auto, unfolding(index_text::specs::Reading::index_at))]
fn read_held(alloc: Global, bytes: &[u8]) -> Result<Held, IndexFault>
    ensures value { Gives (λ held. (held_data held, held.enc)) result (index_at bytes.now) }
    ensures held { IfOk result (λ held. IsHeld held) }
{
    let body = sealed(bytes)?;
    held_of(alloc, head_fields(body), body)
}

/// The index that these bytes are, of either version, or their first fault. Nothing grows before it
/// is known that the bytes are long enough for it.
pub fn read_index(alloc: Global, bytes: &[u8]) -> Result<Index, IndexFault>
    // What is read is the index whose file these bytes are.
    ensures found { IfOk result (λ index. IsIndex bytes.now index.index index.enc) }
    // The file of an index is read, unless memory runs out.
    ensures only { (x : IndexData) (enc : Encoding) → IsIndex bytes.now x enc →
        Gives {Y = IndexData × Encoding} (λ index. (index.index, index.enc)) result
        (Ok (x, enc)) }
    // Which fault it is: the first one.
    ensures exact { Gives (λ index. (index.index, index.enc)) result (index_at bytes.now) }
{
    match read_held(alloc, bytes) {
        Ok(held) => Ok(Index::from_held(held, bytes.len() as u64)),
        Err(fault) => Err(fault),
    }
}
