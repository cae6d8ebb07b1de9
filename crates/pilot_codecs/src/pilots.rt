// A list of small numbers under an encoding.
ghost use Rattle.std.specs.Prelude.{◌≡◌, ◌+◌, ◌^◌, ◌<◌, ◌≤◌, ◌++◌, ℕ, List, length, take, drop, slice_index, IfOk, OnOk, OnErr};
ghost use Rattle.std.specs.List.{slice_get};
ghost use Rattle.pthash.specs.Sizes.{front_count_of};
ghost use Rattle.elias_fano.specs.Values.{below_len};
ghost use Rattle.elias_fano.specs.Reading.{Gives, TellsShort};
ghost use Rattle.pilot_codecs.specs.Spelling.{code_text, pair_text};
ghost use Rattle.pilot_codecs.specs.Reading.{code_at};
ghost use Rattle.pilot_codecs.specs.Values.{values_of, code_of};
ghost use Rattle.pilot_codecs.specs.Encoded.{Encoded, encoded_of, HasText, ArePilots, IsSpelled, front_len, pair_at};

use crate::code::{Code, Encoding};
use crate::part::{Part, encode_part, part_below, part_get, part_len, put_part, read_part};
use bit_vector::NoMemory;
use elias_fano::ReadErr;
use std::alloc::Global;
use std::marker::Model;

/// At most 2^30 small numbers under an encoding, each to be read at once.
#[derive(Drop)]
pub struct Pilots {
    front: Part,
    back: Option<Part>,
}

impl Model for Pilots {
    ghost use Rattle.pilot_codecs.specs.Encoded.{Encoded, encoded_of, ArePilots};

    ghost Value = { Encoded };

    ghost view = { λ p. encoded_of p.front p.back };

    ghost invariant = { λ p. ArePilots p.front p.back };
}

// How many values the front part has.
fn front_count(count: u64) -> u64
    requires { count ≤ 2 ^ 30 }
    ensures { result ≡ front_count_of count }
{
    3 * count / 10
}

impl Pilots {
    /// The list of these values under an encoding.
    pub fn encode(alloc: Global, values: &[u64], enc: Encoding) -> Result<Pilots, NoMemory>
        requires few { length values.now ≤ 2 ^ 30 }
        requires small { (i : ℕ) → slice_index values.now i < 2 ^ 32 }
        ensures values { IfOk result (λ p. p.values ≡ values.now) }
        ensures enc { IfOk result (λ p. p.enc ≡ enc) }
    {
        match enc.back {
            None => {
                let front = encode_part(alloc, values, enc.front)?;
                Ok(Pilots { front, back: None })
            }
            Some(code) => {
                let (first, rest) = values.split_at(front_count(values.len() as u64) as usize);
                let front = encode_part(alloc, first, enc.front)?;
                let back = encode_part(alloc, rest, code)?;
                Ok(Pilots {
                    front,
                    back: Some(back),
                })
            }
        }
    }

    /// The value with an index.
    pub fn get(&self, i: u64) -> Option<u64>
        ensures { result ≡ slice_get self.now.values i }
    {
        match &self.back {
            None => part_get(&self.front, i),
            Some(back) => get_of(&self.front, back, i),
        }
    }

    /// How many values at the front are below a bound: all of them at once where a code shows it.
    pub fn below(&self, bound: u64) -> u64
        ensures { result ≡ below_len bound self.now.values }
    {
        match &self.back {
            None => part_below(&self.front, bound),
            Some(back) => below_both(&self.front, back, bound),
        }
    }

    /// How many values there are.
    pub fn len(&self) -> u64
        ensures value { result ≡ length self.now.values }
        ensures most { result ≤ 2 ^ 30 }
        // So what is written is read again.
        ensures fits { HasText self.now }
    {
        match &self.back {
            None => part_len(&self.front),
            Some(back) => part_len(&self.front) + part_len(back),
        }
    }

    /// Appends the spelling; on want of memory nothing.
    pub fn write(&self, out: &mut Vec<u8>) -> Result<(), NoMemory>
        ensures ok { OnOk result (out.new.items
            ≡ out.old.items ++ pair_text self.now.enc self.now.values) }
        ensures err { OnErr result (out.new.items ≡ out.old.items) }
    {
        let start = out.len();
        let written = match &self.back {
            None => put_part(&self.front, out),
            Some(back) => put_both(&self.front, back, out),
        };
        if written.is_err() {
            out.truncate(start);
        }
        written
    }

    /// The list of a count under an encoding whose spelling stands at a place, and the place after it.
    /// Places, that of a fault too, are those of the slice that is handed in, which may begin and end
    /// inside a file.
    pub fn read(
        alloc: Global,
        bytes: &[u8],
        at: usize,
        count: u64,
        enc: Encoding,
    ) -> Result<(Pilots, usize), ReadErr>
        requires within { at ≤ length bytes.now }
        requires few { count ≤ 2 ^ 30 }
        // What is read is a list of that count, and its spelling stands there.
        ensures found { IfOk result (λ x. IsSpelled bytes.now at count enc x.0.values x.1) }
        ensures enc { IfOk result (λ x. x.0.enc ≡ enc) }
        // What is spelled there is read, unless memory runs out.
        ensures only { (vs : List ℕ) (next : ℕ) → IsSpelled bytes.now at count enc vs next
            → Gives {Y = List ℕ × ℕ} (λ x. (x.0.values, x.1)) result (Ok (vs, next)) }
        // No other list of that count is spelled there.
        ensures one { (vs us : List ℕ) (m n : ℕ) → IsSpelled bytes.now at count enc vs m
            → IsSpelled bytes.now at count enc us n → (vs ≡ us) × (m ≡ n) }
        // Which fault it is: the first one.
        ensures exact { Gives (λ x. (x.0.values, drop x.1 bytes.now)) result
            (pair_at enc at count (drop at bytes.now)) }
        // Too few bytes for the first words are told before memory is taken.
        ensures short { TellsShort at result
            (code_at enc.front at (front_len enc.back count) (drop at bytes.now)) }
    {
        let rest = &bytes[at..];
        let (list, rest) = read_pair(alloc, at as u64, count, rest, enc)?;
        Ok((list, bytes.len() - rest.len()))
    }
}

// The value with an index in two parts.
fn get_of(front: &Part, back: &Part, i: u64) -> Option<u64>
    ensures { result ≡ slice_get (values_of front.now ++ values_of back.now) i }
{
    let first = part_len(front);
    // The part is chosen before it is read: which one it is can't be foreseen, so no branch is to hang on it.
    let (part, at) = if i < first {
        (front, i)
    } else {
        (back, i - first)
    };
    part_get(part, at)
}

// How many values at the front of two parts are below a bound.
fn below_both(front: &Part, back: &Part, bound: u64) -> u64
    requires { length (values_of front.now ++ values_of back.now) ≤ 2 ^ 30 }
    ensures { result ≡ below_len bound (values_of front.now ++ values_of back.now) }
{
    let first = part_len(front);
    let below = part_below(front, bound);
    if below < first {
        return below;
    }
    first + part_below(back, bound)
}

// Appends both parts; on want of memory a part of them.
fn put_both(front: &Part, back: &Part, out: &mut Vec<u8>) -> Result<(), NoMemory>
    ensures ok { OnOk result (out.new.items ≡ out.old.items
        ++ (code_text (code_of front.now) (values_of front.now)
        ++ code_text (code_of back.now) (values_of back.now))) }
    ensures kept { take (length out.old.items) out.new.items ≡ out.old.items }
{
    put_part(front, out)?;
    put_part(back, out)?;
    Ok(())
}

// The list of a count under an encoding that bytes begin with, and the bytes after it.
fn read_pair(
    alloc: Global,
    at: u64,
    count: u64,
    bytes: &[u8],
    enc: Encoding,
) -> Result<(Pilots, &[u8]), ReadErr>
    requires few { count ≤ 2 ^ 30 }
    requires place { at + length bytes.now ≤ 2 ^ 63 }
    ensures values { Gives (λ x. (x.0.values, x.1.now)) result (pair_at enc at count bytes.now) }
    ensures enc { IfOk result (λ x. x.0.enc ≡ enc) }
    ensures short { TellsShort at result
        (code_at enc.front at (front_len enc.back count) bytes.now) }
{
    match enc.back {
        None => {
            let (front, rest) = read_part(alloc, at, count, bytes, enc.front)?;
            Ok((Pilots { front, back: None }, rest))
        }
        Some(code) => {
            let first = front_count(count);
            let (front, rest) = read_part(alloc, at, first, bytes, enc.front)?;
            let place = at + (bytes.len() - rest.len()) as u64;
            let (back, rest) = read_part(alloc, place, count - first, rest, code)?;
            Ok((
                Pilots {
                    front,
                    back: Some(back),
                },
                rest,
            ))
        }
    }
}
