// The lines of a list walked one by one.
ghost use Rattle.std.specs.Prelude.{◌≡◌, ◌<◌, ◌≤◌, ◌++◌, ◌∷◌, [], List, ℕ, None, false, replicate, IfOk, IfSome};
ghost use Rattle.pthash.specs.declared.TheConstants.{MAX_KEYS};
ghost use Rattle.build_outcome.specs.Values.{value_of};
ghost use Rattle.key_check.specs.Checked.{fault_of_value, after_all, is_same_mark, compared};
ghost use Rattle.key_check.specs.Walks.{IsFor, HasWalked, marked_by};

use crate::checked::Checked;
use bit_vector::{BitVec, NoMemory};
use build_outcome::KeyMark;
use index_file::Index;
use murmur64::hash_pair;
use std::alloc::{AllocError, Global};

// What is kept of the lines that were walked: by value the number of the line that has it, 0 for none,
// how many lines, and their mark at a seed. Which values are had is kept in bits besides: these stay in the
// caches, and a number is only written, so that nothing waits for it.
#[derive(Drop)]
pub(crate) struct Walk {
    pub(crate) numbers: Vec<u32>,
    pub(crate) seen: BitVec,
    pub(crate) lines: u64,
    pub(crate) seed: u64,
    pub(crate) mark: KeyMark,
}

// As many zeros.
fn blank(alloc: Global, n: usize) -> Result<Vec<u32>, AllocError>
    ensures { IfOk result (λ v. v.items ≡ replicate n 0) }
{
    vec![in alloc; 0; n]
}

// As many clear bits.
fn no_bits(alloc: Global, n: u64) -> Result<BitVec, AllocError>
    requires { n ≤ MAX_KEYS }
    ensures { IfOk result (λ bits. bits ≡ replicate n false) }
{
    match BitVec::zeros(alloc, n) {
        Ok(bits) => Ok(bits),
        Err(NoMemory) => Err(AllocError),
    }
}

// Whether both marks are the same.
fn are_same(kept: KeyMark, counted: KeyMark) -> bool
    ensures { result ≡ is_same_mark kept counted }
{
    kept.sum == counted.sum && kept.xor == counted.xor
}

// What the marks of as many lines as keys come to.
fn compare(kept: Option<KeyMark>, counted: KeyMark) -> Checked
    ensures { result ≡ compared kept counted }
{
    match kept {
        None => Checked::Good { mark: counted },
        Some(kept) => {
            if are_same(kept, counted) {
                return Checked::Good { mark: counted };
            }
            Checked::Differs { kept, counted }
        }
    }
}

// The mark with one line more, by its hashes.
fn more_marked(mark: KeyMark, a: u64, b: u64) -> KeyMark
    ensures { result ≡ marked_by mark a b }
{
    KeyMark {
        sum: mark.sum.wrapping_add(a),
        xor: mark.xor ^ b,
    }
}

impl Walk {
    // No line so far.
    pub(crate) fn new(alloc: Global, index: &Index) -> Result<Self, AllocError>
        ensures fits { IfOk result (λ walk. IsFor index.now.index walk) }
        ensures walked { IfOk result (λ walk. HasWalked index.now.index [] walk) }
    {
        let head = index.head();
        Ok(Self {
            numbers: blank(alloc, head.n as usize)?,
            seen: no_bits(alloc, head.n)?,
            lines: 0,
            seed: head.seed,
            mark: KeyMark { sum: 0, xor: 0 },
        })
    }

    // Takes the next line, unless it has no value, or the value of an earlier one.
    pub(crate) fn take_line(&mut self, index: &Index, line: &[u8]) -> Option<Checked>
        requires { IsFor index.now.index self.old }
        ensures fits { IsFor index.now.index self.new }
        ensures below { IfSome (value_of index.now.index line.now) (λ v. v < index.now.index.n) }
        ensures fault { (before : List (List ℕ)) → HasWalked index.now.index before self.old →
            result ≡ fault_of_value index.now.index before (value_of index.now.index line.now) }
        ensures walked { (before : List (List ℕ)) →
            HasWalked index.now.index before self.old →
            result ≡ None → HasWalked index.now.index (before ++ line.now ∷ []) self.new }
    {
        let number = self.lines + 1;
        let pair = hash_pair(line, self.seed);
        let value = match index.lookup_pair(pair) {
            None => return Some(Checked::NoValue { line: number }),
            Some(value) => value,
        };
        if self.seen.get(value) {
            let earlier = u64::from(self.numbers[value as usize]);
            return Some(Checked::Repeats {
                line: number,
                earlier,
            });
        }
        self.seen.set(value);
        self.numbers[value as usize] = number as u32;
        self.lines = number;
        self.mark = more_marked(self.mark, pair.a, pair.b);
        None
    }

    // What it comes to after the last line.
    pub(crate) fn end(&self, index: &Index) -> Checked
        ensures { (before : List (List ℕ)) → HasWalked index.now.index before self.now →
            result ≡ after_all index.now.index before }
    {
        let head = index.head();
        if self.lines < head.n {
            return Checked::Counts {
                n: head.n,
                lines: self.lines,
            };
        }
        compare(head.mark, self.mark)
    }
}
