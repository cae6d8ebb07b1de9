// Packed numbers from the front on, read as many at a time as a word has room for.
ghost use Rattle.std.specs.Prelude.{ℕ, ◌≡◌, ◌*◌, ◌-◌, ◌^◌, ◌<◌, ◌≤◌, ◌||◌, false, length, get_or, IsTrue};
ghost use Rattle.elias_fano.specs.Spelling.{is_among};
ghost use Rattle.elias_fano.specs.Values.{below_len};
ghost use Rattle.pilot_codecs.specs.Reading.{are_below};
ghost use Rattle.pilot_codecs.specs.Parts.{values_in, IsCompact};

use bit_vector::bits_at;

// The number whose lowest bits are set, so many, and no other.
fn mask_of(width: u32) -> u64
    requires { width ≤ 64 }
    ensures { result ≡ 2 ^ width - 1 }
{
    if width < 64 {
        (1 << width) - 1
    } else {
        u64::MAX
    }
}

/// How many of the numbers of words are below a bound, up to the first that isn't.
pub fn count_below(words: &[u64], count: u64, width: u32, bound: u64) -> u64
    requires few { count ≤ 2 ^ 30 }
    requires some { 0 < width }
    requires wide { width ≤ 64 }
    requires room { count * width ≤ 64 * length words.now }
    ensures { result ≡ below_len bound (values_in count width words.now) }
{
    let mask = mask_of(width);
    let room = u64::from(64 / width);
    let mut i = 0;
    while i < count {
        let many = room.min(count - i);
        let at = (i * u64::from(width)) as usize;
        let bits = bits_at(words, at, many as u32 * width);
        for j in 0..many as u32 {
            let number = bits >> (j * width) & mask;
            if number >= bound {
                return i + u64::from(j);
            }
        }
        i += many;
    }
    count
}

/// Sets the mark of each number of words, up to the first that has no mark, and says whether each
/// has one.
pub fn mark_each(marks: &mut [bool], words: &[u64], count: u64, width: u32) -> bool
    requires { IsCompact count width words.now }
    ensures value { result ≡ are_below (length marks.old) (values_in count width words.now) }
    ensures marks { IsTrue result → (d : ℕ) → d < length marks.old → get_or marks.new d false
        ≡ (get_or marks.old d false || is_among d (values_in count width words.now)) }
{
    let mask = mask_of(width);
    let room = u64::from(64 / width);
    let mut i = 0;
    while i < count {
        let many = room.min(count - i);
        let at = (i * u64::from(width)) as usize;
        let bits = bits_at(words, at, many as u32 * width);
        for j in 0..many as u32 {
            let number = bits >> (j * width) & mask;
            if number >= marks.len() as u64 {
                return false;
            }
            marks[number as usize] = true;
        }
        i += many;
    }
    true
}
