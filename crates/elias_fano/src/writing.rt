// Numbers and a whole list, appended to bytes.
ghost use Rattle.std.specs.Prelude.{◌≡◌, ◌++◌, length, take, OnOk, OnErr};
ghost use Rattle.std.specs.List.{flat_map};
ghost use Rattle.elias_fano.specs.Spelling.{number, run};

use bit_vector::{BitVec, NoMemory};

/// Appends numbers; on want of memory none.
pub fn put_numbers(out: &mut Vec<u8>, numbers: &[u64]) -> Result<(), NoMemory>
    ensures ok { OnOk result (out.new.items ≡ out.old.items ++ flat_map number numbers.now) }
    ensures kept { take (length out.old.items) out.new.items ≡ out.old.items }
    ensures err { OnErr result (out.new.items ≡ out.old.items) }
{
    let before = out.len();
    let put = push_numbers(out, numbers);
    if put.is_err() {
        out.truncate(before);
    }
    put
}

// The same; on want of memory a part of them.
fn push_numbers(out: &mut Vec<u8>, numbers: &[u64]) -> Result<(), NoMemory>
    ensures ok { OnOk result (out.new.items ≡ out.old.items ++ flat_map number numbers.now) }
    ensures kept { take (length out.old.items) out.new.items ≡ out.old.items }
{
    for n in numbers {
        out.extend_from_slice(&n.to_le_bytes())?;
    }
    Ok(())
}

/// Appends the last value, the low bits and the high bits; on want of memory a part of them.
pub fn put_list(out: &mut Vec<u8>, last: u64, low: &BitVec, high: &BitVec) -> Result<(), NoMemory>
    ensures ok { OnOk result
        (out.new.items ≡ out.old.items ++ (number last ++ run low.now ++ run high.now)) }
    ensures kept { take (length out.old.items) out.new.items ≡ out.old.items }
{
    put_numbers(out, &[last])?;
    put_numbers(out, low.words())?;
    put_numbers(out, high.words())?;
    Ok(())
}
