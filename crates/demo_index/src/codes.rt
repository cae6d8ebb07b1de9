// The encodings that are tried.
ghost use Rattle.std.specs.Prelude.{◌≡◌, ◌++◌, map, IfOk, OnOk};
ghost use Rattle.demo_index.specs.Encodings.{all_codes, alone, followed_by, all_encodings};

use index_file::{Code, Encoding};
use std::alloc::{AllocFailed, Global};

/// The codes in their order.
pub const CODES: [Code; 4] = [Code::Compact, Code::Parted, Code::Dict, Code::EliasFano];

// Puts each code alone at the end of a list.
fn push_alone(list: &mut Vec<Encoding>) -> Result<(), AllocFailed<Encoding>>
    ensures { OnOk result (list.new.items ≡ list.old.items ++ map alone all_codes) }
{
    for i in 0..CODES.len() {
        list.push(Encoding {
            front: CODES[i],
            back: None,
        })?;
    }
    Ok(())
}

// Puts a front code with each back code at the end of a list.
fn push_pairs(list: &mut Vec<Encoding>, front: Code) -> Result<(), AllocFailed<Encoding>>
    ensures { OnOk result (list.new.items ≡ list.old.items ++ map (followed_by front) all_codes) }
{
    for i in 0..CODES.len() {
        list.push(Encoding {
            front,
            back: Some(CODES[i]),
        })?;
    }
    Ok(())
}

// Each code alone, then each pair of a front and a back code, the back code changing fastest.
pub(crate) fn encodings(alloc: Global) -> Result<Vec<Encoding>, AllocFailed<Encoding>>
    ensures { IfOk result (λ list. list.items ≡ all_encodings) }
{
    let mut list = Vec::new(alloc);
    push_alone(&mut list)?;
    for i in 0..CODES.len() {
        push_pairs(&mut list, CODES[i])?;
    }
    Ok(list)
}
