// The summary of an index that was built.
ghost use Rattle.std.specs.Prelude.{◌≡◌, ◌≤◌, length, IfOk, string_bytes};
ghost use Rattle.pthash.specs.declared.TheConstants.{MIN_ALPHA, MAX_ALPHA, MAX_PARTITIONS};
ghost use Rattle.pth_top.specs.Build.{tables_size};
ghost use Rattle.pth_top.specs.Texts.{summary};

use crate::text::push_number;
use bucket_map::table_size;
use hem_build::{Built, Part};
use std::alloc::{AllocError, Global};

// The sizes of the tables of some partitions, added up.
fn size_of_tables(alpha: u32, parts: &[Part]) -> u64
    requires low { MIN_ALPHA ≤ alpha }
    requires high { alpha ≤ MAX_ALPHA }
    requires few { length parts.now ≤ MAX_PARTITIONS }
    ensures { result ≡ tables_size alpha parts.now }
{
    let mut size = 0;
    for i in 0..parts.len() {
        let part = &parts[i];
        size += table_size(part.n, alpha);
    }
    size
}

/// The summary of an index whose file has this many bytes.
pub fn summary_text(alloc: Global, built: &Built, bytes: u64) -> Result<String, AllocError>
    ensures { IfOk result (λ text. string_bytes text ≡ summary built.now.n built.now.seed
        (tables_size built.now.shape.alpha built.now.parts) bytes) }
{
    let size = size_of_tables(built.shape.alpha, &built.parts);
    let mut text = String::new(alloc);
    push_number(&mut text, "built keys ", built.n)?;
    push_number(&mut text, " seed ", built.seed)?;
    push_number(&mut text, " size ", size)?;
    push_number(&mut text, " bytes ", bytes)?;
    text.push_str("\n")?;
    Ok(text)
}
