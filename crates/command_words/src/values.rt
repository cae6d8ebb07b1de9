// Values that are one of a few words.
ghost use Rattle.std.specs.Prelude.{◌≡◌};
ghost use Rattle.command_words.specs.Refusals.{Answers};
ghost use Rattle.command_words.specs.Values.{code_of, cut_at, encoding_of, encoding_in, map_in, search_in};

use crate::faults::Refusal;
use crate::kinds::RANGE;
use settings::{Code, Encoding, Map};

// Who leads a search with several workers.
#[derive(Clone, Copy, Debug, PartialEq, Eq)]
pub(crate) enum Search {
    Turns,
    Rounds,
}

// The byte between two codes.
pub(crate) const DASH: char = '-';

// The kind of search that a text names.
pub(crate) fn read_search(text: &str) -> Result<Search, Refusal>
    ensures { Answers (λ x. x) result (search_in text.now) }
{
    match text {
        "turns" => Ok(Search::Turns),
        "rounds" => Ok(Search::Rounds),
        _ => Err(Refusal::Kind(RANGE)),
    }
}

// The map that a text names.
pub(crate) fn read_map(text: &str) -> Result<Map, Refusal>
    ensures { Answers (λ x. x) result (map_in text.now) }
{
    match text {
        "skewed" => Ok(Map::Skewed),
        "uniform" => Ok(Map::Uniform),
        _ => Err(Refusal::Kind(RANGE)),
    }
}

// The code that a text names.
fn code_named(text: &str) -> Option<Code>
    ensures { result ≡ code_of text.now }
{
    match text {
        "c" => Some(Code::Compact),
        "pc" => Some(Code::Parted),
        "d" => Some(Code::Dict),
        "ef" => Some(Code::EliasFano),
        _ => None,
    }
}

// The one code or the two codes, joined by a dash, that a text names.
fn encoding_named(text: &str) -> Option<Encoding>
    ensures { result ≡ encoding_of text.now (cut_at DASH text.now) }
{
    match text.split_once(DASH) {
        None => {
            let front = code_named(text)?;
            Some(Encoding { front, back: None })
        }
        Some((front, back)) => {
            let front = code_named(front)?;
            let back = Some(code_named(back)?);
            Some(Encoding { front, back })
        }
    }
}

// The encoding that a text names.
pub(crate) fn read_encoding(text: &str) -> Result<Encoding, Refusal>
    ensures { Answers (λ x. x) result (encoding_in text.now) }
{
    match encoding_named(text) {
        Some(encoding) => Ok(encoding),
        None => Err(Refusal::Kind(RANGE)),
    }
}
