// The settings that words give, each at most once.
ghost use Rattle.std.specs.Prelude.{◌≡◌, IfOk, IfErr, IsOk, IsNone, IsSome, Some, Err, option_map, unwrap_or, vec_items};
ghost use Rattle.command_words.specs.Options.{options_data, IsInRange};
ghost use Rattle.command_words.specs.Refusals.{Answers};
ghost use Rattle.command_words.specs.Settings.{setting_of, chosen_values, nothing_given, with_value, with_word, options_of, how_of};

use crate::faults::Refusal;
use crate::kinds::{NAME, REPEATED};
use crate::number::{read_number, read_seeds, read_small};
use crate::options::Options;
use crate::values::{Search, read_encoding, read_map, read_search};
use settings::{
    DEFAULT_ALPHA, DEFAULT_BLOCKS, DEFAULT_C, DEFAULT_ENCODING, DEFAULT_MAP, DEFAULT_PARTITIONS,
    DEFAULT_PILOTS, DEFAULT_SEEDS, DEFAULT_WORKERS, Encoding, How, MAX_ALPHA, MAX_BLOCKS, MAX_C,
    MAX_KEYS, MAX_PARTITIONS, MAX_PILOTS, MAX_WORKERS, MIN_ALPHA, MIN_C, Map, Settings, Shape,
};
use std::alloc::{AllocError, Global};

// The byte between a name and its value.
const EQUALS: char = '=';

// Who leads a search where no word says it.
pub(crate) const DEFAULT_SEARCH: Search = Search::Turns;

// A setting.
#[derive(Clone, Copy, Debug, PartialEq, Eq)]
pub(crate) enum Setting {
    Seeds,
    Alpha,
    C,
    Map,
    Parts,
    Workers,
    Search,
    Enc,
    Pilots,
    Blocks,
    Limit,
}

// The setting of this name.
pub(crate) fn setting_named(name: &str) -> Option<Setting>
    ensures { result ≡ setting_of name.now }
{
    match name {
        "seeds" => Some(Setting::Seeds),
        "alpha" => Some(Setting::Alpha),
        "c" => Some(Setting::C),
        "map" => Some(Setting::Map),
        "parts" => Some(Setting::Parts),
        "workers" => Some(Setting::Workers),
        "search" => Some(Setting::Search),
        "enc" => Some(Setting::Enc),
        "pilots" => Some(Setting::Pilots),
        "blocks" => Some(Setting::Blocks),
        "limit" => Some(Setting::Limit),
        _ => None,
    }
}

// The values of the settings that words give.
#[derive(Drop)]
pub(crate) struct Chosen {
    seeds: Option<Vec<u64>>,
    alpha: Option<u32>,
    c: Option<u32>,
    map: Option<Map>,
    parts: Option<u32>,
    workers: Option<u32>,
    search: Option<Search>,
    enc: Option<Encoding>,
    pilots: Option<u64>,
    blocks: Option<u32>,
    limit: Option<u64>,
}

// Puts a value where none is yet.
fn set<T: Drop>(slot: &mut Option<T>, value: Result<T, Refusal>) -> Result<(), Refusal>
    ensures ok { IsNone slot.old → IfOk value (λ _. IsOk result) }
    ensures value { IsNone slot.old → IfOk value (λ v. slot.new ≡ Some v) }
    ensures refused { IsNone slot.old → IfErr value (λ e. result ≡ Err e) }
    ensures repeated { IsSome slot.old → result ≡ Err (Refusal.Kind REPEATED) }
{
    if slot.is_some() {
        return Err(Refusal::Kind(REPEATED));
    }
    *slot = Some(value?);
    Ok(())
}

// The seeds, or those by default where none are given.
fn seeds_or_default(alloc: Global, seeds: Option<Vec<u64>>) -> Result<Vec<u64>, AllocError>
    ensures { IfOk result (λ v. v.items ≡ unwrap_or (option_map vec_items seeds) DEFAULT_SEEDS) }
{
    match seeds {
        Some(seeds) => Ok(seeds),
        None => Vec::from_slice(alloc, &DEFAULT_SEEDS),
    }
}

// This many workers search in this way.
fn how_to_search(search: Search, workers: u32) -> How
    ensures { result ≡ how_of search workers }
{
    match search {
        Search::Turns => How::Turns(workers),
        Search::Rounds => How::Rounds(workers),
    }
}

impl Chosen {
    // No values.
    pub(crate) fn new() -> Self
        ensures { chosen_values result ≡ nothing_given }
    {
        Self {
            seeds: None,
            alpha: None,
            c: None,
            map: None,
            parts: None,
            workers: None,
            search: None,
            enc: None,
            pilots: None,
            blocks: None,
            limit: None,
        }
    }

    // Takes a value for a setting.
    fn take(&mut self, alloc: Global, setting: Setting, text: &str) -> Result<(), Refusal>
        ensures { Answers (λ _. chosen_values self.new) result
            (with_value setting text.now (chosen_values self.old)) }
    {
        match setting {
            Setting::Seeds => set(&mut self.seeds, read_seeds(alloc, text)),
            Setting::Alpha => set(&mut self.alpha, read_small(text, MIN_ALPHA, MAX_ALPHA)),
            Setting::C => set(&mut self.c, read_small(text, MIN_C, MAX_C)),
            Setting::Map => set(&mut self.map, read_map(text)),
            Setting::Parts => set(&mut self.parts, read_small(text, 1, MAX_PARTITIONS)),
            Setting::Workers => set(&mut self.workers, read_small(text, 1, MAX_WORKERS)),
            Setting::Search => set(&mut self.search, read_search(text)),
            Setting::Enc => set(&mut self.enc, read_encoding(text)),
            Setting::Pilots => set(&mut self.pilots, read_number(text, 1, MAX_PILOTS)),
            Setting::Blocks => set(&mut self.blocks, read_small(text, 0, MAX_BLOCKS)),
            Setting::Limit => set(&mut self.limit, read_number(text, 1, MAX_KEYS)),
        }
    }

    // Takes a word `name=value`.
    pub(crate) fn take_word(&mut self, alloc: Global, word: &str) -> Result<(), Refusal>
        ensures { Answers (λ _. chosen_values self.new) result
            (with_word word.now (chosen_values self.old)) }
    {
        let Some((name, text)) = word.split_once(EQUALS) else {
            return Err(Refusal::Kind(NAME));
        };
        let Some(setting) = setting_named(name) else {
            return Err(Refusal::Kind(NAME));
        };
        self.take(alloc, setting, text)
    }

    // The settings, those that no word gives as they are by default.
    pub(crate) fn options(self, alloc: Global) -> Result<Options, AllocError>
        requires { IsInRange (options_of (chosen_values self)) }
        ensures { IfOk result (λ o. options_data o ≡ options_of (chosen_values self)) }
    {
        let seeds = seeds_or_default(alloc, self.seeds)?;
        Ok(Options {
            settings: Settings {
                seeds,
                shape: Shape {
                    alpha: self.alpha.unwrap_or(DEFAULT_ALPHA),
                    c: self.c.unwrap_or(DEFAULT_C),
                    map: self.map.unwrap_or(DEFAULT_MAP),
                },
                parts: self.parts.unwrap_or(DEFAULT_PARTITIONS),
                limit: self.pilots.unwrap_or(DEFAULT_PILOTS),
                how: how_to_search(
                    self.search.unwrap_or(DEFAULT_SEARCH),
                    self.workers.unwrap_or(DEFAULT_WORKERS),
                ),
            },
            enc: self.enc.unwrap_or(DEFAULT_ENCODING),
            blocks: self.blocks.unwrap_or(DEFAULT_BLOCKS),
            most: self.limit.unwrap_or(MAX_KEYS),
        })
    }
}

/// The settings where no word gives one.
pub fn default_options(alloc: Global) -> Result<Options, AllocError>
    ensures { IfOk result (λ o. options_data o ≡ options_of nothing_given) }
{
    Chosen::new().options(alloc)
}
