// From the words after the program's name to the command that they ask for.
ghost use Rattle.std.specs.Prelude.{◌≡◌, ◌+◌, ◌<◌, ◌≤◌, ◌^◌, IfOk, IfErr, Ok, Err, Some, length};
ghost use Rattle.command_words.specs.Options.{words_of, options_data};
ghost use Rattle.command_words.specs.Refusals.{IfBad};
ghost use Rattle.command_words.specs.Settings.{chosen_values, nothing_given};
ghost use Rattle.command_words.specs.Values.{number_in};
ghost use Rattle.command_words.specs.Words.{command_data, name_of, command_named, command_of};
ghost use Rattle.command_words.specs.Words.{pilots_of, build_of, query_of, check_of, stats_of, upgrade_of, demo_of};
ghost use Rattle.command_words.specs.Words.{in_word, names_data, two_names, options_in, given_by};

use crate::chosen::Chosen;
use crate::demo::{Demo, MAX_DEMO_KEYS};
use crate::faults::{Refusal, WordFault, WordsErr};
use crate::kinds::{COMMAND, EXTRA, MISSING, SAME_NAME};
use crate::names::{is_of_index, is_own_or_tmp};
use crate::number::read_number;
use crate::options::Options;
use std::alloc::Global;

/// A command with its names and its settings.
#[derive(Debug, Drop)]
pub enum Command {
    Pilots {
        keys: String,
        options: Options,
    },
    Build {
        keys: String,
        index: String,
        options: Options,
    },
    Query {
        index: String,
        queries: String,
    },
    Check {
        index: String,
        keys: String,
    },
    Stats {
        index: String,
    },
    Upgrade {
        index: String,
        keys: String,
    },
    Demo(Demo),
}

// The names of two files.
#[derive(Drop)]
pub(crate) struct TwoNames {
    pub(crate) first: String,
    pub(crate) second: String,
}

// The name of a command.
#[derive(Clone, Copy, Debug, PartialEq, Eq)]
pub(crate) enum Name {
    Pilots,
    Build,
    Query,
    Check,
    Upgrade,
    Stats,
    Demo,
}

/// The command that the words after the program's name ask for, or the first faulty word.
pub fn read_words(alloc: Global, words: &[String]) -> Result<Command, WordsErr>
    ensures ok { IfOk result (λ c. command_of (words_of words.now) ≡ Ok (command_data c)) }
    ensures bad { IfErr result (IfBad (λ fault. command_of (words_of words.now) ≡ Err fault)) }
{
    let Some((command, rest)) = words.split_first() else {
        return Err(bad(0, MISSING));
    };
    let Some(name) = name_in(command) else {
        return Err(bad(0, COMMAND));
    };
    read_command(alloc, name, rest)
}

// A fault of this word.
fn bad(word: u64, kind: u8) -> WordsErr
    ensures { result ≡ WordsErr.Bad (record { word = word; kind = kind }) }
{
    WordsErr::Bad(WordFault { word, kind })
}

// The name of a command that a word is.
fn name_in(word: &str) -> Option<Name>
    ensures { result ≡ name_of word.now }
{
    match word {
        "pilots" => Some(Name::Pilots),
        "build" => Some(Name::Build),
        "query" => Some(Name::Query),
        "check" => Some(Name::Check),
        "upgrade" => Some(Name::Upgrade),
        "stats" => Some(Name::Stats),
        "demo" => Some(Name::Demo),
        _ => None,
    }
}

// The command of a name, from the words after it.
fn read_command(alloc: Global, name: Name, words: &[String]) -> Result<Command, WordsErr>
    ensures ok { IfOk result (λ c.
        command_named (Some name) (words_of words.now) ≡ Ok (command_data c)) }
    ensures bad { IfErr result (IfBad (λ fault.
        command_named (Some name) (words_of words.now) ≡ Err fault)) }
{
    match name {
        Name::Pilots => read_pilots(alloc, words),
        Name::Build => read_build(alloc, words),
        Name::Query => read_query(alloc, words),
        Name::Check => read_check(alloc, words),
        Name::Upgrade => read_upgrade(alloc, words),
        Name::Stats => read_stats(alloc, words),
        Name::Demo => read_demo(words),
    }
}

// The command `pilots`, from the words after it.
fn read_pilots(alloc: Global, words: &[String]) -> Result<Command, WordsErr>
    ensures ok { IfOk result (λ c. pilots_of (words_of words.now) ≡ Ok (command_data c)) }
    ensures bad { IfErr result (IfBad (λ fault. pilots_of (words_of words.now) ≡ Err fault)) }
{
    let Some((keys, settings)) = words.split_first() else {
        return Err(bad(1, MISSING));
    };
    let options = read_options(alloc, settings, 2)?;
    let keys = String::from_str(alloc, keys)?;
    Ok(Command::Pilots { keys, options })
}

// The command `build`, from the words after it.
fn read_build(alloc: Global, words: &[String]) -> Result<Command, WordsErr>
    ensures ok { IfOk result (λ c. build_of (words_of words.now) ≡ Ok (command_data c)) }
    ensures bad { IfErr result (IfBad (λ fault. build_of (words_of words.now) ≡ Err fault)) }
{
    let Some((keys, rest)) = words.split_first() else {
        return Err(bad(1, MISSING));
    };
    let Some((index, settings)) = rest.split_first() else {
        return Err(bad(2, MISSING));
    };
    let options = read_options(alloc, settings, 3)?;
    if is_of_index(keys, index) {
        return Err(bad(1, SAME_NAME));
    }
    let keys = String::from_str(alloc, keys)?;
    let index = String::from_str(alloc, index)?;
    Ok(Command::Build {
        keys,
        index,
        options,
    })
}

// The command `query`, from the words after it.
fn read_query(alloc: Global, words: &[String]) -> Result<Command, WordsErr>
    ensures ok { IfOk result (λ c. query_of (words_of words.now) ≡ Ok (command_data c)) }
    ensures bad { IfErr result (IfBad (λ fault. query_of (words_of words.now) ≡ Err fault)) }
{
    let names = read_two(alloc, words)?;
    Ok(Command::Query {
        index: names.first,
        queries: names.second,
    })
}

// The command `check`, from the words after it.
fn read_check(alloc: Global, words: &[String]) -> Result<Command, WordsErr>
    ensures ok { IfOk result (λ c. check_of (words_of words.now) ≡ Ok (command_data c)) }
    ensures bad { IfErr result (IfBad (λ fault. check_of (words_of words.now) ≡ Err fault)) }
{
    let names = read_two(alloc, words)?;
    Ok(Command::Check {
        index: names.first,
        keys: names.second,
    })
}

// The command `upgrade`, from the words after it.
fn read_upgrade(alloc: Global, words: &[String]) -> Result<Command, WordsErr>
    ensures ok { IfOk result (λ c. upgrade_of (words_of words.now) ≡ Ok (command_data c)) }
    ensures bad { IfErr result (IfBad (λ fault. upgrade_of (words_of words.now) ≡ Err fault)) }
{
    let names = read_two(alloc, words)?;
    if is_own_or_tmp(&names.second, &names.first) {
        return Err(bad(2, SAME_NAME));
    }
    Ok(Command::Upgrade {
        index: names.first,
        keys: names.second,
    })
}

// The two names that words are, with no word after them.
fn read_two(alloc: Global, words: &[String]) -> Result<TwoNames, WordsErr>
    ensures ok { IfOk result (λ names. two_names (words_of words.now) ≡ Ok (names_data names)) }
    ensures bad { IfErr result (IfBad (λ fault. two_names (words_of words.now) ≡ Err fault)) }
{
    let Some((first, rest)) = words.split_first() else {
        return Err(bad(1, MISSING));
    };
    let Some((second, more)) = rest.split_first() else {
        return Err(bad(2, MISSING));
    };
    if !more.is_empty() {
        return Err(bad(3, EXTRA));
    }
    let first = String::from_str(alloc, first)?;
    let second = String::from_str(alloc, second)?;
    Ok(TwoNames { first, second })
}

// The command `stats`, from the words after it.
fn read_stats(alloc: Global, words: &[String]) -> Result<Command, WordsErr>
    ensures ok { IfOk result (λ c. stats_of (words_of words.now) ≡ Ok (command_data c)) }
    ensures bad { IfErr result (IfBad (λ fault. stats_of (words_of words.now) ≡ Err fault)) }
{
    let Some((index, more)) = words.split_first() else {
        return Err(bad(1, MISSING));
    };
    if more.is_empty() {
        let index = String::from_str(alloc, index)?;
        return Ok(Command::Stats { index });
    }
    Err(bad(2, EXTRA))
}

// The command `demo`, from the words after it.
fn read_demo(words: &[String]) -> Result<Command, WordsErr>
    ensures ok { IfOk result (λ c. demo_of (words_of words.now) ≡ Ok (command_data c)) }
    ensures bad { IfErr result (IfBad (λ fault. demo_of (words_of words.now) ≡ Err fault)) }
{
    let Some((count, rest)) = words.split_first() else {
        return Err(bad(1, MISSING));
    };
    let Some((seed, more)) = rest.split_first() else {
        return Err(bad(2, MISSING));
    };
    let count = number_in_word(1, count, 1, MAX_DEMO_KEYS)?;
    let seed = number_in_word(2, seed, 0, u64::MAX)?;
    if more.is_empty() {
        return Ok(Command::Demo(Demo { count, seed }));
    }
    Err(bad(3, EXTRA))
}

// The number that this word spells, from low to high.
fn number_in_word(word: u64, text: &str, low: u64, high: u64) -> Result<u64, WordsErr>
    ensures ok { IfOk result (λ n. in_word word (number_in low high text.now) ≡ Ok n) }
    ensures bad { IfErr result (IfBad (λ fault.
        in_word word (number_in low high text.now) ≡ Err fault)) }
    ensures reaches { IfOk result (λ n. low ≤ n) }
    ensures fits { IfOk result (λ n. n ≤ high) }
{
    match read_number(text, low, high) {
        Ok(n) => Ok(n),
        Err(Refusal::Kind(kind)) => Err(bad(word, kind)),
        Err(Refusal::NoMemory) => Err(WordsErr::NoMemory),
    }
}

// The settings that words give, the first of them in this word.
fn read_options(alloc: Global, words: &[String], first: u64) -> Result<Options, WordsErr>
    requires { first + length words.now < 2 ^ 64 }
    ensures ok { IfOk result (λ o. options_in (words_of words.now) first ≡ Ok (options_data o)) }
    ensures bad { IfErr result (IfBad (λ fault.
        options_in (words_of words.now) first ≡ Err fault)) }
{
    Ok(read_settings(alloc, words, first)?.options(alloc)?)
}

// The values of the settings that words give, the first of them in this word.
fn read_settings(alloc: Global, words: &[String], first: u64) -> Result<Chosen, WordsErr>
    requires { first + length words.now < 2 ^ 64 }
    ensures ok { IfOk result (λ chosen.
        given_by (words_of words.now) first nothing_given ≡ Ok (chosen_values chosen)) }
    ensures bad { IfErr result (IfBad (λ fault.
        given_by (words_of words.now) first nothing_given ≡ Err fault)) }
{
    let mut chosen = Chosen::new();
    for (i, word) in words.iter().enumerate() {
        match chosen.take_word(alloc, word) {
            Ok(()) => {}
            Err(Refusal::Kind(kind)) => return Err(bad(first + i as u64, kind)),
            Err(Refusal::NoMemory) => return Err(WordsErr::NoMemory),
        }
    }
    Ok(chosen)
}
