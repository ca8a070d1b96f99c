ghost use Rattle.std.specs.Prelude.{◌≡◌, ◌≤◌, ◌∷◌, ℕ, List, Option, Some, bytes_eq, codes, false, true, map, option_map, string_bytes, IfSome, IfNone};
ghost use Rattle.ht_base.specs.Moment.{last_moment};
ghost use Rattle.ht_desk.specs.declared.limits.TheConstants.{GREATEST_LIMIT, LEAST_LIMIT};
ghost use Rattle.ht_program.specs.Named.{pair_of, service_told, words_told, work_told};
ghost use Rattle.ht_program.specs.Words as spec;
ghost use Rattle.ht_program.specs.Words.{AreAlone, AreTexts, AreWords, Gives, IsAsked, IsLimitOf, IsNumber, IsService, MayGive, Service, WordsOf, WorkOf, most_connections};

use crate::command::{Named, Run, Serve, Words, Work};
use crate::numbers::decimal_of;
use ht_base::LAST;
use ht_desk::{GREATEST_LIMIT, LEAST_LIMIT};

/// The names of the options that a run may have, and behind it those of the other commands.
const OF_RUN: [&str; 6] = [
    "--from",
    "--step",
    "--models",
    "--people",
    "--journal",
    "--limit",
];

const OF_CHECK: [&str; 2] = ["--models", "--people"];

const OF_EXPORT: [&str; 3] = ["--journal", "--models", "--people"];

const OF_LOAD: [&str; 4] = ["--seed", "--count", "--journal", "--limit"];

const OF_SERVE: [&str; 8] = [
    "--journal",
    "--port",
    "--workers",
    "--tick",
    "--models",
    "--people",
    "--connections",
    "--limit",
];

/// The greatest number of a port.
const GREATEST_PORT: u64 = 65_535;

/// The most workers of one office.
const MOST_WORKERS: u64 = 64;

/// The longest tick of the timer, in milliseconds.
const LONGEST_TICK: u64 = 3_600_000;

/// The most connections that are served before the end.
const MOST_CONNECTIONS: u64 = 1_000_000;

/// The most requests that one load makes.
const MOST_LOADED: u64 = 1_048_576;

/// The length that a journal in memory may have, in bytes, where no other is given.
const LIMIT_IN_MEMORY: u64 = 67_108_864;

/// Whether the words begin with another command than `serve`, or there are none.
pub fn are_alone(words: &Vec<String>) -> bool
    ensures yes { result ≡ true → AreAlone (map string_bytes words.now.items) }
    ensures no { result ≡ false
        → (rest : List (List ℕ)) × (map string_bytes words.now.items ≡ codes "serve" ∷ rest) }
{
    match words.split_first() {
        Some((command, _)) => !is_word(command, "serve"),
        None => true,
    }
}

/// Reads the words of the command line; `None` where they are not in its grammar.
pub fn words_of(words: &[String]) -> Option<Words<'_>>
    ensures some { IfSome result (λ w. AreWords (map string_bytes words.now) (words_told w)) }
    ensures none { IfNone result
        ((said : WordsOf) → AreWords (map string_bytes words.now) said → ⊥) }
{
    let Some((command, options)) = words.split_first() else {
        return None;
    };
    let Some(work) = work_of(command, options) else {
        return None;
    };
    let Some(texts) = texts_of(options) else {
        return None;
    };
    let journal = value_of(options, "--journal");
    let Some(limit) = limit_of(options, journal) else {
        return None;
    };
    Some(Words {
        work,
        texts,
        journal,
        limit,
    })
}

// What the command and its own options say.
fn work_of(command: &String, options: &[String]) -> Option<Work>
    ensures some { IfSome result (λ w.
        IsAsked (string_bytes command.now) (map string_bytes options.now) (work_told w)) }
    ensures none { IfNone result ((w : WorkOf)
        → IsAsked (string_bytes command.now) (map string_bytes options.now) w → ⊥) }
{
    if is_word(command, "run") {
        run_of(options)
    } else if is_word(command, "serve") {
        serve_of(options)
    } else if is_word(command, "check") {
        check_of(options)
    } else if is_word(command, "export") {
        export_of(options)
    } else if is_word(command, "load") {
        load_of(options)
    } else {
        None
    }
}

// The moments of a run: the first, and the pace of the others.
fn run_of(options: &[String]) -> Option<Work>
    ensures some { IfSome result (λ w.
        IsAsked (codes "run") (map string_bytes options.now) (work_told w)) }
    ensures none { IfNone result ((w : WorkOf)
        → IsAsked (codes "run") (map string_bytes options.now) w → ⊥) }
{
    if !are_options(options, &OF_RUN) {
        return None;
    }
    let Some(from) = number_of(options, "--from", 0, LAST) else {
        return None;
    };
    let Some(step) = number_of(options, "--step", 0, LAST) else {
        return None;
    };
    Some(Work::Run(Run { from, step }))
}

// A service has a journal.
fn serve_of(options: &[String]) -> Option<Work>
    ensures some { IfSome result (λ w.
        IsAsked (codes "serve") (map string_bytes options.now) (work_told w)) }
    ensures none { IfNone result ((w : WorkOf)
        → IsAsked (codes "serve") (map string_bytes options.now) w → ⊥) }
{
    if !are_options(options, &OF_SERVE) {
        return None;
    }
    match (value_of(options, "--journal"), service_of(options)) {
        (Some(_), Some(service)) => Some(Work::Serve(service)),
        _ => None,
    }
}

// The port of a service, its workers, its tick and its connections.
fn service_of(options: &[String]) -> Option<Serve>
    ensures some { IfSome result (λ s.
        IsService (map string_bytes options.now) (service_told s)) }
    ensures none { IfNone result ((s : Service)
        → IsService (map string_bytes options.now) s → ⊥) }
{
    let Some(port) = number_of(options, "--port", 1, GREATEST_PORT) else {
        return None;
    };
    let Some(workers) = number_of(options, "--workers", 1, MOST_WORKERS) else {
        return None;
    };
    let Some(tick) = number_of(options, "--tick", 1, LONGEST_TICK) else {
        return None;
    };
    let Some(connections) = connections_of(options) else {
        return None;
    };
    Some(Serve {
        port: port as u16,
        workers: workers as u32,
        tick: tick as u32,
        connections,
    })
}

// How many connections a service serves, which need not be told.
fn connections_of(options: &[String]) -> Option<Option<u32>>
    ensures some { IfSome result
        (MayGive (codes "--connections") 1 most_connections (map string_bytes options.now)) }
    ensures none { IfNone result ((n : Option ℕ)
        → MayGive (codes "--connections") 1 most_connections (map string_bytes options.now) n
        → ⊥) }
{
    let Some(word) = value_of(options, "--connections") else {
        return Some(None);
    };
    match number(word, 1, MOST_CONNECTIONS) {
        Some(n) => Some(Some(n as u32)),
        None => None,
    }
}

fn check_of(options: &[String]) -> Option<Work>
    ensures some { IfSome result (λ w.
        IsAsked (codes "check") (map string_bytes options.now) (work_told w)) }
    ensures none { IfNone result ((w : WorkOf)
        → IsAsked (codes "check") (map string_bytes options.now) w → ⊥) }
{
    if !are_options(options, &OF_CHECK) {
        return None;
    }
    match (value_of(options, "--models"), value_of(options, "--people")) {
        (Some(_), Some(_)) => Some(Work::Check),
        _ => None,
    }
}

fn export_of(options: &[String]) -> Option<Work>
    ensures some { IfSome result (λ w.
        IsAsked (codes "export") (map string_bytes options.now) (work_told w)) }
    ensures none { IfNone result ((w : WorkOf)
        → IsAsked (codes "export") (map string_bytes options.now) w → ⊥) }
{
    if !are_options(options, &OF_EXPORT) {
        return None;
    }
    match value_of(options, "--journal") {
        Some(_) => Some(Work::Export),
        None => None,
    }
}

// The seed of a load, and how many requests it makes.
fn load_of(options: &[String]) -> Option<Work>
    ensures some { IfSome result (λ w.
        IsAsked (codes "load") (map string_bytes options.now) (work_told w)) }
    ensures none { IfNone result ((w : WorkOf)
        → IsAsked (codes "load") (map string_bytes options.now) w → ⊥) }
{
    if !are_options(options, &OF_LOAD) {
        return None;
    }
    let Some(seed) = number_of(options, "--seed", 0, u64::MAX) else {
        return None;
    };
    let Some(count) = number_of(options, "--count", 0, MOST_LOADED) else {
        return None;
    };
    Some(Work::Load {
        seed,
        count: count as u32,
    })
}

// Whether the words are options of these names, one behind another.
fn are_options(words: &[String], names: &[&str]) -> bool
    ensures { result ≡ spec.are_options (map (λ s. s.now) names.now) (map string_bytes words.now) }
{
    let mut rest = words;
    while let [name, value, later @ ..] = rest {
        if !begin_options(names, name, value, later) {
            return false;
        }
        rest = later;
    }
    rest.is_empty()
}

// Whether these two words are an option of these names, and its name does not stand again.
fn begin_options(names: &[&str], name: &String, value: &String, later: &[String]) -> bool
    ensures { result ≡ spec.begin_options (map (λ s. s.now) names.now) (string_bytes name.now)
        (string_bytes value.now) (map string_bytes later.now) }
{
    is_one_of(name, names) && is_value(value) && value_of(later, name.as_str()).is_none()
}

fn is_one_of(word: &String, names: &[&str]) -> bool
    ensures { result ≡ spec.is_one_of (map (λ s. s.now) names.now) (string_bytes word.now) }
{
    names.iter().any(|name| *name == word.as_str())
}

fn is_value(word: &String) -> bool
    ensures { result ≡ spec.is_value (string_bytes word.now) }
{
    match word.as_bytes() {
        [first, ..] => *first != b'-',
        [] => true,
    }
}

// The value of the option with this name.
fn value_of<'a>(words: &'a [String], name: &str) -> Option<&'a str>
    ensures { option_map (λ s. s.now) result ≡ spec.value_of name.now (map string_bytes words.now) }
{
    let mut rest = words;
    while let [word, value, later @ ..] = rest {
        if is_word(word, name) {
            return Some(value.as_str());
        }
        rest = later;
    }
    None
}

fn is_word(word: &String, text: &str) -> bool
    ensures { result ≡ bytes_eq (string_bytes word.now) text.now }
{
    word.as_str() == text
}

// The number of an option, which must be there, with these bounds.
fn number_of(options: &[String], name: &str, least: u64, most: u64) -> Option<u64>
    ensures some { IfSome result (Gives name.now least most (map string_bytes options.now)) }
    ensures none { IfNone result ((n : ℕ)
        → Gives name.now least most (map string_bytes options.now) n → ⊥) }
{
    match value_of(options, name) {
        Some(word) => number(word, least, most),
        None => None,
    }
}

// The length that the journal may have, which has another default in memory than in a file.
fn limit_of(options: &[String], journal: Option<&str>) -> Option<u64>
    ensures some { IfSome result (IsLimitOf (option_map (λ s. s.now) journal.entry)
        (spec.value_of (codes "--limit") (map string_bytes options.now))) }
    ensures bounded { IfSome result (λ n. (LEAST_LIMIT ≤ n) × (n ≤ GREATEST_LIMIT)) }
    ensures none { IfNone result ((n : ℕ) → IsLimitOf (option_map (λ s. s.now) journal.entry)
        (spec.value_of (codes "--limit") (map string_bytes options.now)) n → ⊥) }
{
    match (value_of(options, "--limit"), journal) {
        (Some(word), _) => number(word, LEAST_LIMIT, GREATEST_LIMIT),
        (None, Some(_)) => Some(GREATEST_LIMIT),
        (None, None) => Some(LIMIT_IN_MEMORY),
    }
}

// A number of these bounds, without leading zeros.
fn number(word: &str, least: u64, most: u64) -> Option<u64>
    ensures some { IfSome result (IsNumber least most word.now) }
    ensures none { IfNone result ((n : ℕ) → IsNumber least most word.now n → ⊥) }
{
    match decimal_of(word) {
        Some(n) => {
            if n < least {
                return None;
            }
            if most < n {
                return None;
            }
            Some(n)
        }
        None => None,
    }
}

// The names of the two texts, of which both are given, or none.
fn texts_of(options: &[String]) -> Option<Option<Named<'_>>>
    ensures some { IfSome result (λ texts.
        AreTexts (spec.value_of (codes "--models") (map string_bytes options.now))
        (spec.value_of (codes "--people") (map string_bytes options.now))
        (option_map pair_of texts)) }
    ensures none { IfNone result ((texts : Option (List ℕ × List ℕ))
        → AreTexts (spec.value_of (codes "--models") (map string_bytes options.now))
        (spec.value_of (codes "--people") (map string_bytes options.now)) texts → ⊥) }
{
    match (value_of(options, "--models"), value_of(options, "--people")) {
        (Some(models), Some(people)) => Some(Some(Named { models, people })),
        (None, None) => Some(None),
        _ => None,
    }
}
