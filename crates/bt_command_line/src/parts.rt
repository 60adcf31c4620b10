//! The parts of commands.
ghost use Rattle.std.specs.Prelude.{◌≡◌, ◌<◌, ◌≤◌, ◌^◌, ℕ, MatchOption, IsSomeAnd, codes, option_map};
ghost use Rattle.clap.specs.Words.{found_of, rows_of};
ghost use Rattle.bt_command_line.specs.Commands.{IsNumber, HasParts, NoParts, word_of};
ghost use Rattle.bt_command_line.specs.Forms as spec;

use crate::commands::{Command, Word};
use crate::numbers::number;
use clap::ArgMatches;

/// The most lines of a load.
const MOST_LINES: u64 = 1_000_000;

/// The command of this word that has the parts that were read, and nothing exactly where none has.
pub fn command_from<'a>(word: Word, matches: &ArgMatches<'a>) -> Option<Command<'a>>
    ensures { MatchOption result (NoParts word (rows_of (found_of matches.now)))
        (λ c. (word_of c ≡ word) × HasParts c (rows_of (found_of matches.now))) }
{
    match word {
        Word::Run => run_from(matches),
        Word::Lint => lint_from(matches),
        Word::Test => test_from(matches),
        Word::Blobl => blobl_from(matches),
        Word::Load => load_from(matches),
        Word::Audit => audit_from(matches),
    }
}

fn run_from<'a>(matches: &ArgMatches<'a>) -> Option<Command<'a>>
    ensures { MatchOption result (NoParts Word.Run (rows_of (found_of matches.now)))
        (λ c. (word_of c ≡ Word.Run) × HasParts c (rows_of (found_of matches.now))) }
{
    let config = value(matches, "config")?;
    Some(Command::Run {
        config,
        answers: value(matches, "answers"),
        trace: value(matches, "trace"),
    })
}

fn lint_from<'a>(matches: &ArgMatches<'a>) -> Option<Command<'a>>
    ensures { MatchOption result (NoParts Word.Lint (rows_of (found_of matches.now)))
        (λ c. (word_of c ≡ Word.Lint) × HasParts c (rows_of (found_of matches.now))) }
{
    let file = value(matches, "file")?;
    Some(Command::Lint {
        migrate: is_set(matches, "migrate"),
        file,
    })
}

fn test_from<'a>(matches: &ArgMatches<'a>) -> Option<Command<'a>>
    ensures { MatchOption result (NoParts Word.Test (rows_of (found_of matches.now)))
        (λ c. (word_of c ≡ Word.Test) × HasParts c (rows_of (found_of matches.now))) }
{
    let file = value(matches, "file")?;
    Some(Command::Test { file })
}

fn blobl_from<'a>(matches: &ArgMatches<'a>) -> Option<Command<'a>>
    ensures { MatchOption result (NoParts Word.Blobl (rows_of (found_of matches.now)))
        (λ c. (word_of c ≡ Word.Blobl) × HasParts c (rows_of (found_of matches.now))) }
{
    let mapping = value(matches, "mapping")?;
    Some(Command::Blobl {
        raw: is_set(matches, "raw"),
        pretty: is_set(matches, "pretty"),
        mapping,
    })
}

fn load_from<'a>(matches: &ArgMatches<'a>) -> Option<Command<'a>>
    ensures { MatchOption result (NoParts Word.Load (rows_of (found_of matches.now)))
        (λ c. (word_of c ≡ Word.Load) × HasParts c (rows_of (found_of matches.now))) }
{
    let number = lines_at(matches)?;
    let seed = number_at(matches, "seed")?;
    Some(Command::Load { number, seed })
}

fn audit_from<'a>(matches: &ArgMatches<'a>) -> Option<Command<'a>>
    ensures { MatchOption result (NoParts Word.Audit (rows_of (found_of matches.now)))
        (λ c. (word_of c ≡ Word.Audit) × HasParts c (rows_of (found_of matches.now))) }
{
    let config = value(matches, "config")?;
    let trace = value(matches, "trace")?;
    Some(Command::Audit { config, trace })
}

// The number of lines of a load.
fn lines_at(matches: &ArgMatches<'_>) -> Option<u64>
    ensures { MatchOption result
        ((n : ℕ) → 1 ≤ n → n ≤ 1000000 → IsSomeAnd (spec.value_in (codes "number") (rows_of (found_of matches.now))) (IsNumber n) → ⊥)
        (λ n. IsSomeAnd (spec.value_in (codes "number") (rows_of (found_of matches.now))) (IsNumber n) × (1 ≤ n) × (n ≤ 1000000)) }
{
    match number_at(matches, "number") {
        Some(n) if 1 <= n && n <= MOST_LINES => Some(n),
        _ => None,
    }
}

fn number_at(matches: &ArgMatches<'_>, name: &str) -> Option<u64>
    ensures { MatchOption result
        ((n : ℕ) → n < 2 ^ 64 → IsSomeAnd (spec.value_in name.now (rows_of (found_of matches.now))) (IsNumber n) → ⊥)
        (λ n. IsSomeAnd (spec.value_in name.now (rows_of (found_of matches.now))) (IsNumber n)) }
{
    match value(matches, name) {
        Some(text) => number(text),
        None => None,
    }
}

fn value<'a>(matches: &ArgMatches<'a>, name: &str) -> Option<&'a str>
    ensures { option_map (λ s. s.now) result ≡ spec.value_in name.now (rows_of (found_of matches.now)) }
{
    matches.get_str(name)
}

fn is_set(matches: &ArgMatches<'_>, name: &str) -> bool
    ensures { result ≡ spec.flag_in name.now (rows_of (found_of matches.now)) }
{
    is_true(value(matches, name))
}

fn is_true(text: Option<&str>) -> bool
    ensures { result ≡ spec.is_true (option_map (λ s. s.now) text.entry) }
{
    match text {
        Some(t) => t == "true",
        None => false,
    }
}
