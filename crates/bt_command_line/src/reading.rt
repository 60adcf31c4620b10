//! From words to a command.
ghost use Rattle.std.specs.Prelude.{◌≡◌, ◌≢◌, IfOk, IsErrOf, map, string_bytes};
ghost use Rattle.clap.specs.Words.{kind_of};
ghost use Rattle.bt_command_line.specs.Commands.{IsCommand, ReadsAs};
ghost use Rattle.bt_command_line.specs.Forms as spec;
ghost use Rattle.bt_command_line.specs.declared.commands.Command.{Command};

use crate::commands::{Command, Word, WordsFault};
use crate::forms::matches_of;
use crate::parts::command_from;
use clap::Error;
use clap::error::ErrorKind;
use std::alloc::Global;

/// The command that the words are. The first names it; the program's own name isn't among them.
///
/// `NoCommand` is answered only where they are none.
pub fn read_command<'a>(alloc: Global, words: &'a [String]) -> Result<Command<'a>, WordsFault>
    ensures read { IfOk result (λ c. IsCommand (map string_bytes words.entry.now) c) }
    ensures refused { IsErrOf result WordsFault.NoCommand
        → (c : Command) → IsCommand (map string_bytes words.entry.now) c → ⊥ }
{
    match command_word(words) {
        Some(word) => read_form(alloc, word, words),
        None => Err(WordsFault::NoCommand),
    }
}

// The command that the first word names.
fn command_word(words: &[String]) -> Option<Word>
    ensures { result ≡ spec.command_of (map string_bytes words.now) }
{
    match words {
        [first, ..] => named(first.as_str()),
        [] => None,
    }
}

fn named(word: &str) -> Option<Word>
    ensures { result ≡ spec.named word.now }
{
    match word {
        "run" => Some(Word::Run),
        "lint" => Some(Word::Lint),
        "test" => Some(Word::Test),
        "blobl" => Some(Word::Blobl),
        "load" => Some(Word::Load),
        "audit" => Some(Word::Audit),
        _ => None,
    }
}

// The command of this word that the words are.
fn read_form<'a>(alloc: Global, word: Word, words: &'a [String]) -> Result<Command<'a>, WordsFault>
    ensures read { IfOk result (λ c. ReadsAs word (map string_bytes words.entry.now) c) }
    ensures refused { IsErrOf result WordsFault.NoCommand
        → (c : Command) → ReadsAs word (map string_bytes words.entry.now) c → ⊥ }
{
    match matches_of(alloc, word, words) {
        Ok(matches) => match command_from(word, &matches) {
            Some(command) => Ok(command),
            None => Err(WordsFault::NoCommand),
        },
        Err(error) => Err(fault_of(&error)),
    }
}

fn fault_of(error: &Error) -> WordsFault
    ensures { result ≡ WordsFault.NoCommand → kind_of error.now ≢ ErrorKind.OutOfMemory }
{
    match error.kind() {
        ErrorKind::OutOfMemory => WordsFault::NoMemory,
        _ => WordsFault::NoCommand,
    }
}
