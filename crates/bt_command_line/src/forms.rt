//! The forms of the commands.
ghost use Rattle.std.specs.Prelude.{◌≡◌, ◌⊎◌, IfOk, IfErr, true, false, map, string_bytes};
ghost use Rattle.clap.specs.Words.{app_of, found_of, is_broken, kind_of, rows_of, with_rule};
ghost use Rattle.bt_command_line.specs.Forms as spec;
ghost use Rattle.bt_command_line.specs.Forms.{app, bare, has_form};

use crate::commands::Word;
use clap::error::ErrorKind;
use clap::{Arg, ArgAction, ArgMatches, Command, Error};
use std::alloc::{AllocError, Global};

fn bare<'a>(alloc: Global, name: &'a str) -> Command<'a>
    ensures form { app_of result ≡ bare name.entry.now }
    ensures whole { is_broken result ≡ false }
{
    Command::new(alloc, name).disable_help_flag(true)
}

fn option<'a>(alloc: Global, command: Command<'a>, name: &'a str) -> Result<Command<'a>, AllocError>
    ensures form { IfOk result (λ c. app_of c ≡ with_rule (app_of command.entry) (spec.option_rule name.entry.now)) }
    ensures whole { is_broken command.entry ≡ false → IfOk result (λ c. is_broken c ≡ false) }
{
    command.arg(Arg::new(alloc, name).long(name))
}

fn required_option<'a>(
    alloc: Global,
    command: Command<'a>,
    name: &'a str,
) -> Result<Command<'a>, AllocError>
    ensures form { IfOk result (λ c. app_of c ≡ with_rule (app_of command.entry) (spec.required_rule name.entry.now)) }
    ensures whole { is_broken command.entry ≡ false → IfOk result (λ c. is_broken c ≡ false) }
{
    command.arg(Arg::new(alloc, name).long(name).required(true))
}

fn flag<'a>(alloc: Global, command: Command<'a>, name: &'a str) -> Result<Command<'a>, AllocError>
    ensures form { IfOk result (λ c. app_of c ≡ with_rule (app_of command.entry) (spec.flag_rule name.entry.now)) }
    ensures whole { is_broken command.entry ≡ false → IfOk result (λ c. is_broken c ≡ false) }
{
    command.arg(Arg::new(alloc, name).long(name).action(ArgAction::SetTrue))
}

fn argument<'a>(
    alloc: Global,
    command: Command<'a>,
    name: &'a str,
) -> Result<Command<'a>, AllocError>
    ensures form { IfOk result (λ c. app_of c ≡ with_rule (app_of command.entry) (spec.argument_rule name.entry.now)) }
    ensures whole { is_broken command.entry ≡ false → IfOk result (λ c. is_broken c ≡ false) }
{
    command.arg(Arg::new(alloc, name).required(true))
}

fn config<'a>(alloc: Global, command: Command<'a>) -> Result<Command<'a>, AllocError>
    ensures form { IfOk result (λ c. app_of c ≡ with_rule (app_of command.entry) spec.config_rule) }
    ensures whole { is_broken command.entry ≡ false → IfOk result (λ c. is_broken c ≡ false) }
{
    command.arg(
        Arg::new(alloc, "config")
            .short('c')
            .long("config")
            .required(true),
    )
}

fn run_form<'a>(alloc: Global) -> Result<Command<'a>, AllocError>
    ensures form { IfOk result (λ c. app_of c ≡ app Word.Run) }
    ensures whole { IfOk result (λ c. is_broken c ≡ false) }
{
    let command = config(alloc, bare(alloc, "run"))?;
    let command = option(alloc, command, "answers")?;
    option(alloc, command, "trace")
}

fn lint_form<'a>(alloc: Global) -> Result<Command<'a>, AllocError>
    ensures form { IfOk result (λ c. app_of c ≡ app Word.Lint) }
    ensures whole { IfOk result (λ c. is_broken c ≡ false) }
{
    let command = flag(alloc, bare(alloc, "lint"), "migrate")?;
    argument(alloc, command, "file")
}

fn test_form<'a>(alloc: Global) -> Result<Command<'a>, AllocError>
    ensures form { IfOk result (λ c. app_of c ≡ app Word.Test) }
    ensures whole { IfOk result (λ c. is_broken c ≡ false) }
{
    argument(alloc, bare(alloc, "test"), "file")
}

fn blobl_form<'a>(alloc: Global) -> Result<Command<'a>, AllocError>
    ensures form { IfOk result (λ c. app_of c ≡ app Word.Blobl) }
    ensures whole { IfOk result (λ c. is_broken c ≡ false) }
{
    let command = flag(alloc, bare(alloc, "blobl"), "raw")?;
    let command = flag(alloc, command, "pretty")?;
    argument(alloc, command, "mapping")
}

fn load_form<'a>(alloc: Global) -> Result<Command<'a>, AllocError>
    ensures form { IfOk result (λ c. app_of c ≡ app Word.Load) }
    ensures whole { IfOk result (λ c. is_broken c ≡ false) }
{
    let command = argument(alloc, bare(alloc, "load"), "number")?;
    argument(alloc, command, "seed")
}

fn audit_form<'a>(alloc: Global) -> Result<Command<'a>, AllocError>
    ensures form { IfOk result (λ c. app_of c ≡ app Word.Audit) }
    ensures whole { IfOk result (λ c. is_broken c ≡ false) }
{
    let command = config(alloc, bare(alloc, "audit"))?;
    required_option(alloc, command, "trace")
}

fn form_of<'a>(alloc: Global, word: Word) -> Result<Command<'a>, AllocError>
    ensures form { IfOk result (λ c. app_of c ≡ app word) }
    ensures whole { IfOk result (λ c. is_broken c ≡ false) }
{
    match word {
        Word::Run => run_form(alloc),
        Word::Lint => lint_form(alloc),
        Word::Test => test_form(alloc),
        Word::Blobl => blobl_form(alloc),
        Word::Load => load_form(alloc),
        Word::Audit => audit_form(alloc),
    }
}

/// What `clap` reads of words, of which the first is the command's own.
pub fn matches_of<'a>(
    alloc: Global,
    word: Word,
    words: &'a [String],
) -> Result<ArgMatches<'a>, Error>
    ensures rows { IfOk result (λ m. rows_of (found_of m) ≡ spec.rows word (map string_bytes words.entry.now)) }
    ensures form { IfOk result (λ m. has_form word (map string_bytes words.entry.now) ≡ true) }
    ensures fails { IfErr result (λ e. (kind_of e ≡ ErrorKind.OutOfMemory) ⊎ (has_form word (map string_bytes words.entry.now) ≡ false)) }
{
    let form = form_of(alloc, word)?;
    form.try_get_matches_from(words)
}
