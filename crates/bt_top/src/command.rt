//! All that the program does.
ghost use Rattle.std.specs.Prelude.{◌≡◌, ◌∷◌, []};
ghost use Rattle.bt_commands.specs.Outside.{over, SaysOnly};
ghost use Rattle.bt_top.specs.Promise.{BenthosPromise, Obeys, SaysUsage};

use bt_blobl::command::blobl_command;
use bt_command_line::{Command, WordsFault, read_command};
use bt_commands::status::Status;
use bt_lint::lint_command;
use bt_ports::outside::{Answerer, Clock, Sink, Source};
use bt_ports::world::World;
use bt_run::command::run_one;
use std::alloc::Global;

// Says the usage.
fn usage<W: World>(world: &mut W) -> Status
    ensures { SaysUsage ⟦<W as World>⟧ result world.old world.new }
{
    world.err(b"usage: benthos run, lint, test, blobl or load");
    Status::Words
}

// Does what the command asks.
fn obey<W: World>(alloc: Global, command: Command<'_>, world: &mut W) -> Status
    ensures { Obeys (over ⟦<W as World>⟧ ⟦<W::S as Source>⟧ ⟦<W::K as Sink>⟧ ⟦<W::A as Answerer>⟧ ⟦<W::C as Clock>⟧) command.entry result world.old world.new }
{
    match command {
        Command::Run {
            config,
            answers,
            trace: None,
        } => run_one(alloc, config, answers, world),
        Command::Lint { migrate, file } => lint_command(alloc, file, migrate, world),
        Command::Blobl {
            raw,
            pretty,
            mapping,
        } => blobl_command(alloc, mapping, raw, pretty, world),
        Command::Run { .. } | Command::Test { .. } | Command::Load { .. } | Command::Audit { .. } =>
            usage(world),
    }
}

/// Does what the words after the program's name ask, and gives the status with which the program ends.
///
/// `run -c FILE` runs the configuration in that file, with `--answers FILE` for its answers; `lint FILE` lints one, with
/// `--migrate` for its form in the words of version 2; and `blobl MAPPING` maps the lines of the standard input, with
/// `--raw` as they are and with `--pretty` to JSON over several lines. For words that are of no command's form, and for what isn't
/// built yet (`test`, `load`, `audit` and `--trace`), the usage is said and the world is asked for nothing.
pub fn benthos<W: World>(alloc: Global, words: &[String], world: &mut W) -> Status
    ensures { BenthosPromise (over ⟦<W as World>⟧ ⟦<W::S as Source>⟧ ⟦<W::K as Sink>⟧ ⟦<W::A as Answerer>⟧ ⟦<W::C as Clock>⟧) words.now result world.old world.new }
{
    match read_command(alloc, words) {
        Ok(command) => obey(alloc, command, world),
        Err(WordsFault::NoCommand) => usage(world),
        Err(WordsFault::NoMemory) => {
            world.err(b"no memory");
            Status::Memory
        }
    }
}
