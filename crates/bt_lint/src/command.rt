//! The command.
ghost use Rattle.std.specs.Prelude.{◌≡◌, ◌∷◌, [], codes, false};
ghost use Rattle.bt_commands.specs.Outside.{SaysOnly};
ghost use Rattle.bt_lint.specs.Inside.{PrintsReport};
ghost use Rattle.bt_lint.specs.Promise.{LintPromise, status_of};
ghost use Rattle.bt_lint.specs.Report.{is_some_lint};
ghost use Rattle.bt_value.specs.Plain.{has_bytes};

use crate::halt::Halt;
use crate::printing::print_lines;
use crate::report::lines_of;
use bt_commands::status::Status;
use bt_config_file::{ConfigHalt, Linted, out_of_memory, read_linted};
use bt_ports::NoMemory;
use bt_ports::parts::PrintFailed;
use bt_ports::world::World;
use std::alloc::Global;

fn has_lint(linted: &Linted) -> bool
    ensures { result ≡ is_some_lint linted.now.lints }
{
    !linted.lints.is_empty()
}

// Says that a print failed.
fn say_failure<W: World>(world: &mut W)
    ensures { SaysOnly ⟦<W as World>⟧ (codes "out: write fault" ∷ []) world.old world.new }
{
    world.err(b"out: write fault")
}

// Prints what is to be printed of the configuration, and gives whether it has a lint.
fn print_report<W: World>(
    alloc: Global,
    linted: &Linted,
    migrate: bool,
    world: &mut W,
) -> Result<bool, Halt>
    requires { has_bytes linted.now.config.doc ≡ false }
    ensures { PrintsReport ⟦<W as World>⟧ migrate linted.now result world.old world.new }
{
    let lines = match lines_of(alloc, linted, migrate) {
        Ok(lines) => lines,
        Err(NoMemory) => {
            out_of_memory(world);
            return Err(Halt::Unprinted(ConfigHalt::NoMemory));
        }
    };
    match print_lines(lines.as_slice(), world) {
        Ok(()) => Ok(has_lint(linted)),
        Err(PrintFailed) => {
            say_failure(world);
            Err(Halt::PrintFailed)
        }
    }
}

fn status_of(end: Result<bool, Halt>) -> Status
    ensures { result ≡ status_of end }
{
    match end {
        Ok(true) => Status::Refused,
        Ok(false) => Status::Done,
        Err(Halt::Unprinted(ConfigHalt::Unread)) => Status::Input,
        Err(Halt::Unprinted(ConfigHalt::Refused(_))) => Status::Config,
        Err(Halt::Unprinted(ConfigHalt::NoMemory)) => Status::Memory,
        Err(Halt::PrintFailed) => Status::Output,
    }
}

/// Lints the configuration in the file `path`: prints the line of each lint, with a line break, each by one call. Where there is
/// none and `migrate` is set, it prints the configuration in the words of version 2, as compact JSON with a line break.
///
/// It reads the file once and opens nothing. The first print that fails ends it.
pub fn lint_command<W: World>(alloc: Global, path: &str, migrate: bool, world: &mut W) -> Status
    ensures { LintPromise ⟦<W as World>⟧ migrate path.now result world.old world.new }
{
    match read_linted(alloc, path, world) {
        Ok(linted) => status_of(print_report(alloc, &linted, migrate, world)),
        Err(halt) => status_of(Err(Halt::Unprinted(halt))),
    }
}
