//! The configuration of a run.
ghost use Rattle.std.specs.Prelude.{◌≡◌, IsTrue, MatchOption};
ghost use Rattle.bt_commands.specs.Outside.{SaysOnly};
ghost use Rattle.bt_config_file.specs.Reading.{config_reading};
ghost use Rattle.bt_run.specs.Inside.{Fits, FormOf, IsUnfit, MakesCall, Refuses, halt_of, refused_lines, said_of};

use crate::form::names_parts;
use crate::halt::{Halt, Unfit};
use crate::openings::without_memory;
use bt_config_file::{ConfigHalt, Linted, read_linted, say_lints};
use bt_ports::NoMemory;
use bt_ports::world::World;
use std::alloc::Global;

fn halt_of(halt: ConfigHalt) -> Halt
    ensures { result ≡ halt_of halt }
{
    match halt {
        ConfigHalt::Unread => Halt::Failed(0),
        ConfigHalt::Refused(refusal) => Halt::Config(Unfit::Refused(refusal)),
        ConfigHalt::NoMemory => Halt::NoMemory,
    }
}

// Why the configuration isn't run: it has a lint, or isn't of the form that runs.
fn why_unfit(linted: Linted) -> Option<Unfit>
    ensures { MatchOption result (Fits linted) (IsUnfit linted) }
{
    let Linted { config, lints } = linted;
    if !lints.is_empty() {
        return Some(Unfit::Lints(lints));
    }
    if names_parts(&config.doc) {
        return Some(Unfit::NotBuilt);
    }
    None
}

// Says why a configuration that was read isn't run.
fn say_unfit<W: World>(alloc: Global, unfit: &Unfit, world: &mut W) -> Result<(), NoMemory>
    ensures { SaysOnly ⟦<W as World>⟧ (said_of result unfit.now) world.old world.new }
{
    match unfit {
        Unfit::Lints(lints) => say_lints(alloc, lints.as_slice(), world),
        Unfit::NotBuilt => {
            world.err(b"config: not built");
            Ok(())
        }
        Unfit::Refused(_) => Ok(()),
    }
}

fn refuse<W: World>(alloc: Global, unfit: Unfit, world: &mut W) -> Halt
    ensures refuses { Refuses unfit result }
    ensures says { SaysOnly ⟦<W as World>⟧ (refused_lines result) world.old world.new }
{
    match say_unfit(alloc, &unfit, world) {
        Ok(()) => Halt::Config(unfit),
        Err(NoMemory) => without_memory(world),
    }
}

/// Reads and lints the configuration, and goes on where it is one that runs.
pub(crate) fn read_config<W: World>(alloc: Global, config: &str, world: &mut W) -> Result<(), Halt>
    ensures makes { MakesCall ⟦<W as World>⟧ 0 (config_reading config.now) (W.tale world.old).stdin result world.old world.new }
    ensures form { IsTrue (W.tells world.new) → FormOf result ((W.tale world.old).files config.now) }
{
    match read_linted(alloc, config, world) {
        Ok(linted) => match why_unfit(linted) {
            None => Ok(()),
            Some(unfit) => Err(refuse(alloc, unfit, world)),
        },
        Err(halt) => Err(halt_of(halt)),
    }
}
