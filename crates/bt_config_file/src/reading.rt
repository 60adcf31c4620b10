//! The one reading of a configuration's file.
ghost use Rattle.std.specs.Prelude.{◌≡◌, ◌≤◌, ◌∷◌, [], IsTrue, IfOk, string_bytes, false};
ghost use Rattle.bt_commands.specs.Lines.{no_memory_line, failure_line};
ghost use Rattle.bt_commands.specs.Outside.{SaysOnly, StillTold};
ghost use Rattle.bt_config_file.specs.Inside.{Looked, said_line};
ghost use Rattle.bt_config_file.specs.Reading as spec;
ghost use Rattle.bt_config_file.specs.Reading.{FileSays, ReadCounts, ReadsLinted, config_reading};
ghost use Rattle.bt_value.specs.Plain.{has_bytes};

use crate::halt::{ConfigHalt, ConfigRefusal};
use crate::linted::{Linted, lint_bytes};
use bt_commands::limits::CONFIG_LIMIT;
use bt_ports::parts::FileRead;
use bt_ports::world::World;
use std::alloc::{AllocError, Global};

// The line of a file that can't be read.
fn unread_line(alloc: Global, path: &str) -> Result<String, AllocError>
    ensures { IfOk result (λ line. string_bytes line ≡ failure_line (config_reading path.now)) }
{
    format!(in alloc; "file {path}: cannot read")
}

// Reads the file once, and lints what it has. It says nothing.
fn look<W: World>(alloc: Global, path: &str, world: &mut W) -> Result<Linted, ConfigHalt>
    ensures told { StillTold ⟦<W as World>⟧ world.old world.new }
    ensures counted { W.file_faults world.old ≤ W.file_faults world.new }
    ensures others { (W.open_faults world.new ≡ W.open_faults world.old) × (W.print_faults world.new ≡ W.print_faults world.old) }
    ensures counts { ReadCounts result (W.file_faults world.old) (W.file_faults world.new) }
    ensures looked { IsTrue (W.tells world.new) → Looked (config_reading path.now) result (W.tale world.old) (W.tale world.new) }
    ensures says { IsTrue (W.tells world.new) → FileSays result ((W.tale world.old).files path.now) }
    ensures plain { IfOk result (λ linted. has_bytes linted.config.doc ≡ false) }
{
    match world.read_file(path, CONFIG_LIMIT) {
        FileRead::Bytes(bytes) => lint_bytes(alloc, bytes.as_slice()),
        FileRead::TooLong => Err(ConfigHalt::Refused(ConfigRefusal::TooLong)),
        FileRead::Failed => Err(ConfigHalt::Unread),
        FileRead::NoMemory => Err(ConfigHalt::NoMemory),
    }
}

// The line of a file that is no configuration.
fn refusal_line(refusal: ConfigRefusal) -> &'static str
    ensures { result.now ≡ spec.refusal_line refusal }
{
    match refusal {
        ConfigRefusal::TooLong => "config: longer than 16777216 bytes",
        ConfigRefusal::NotJson => "config: not JSON",
        ConfigRefusal::OutOfProfile => "config: number out of profile",
    }
}

// Says why there is no configuration.
fn say_halt<W: World>(halt: ConfigHalt, unread: &str, world: &mut W)
    ensures { SaysOnly ⟦<W as World>⟧ (said_line unread.now halt ∷ []) world.old world.new }
{
    match halt {
        ConfigHalt::Unread => world.err(unread.as_bytes()),
        ConfigHalt::Refused(refusal) => world.err(refusal_line(refusal).as_bytes()),
        ConfigHalt::NoMemory => world.err(b"no memory"),
    }
}

/// Says that memory is wanting.
pub fn out_of_memory<W: World>(world: &mut W)
    ensures { SaysOnly ⟦<W as World>⟧ (no_memory_line ∷ []) world.old world.new }
{
    world.err(b"no memory")
}

/// Reads the configuration in the file `path`, and lints it. Where there is none, it says why.
///
/// It reads the file once, and opens and prints nothing. What was read has no bytes in it, so that it can be written as JSON.
pub fn read_linted<W: World>(alloc: Global, path: &str, world: &mut W) -> Result<Linted, ConfigHalt>
    ensures reads { ReadsLinted ⟦<W as World>⟧ path.now result world.old world.new }
    ensures plain { IfOk result (λ linted. has_bytes linted.config.doc ≡ false) }
{
    let unread = match unread_line(alloc, path) {
        Ok(line) => line,
        Err(_) => {
            out_of_memory(world);
            return Err(ConfigHalt::NoMemory);
        }
    };
    match look(alloc, path, world) {
        Ok(linted) => Ok(linted),
        Err(halt) => {
            say_halt(halt, unread.as_str(), world);
            Err(halt)
        }
    }
}
