//! Opening the sinks.
ghost use Rattle.std.specs.Prelude.{◌≡◌, ◌+◌, ◌∷◌, [], length, map, IfOk, IsTrue, Some, string_bytes};
ghost use Rattle.bt_commands.specs.Calls.{asked};
ghost use Rattle.bt_commands.specs.Lines.{failure_line};
ghost use Rattle.bt_openings.specs.Objects.{FreshSink, FreshSinks, SinksPlaced};
ghost use Rattle.bt_openings.specs.Openings.{Opens};
ghost use Rattle.bt_openings.specs.Plan.{sink_openings};
ghost use Rattle.bt_ports.specs.declared.parts.What.{What};

use crate::stop::{Stop, without_memory};
use bt_ports::NoMemory;
use bt_ports::blob::Blob;
use bt_ports::outside::Sink;
use bt_ports::parts::{Opened, Sinks};
use bt_ports::sequence::Sequence;
use bt_ports::text::Text;
use bt_ports::world::World;
use std::alloc::{AllocError, Global};

// The line that says that a sink can't be opened.
fn no_sink_line(alloc: Global, name: &str, end: &[u8]) -> Result<String, AllocError>
    ensures { IfOk result (λ line. string_bytes line ≡ failure_line (asked What.Sink (Some name.now) (Some end.now))) }
{
    let _end = end;
    format!(in alloc; "sink {name}: cannot open")
}

// Opens the sink of that name.
fn open_sink<W: World>(alloc: Global, name: &str, end: &[u8], world: &mut W) -> Result<W::K, Stop>
    ensures opens { Opens ⟦<W as World>⟧ (asked What.Sink (Some name.now) (Some end.now) ∷ []) result world.old world.new }
    ensures placed { IsTrue (W.tells world.new) → IfOk result (λ sink. W.K.place sink ≡ length (W.tale world.old).calls + 1) }
    ensures stdin { IsTrue (W.tells world.new) → (W.tale world.new).stdin ≡ (W.tale world.old).stdin }
    ensures fresh { IfOk result (FreshSink ⟦<W::K as Sink>⟧) }
{
    let line = match no_sink_line(alloc, name, end) {
        Ok(line) => line,
        Err(_) => return Err(without_memory(world)),
    };
    match world.open_sink(name, end) {
        Opened::Got(sink) => Ok(sink),
        Opened::Failed => {
            world.err(line.as_bytes());
            Err(Stop::Failed)
        }
        Opened::NoMemory => Err(without_memory(world)),
    }
}

/// Opens the sinks of these names in order, each with its closing bytes, which it writes after each message.
pub fn open_sinks<W: World>(
    alloc: Global,
    names: &[Text],
    ends: &[Blob],
    world: &mut W,
) -> Result<Sinks<W::K>, Stop>
    requires { length names.now ≡ length ends.now }
    ensures opens { Opens ⟦<W as World>⟧ (sink_openings names.now ends.now) result world.old world.new }
    ensures many { IfOk result (λ sinks. length sinks.list ≡ length names.now) }
    ensures placed { IsTrue (W.tells world.new) → IfOk result (λ sinks. SinksPlaced ⟦<W::K as Sink>⟧ (length (W.tale world.old).calls + 1) sinks.list) }
    ensures stdin { IsTrue (W.tells world.new) → (W.tale world.new).stdin ≡ (W.tale world.old).stdin }
    ensures fresh { IfOk result (λ sinks. FreshSinks ⟦<W::K as Sink>⟧ sinks.list) }
{
    let mut sinks = Sequence::new(alloc);
    if let Err(NoMemory) = sinks.reserve(names.len()) {
        return Err(without_memory(world));
    }
    'sinks: for i in 0..names.len() {
        match open_sink(alloc, names[i].as_str(), ends[i].as_slice(), world) {
            Ok(sink) => sinks.push_reserved(sink),
            Err(stop) => return Err(stop),
        }
    }
    Ok(sinks)
}
