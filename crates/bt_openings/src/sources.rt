//! Opening the sources.
ghost use Rattle.std.specs.Prelude.{◌≡◌, ◌+◌, ◌∷◌, [], length, IfOk, IsTrue, None, Some, string_bytes};
ghost use Rattle.bt_commands.specs.Lines.{failure_line};
ghost use Rattle.bt_openings.specs.Objects.{FreshSource, FreshSources, HasBytes, SourcesAre, StdinIs};
ghost use Rattle.bt_openings.specs.Openings.{Opens};
ghost use Rattle.bt_openings.specs.Plan.{opening_of, source_openings};

use crate::stop::{Stop, without_memory};
use bt_ports::NoMemory;
use bt_ports::outside::Source;
use bt_ports::parts::{Named, Opened, Sources};
use bt_ports::sequence::Sequence;
use bt_ports::text::Text;
use bt_ports::world::World;
use std::alloc::{AllocError, Global};

// The line that says that a source can't be opened.
fn no_source_line(alloc: Global, name: &str) -> Result<String, AllocError>
    ensures { IfOk result (λ line. string_bytes line ≡ failure_line (opening_of name.now)) }
{
    format!(in alloc; "source {name}: cannot open")
}

// Opens the source of that name.
fn open_source<W: World>(alloc: Global, name: &str, world: &mut W) -> Result<W::S, Stop>
    ensures opens { Opens ⟦<W as World>⟧ (opening_of name.now ∷ []) result world.old world.new }
    ensures placed { IsTrue (W.tells world.new) → IfOk result (λ source. W.S.place source ≡ length (W.tale world.old).calls + 1) }
    ensures fresh { IfOk result (FreshSource ⟦<W::S as Source>⟧) }
    ensures bytes { IsTrue (W.tells world.new) → IfOk result (HasBytes ⟦<W::S as Source>⟧ (W.tale world.old).files (W.tale world.old).stdin name.now) }
{
    let line = match no_source_line(alloc, name) {
        Ok(line) => line,
        Err(_) => return Err(without_memory(world)),
    };
    match world.open_source(name) {
        Opened::Got(source) => Ok(source),
        Opened::Failed => {
            world.err(line.as_bytes());
            Err(Stop::Failed)
        }
        Opened::NoMemory => Err(without_memory(world)),
    }
}

/// Opens the standard input as the only source, which has no path.
pub fn open_stdin<W: World>(alloc: Global, world: &mut W) -> Result<Sources<W::S>, Stop>
    ensures opens { Opens ⟦<W as World>⟧ (source_openings None) result world.old world.new }
    ensures fresh { IfOk result (λ sources. FreshSources ⟦<W::S as Source>⟧ sources.list) }
    ensures is { IsTrue (W.tells world.new) → IfOk result (λ sources. StdinIs ⟦<W::S as Source>⟧ (length (W.tale world.old).calls + 1) (W.tale world.old).stdin sources.list) }
{
    let mut sources = Sequence::new(alloc);
    if let Err(NoMemory) = sources.reserve(1) {
        return Err(without_memory(world));
    }
    match open_source(alloc, "stdin", world) {
        Ok(source) => {
            sources.push_reserved(Named { path: None, source });
            Ok(sources)
        }
        Err(stop) => Err(stop),
    }
}

// Opens the file of that path as a source, which has the path.
fn open_file<W: World>(alloc: Global, path: &str, world: &mut W) -> Result<Named<W::S>, Stop>
    ensures opens { Opens ⟦<W as World>⟧ (opening_of path.now ∷ []) result world.old world.new }
    ensures path { IfOk result (λ named. named.path ≡ Some path.now) }
    ensures placed { IsTrue (W.tells world.new) → IfOk result (λ named. W.S.place named.source ≡ length (W.tale world.old).calls + 1) }
    ensures fresh { IfOk result (λ named. FreshSource ⟦<W::S as Source>⟧ named.source) }
    ensures bytes { IsTrue (W.tells world.new) → IfOk result (λ named. HasBytes ⟦<W::S as Source>⟧ (W.tale world.old).files (W.tale world.old).stdin path.now named.source) }
{
    let name = match Text::make(alloc, path) {
        Ok(name) => name,
        Err(NoMemory) => return Err(without_memory(world)),
    };
    match open_source(alloc, path, world) {
        Ok(source) => Ok(Named {
            path: Some(name),
            source,
        }),
        Err(stop) => Err(stop),
    }
}

/// Opens the files of these paths as sources in order. Each source has its path.
pub fn open_files<W: World>(
    alloc: Global,
    paths: &[Text],
    world: &mut W,
) -> Result<Sources<W::S>, Stop>
    ensures opens { Opens ⟦<W as World>⟧ (source_openings (Some paths.now)) result world.old world.new }
    ensures many { IfOk result (λ sources. length sources.list ≡ length paths.now) }
    ensures fresh { IfOk result (λ sources. FreshSources ⟦<W::S as Source>⟧ sources.list) }
    ensures are { IsTrue (W.tells world.new) → IfOk result (λ sources. SourcesAre ⟦<W::S as Source>⟧ (length (W.tale world.old).calls + 1) (W.tale world.old).files paths.now sources.list) }
{
    let mut sources = Sequence::new(alloc);
    if let Err(NoMemory) = sources.reserve(paths.len()) {
        return Err(without_memory(world));
    }
    'files: for i in 0..paths.len() {
        match open_file(alloc, paths[i].as_str(), world) {
            Ok(named) => sources.push_reserved(named),
            Err(stop) => return Err(stop),
        }
    }
    Ok(sources)
}
