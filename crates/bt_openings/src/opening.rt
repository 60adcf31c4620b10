//! All openings of a run.
ghost use Rattle.std.specs.Prelude.{◌≡◌, ◌+◌, ◌∷◌, [], length, IfOk, IsTrue, option_map};
ghost use Rattle.bt_openings.specs.Objects.{FreshSources};
ghost use Rattle.bt_openings.specs.Opened.{AreSources, IsFresh, IsOpened};
ghost use Rattle.bt_openings.specs.Openings.{Opens};
ghost use Rattle.bt_openings.specs.Plan.{openings, source_openings};

use crate::answers::open_answers;
use crate::sinks::open_sinks;
use crate::sources::{open_files, open_stdin};
use crate::stop::Stop;
use bt_ports::blob::Blob;
use bt_ports::outside::{Answerer, Sink, Source};
use bt_ports::parts::{Sinks, Sources};
use bt_ports::text::Text;
use bt_ports::world::World;
use std::alloc::Global;

/// The objects that a run opens.
#[derive(Drop)]
pub struct Opening<S, K, A> {
    pub sinks: Sinks<K>,
    pub answerer: A,
    pub sources: Sources<S>,
}

// Opens the standard input, or the files of these paths.
fn open_sources<W: World>(
    alloc: Global,
    files: Option<&[Text]>,
    world: &mut W,
) -> Result<Sources<W::S>, Stop>
    ensures opens { Opens ⟦<W as World>⟧ (source_openings (option_map (λ f. f.now) files.entry)) result world.old world.new }
    ensures fresh { IfOk result (λ sources. FreshSources ⟦<W::S as Source>⟧ sources.list) }
    ensures are { IsTrue (W.tells world.new) → IfOk result (λ sources. AreSources ⟦<W::S as Source>⟧ (length (W.tale world.old).calls + 1) (W.tale world.old) (option_map (λ f. f.now) files.entry) sources.list) }
{
    match files {
        Some(paths) => open_files(alloc, paths, world),
        None => open_stdin(alloc, world),
    }
}

/// Opens all that a run needs, each once: the sinks of these names in order, each with its closing bytes; the answers, with
/// their file where there is one; and the standard input, or the files of these paths in order.
///
/// # Errors
///
/// The first opening that failed, or want of memory. No call is made after it, and what was opened is dropped. A line of `err`
/// says it.
pub fn open_run<W: World>(
    alloc: Global,
    names: &[Text],
    ends: &[Blob],
    answers: Option<&str>,
    files: Option<&[Text]>,
    world: &mut W,
) -> Result<Opening<W::S, W::K, W::A>, Stop>
    requires { length names.now ≡ length ends.now }
    ensures opens { Opens ⟦<W as World>⟧ (openings names.now ends.now (option_map (λ p. p.now) answers.entry) (option_map (λ f. f.now) files.entry)) result world.old world.new }
    ensures fresh { IfOk result (IsFresh ⟦<W::S as Source>⟧ ⟦<W::K as Sink>⟧ ⟦<W::A as Answerer>⟧ names.now) }
    ensures are { IsTrue (W.tells world.new) → IfOk result (IsOpened ⟦<W::S as Source>⟧ ⟦<W::K as Sink>⟧ ⟦<W::A as Answerer>⟧ names.now (option_map (λ f. f.now) files.entry) (W.tale world.old)) }
{
    let sinks = match open_sinks(alloc, names, ends, world) {
        Ok(sinks) => sinks,
        Err(stop) => return Err(stop),
    };
    let answerer = match open_answers(alloc, answers, world) {
        Ok(answerer) => answerer,
        Err(stop) => return Err(stop),
    };
    match open_sources(alloc, files, world) {
        Ok(sources) => Ok(Opening {
            sinks,
            answerer,
            sources,
        }),
        Err(stop) => Err(stop),
    }
}
