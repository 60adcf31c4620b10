//! The processors of a configuration.
ghost use Rattle.std.specs.Prelude.{◌≡◌, IfErr, IfNone, IfOk, eqb, false};
ghost use Rattle.std.specs.List.{slice_split};
ghost use Rattle.std.specs.Option.{option_copied};
ghost use Rattle.bt_schema.specs.declared.places.Place.TheVariants as place;
ghost use Rattle.bt_walk.specs.Targets as targets;
ghost use Rattle.bt_compile.specs.Compiled as spec;
ghost use Rattle.bt_compile.specs.Compiled.{AreProcessorsAt, IsFaultAt};

use crate::fault::ProcsFault;
use crate::processors::each_processor;
use bt_config::Config;
use bt_making::Refusal;
use bt_ports::NoMemory;
use bt_ports::text::Text;
use bt_proc::Procs;
use bt_schema::Place;
use bt_value::{Val, Vals};
use bt_walk::reach;
use sqlite_items::Items;
use std::alloc::Global;

/// The processors of the list that the pointer names, with each mapping, check and interpolated text of
/// them made ready once.
///
/// A field that is absent, or that has a lint, reads as its default. In a configuration without lints
/// every text is read, so that `Lint` comes only for a pattern that is refused.
pub fn compile_procs(alloc: Global, c: &Config, pointer: &str) -> Result<Procs, ProcsFault>
    ensures made { IfOk result (AreProcessorsAt c.now.doc pointer.now) }
    ensures refused { IfErr result (IsFaultAt c.now.doc pointer.now) }
{
    let names = names_of(alloc, pointer)?;
    let Some(items) = list_named(&c.doc, names.as_slice()) else {
        return Err(ProcsFault::NotThere);
    };
    match each_processor(alloc, items, pointer) {
        Ok(procs) => Ok(procs),
        Err(Refusal::Lint(lint)) => Err(ProcsFault::Lint(lint)),
        Err(Refusal::NoMemory) => Err(ProcsFault::NoMemory),
    }
}

// The names between the `/` of a pointer.
fn names_of(alloc: Global, pointer: &str) -> Result<Items<Text>, NoMemory>
    ensures { IfOk result (λ ns. ns ≡ slice_split (λ b. eqb b 47) pointer.now) }
{
    let mut names = Items::new(alloc);
    for name in pointer.split('/') {
        let text = Text::make(alloc, name)?;
        match names.push(text) {
            Ok(()) => {}
            Err(_) => return Err(NoMemory),
        }
    }
    Ok(names)
}

// The list of processors that the names lead to, the first of which is empty.
fn list_named<'a>(config: &'a Val, names: &[Text]) -> Option<&'a Vals>
    ensures list { option_copied result ≡ spec.named_by names.now config.now }
    ensures none { IfNone result (targets.names_of_list names.now config.now ≡ false) }
{
    match names {
        [first, rest @ ..] => {
            if first.as_str().is_empty() {
                list_at(config, rest)
            } else {
                None
            }
        }
        [] => None,
    }
}

fn list_at<'a>(config: &'a Val, names: &[Text]) -> Option<&'a Vals>
    ensures list { option_copied result ≡ spec.elements_at (targets.reach names.now (place.Top, config.now)) }
    ensures none { IfNone result (targets.is_list_there (targets.reach names.now (place.Top, config.now)) ≡ false) }
{
    match reach(Place::Top, config, names) {
        Some((Place::Processors, Val::Arr(items))) => Some(items),
        _ => None,
    }
}
