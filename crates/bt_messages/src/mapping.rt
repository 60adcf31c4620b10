//! `mapping`.
ghost use Rattle.std.specs.Prelude.{◌≡◌, IfOk, OnOk, None};
ghost use Rattle.bt_meaning.specs.Mapped.{mapped};
ghost use Rattle.bt_messages.specs.Messages as spec;
ghost use Rattle.bt_messages.specs.Steps as steps;

use crate::messages::{count, flagged, place};
use bt_mappings::{Mapped, Spot, run_mapping};
use bt_ports::NoMemory;
use bt_ready::Ready;
use bt_value::Msg;
use std::alloc::Global;

/// What becomes of a message by what a mapping made of it.
pub(crate) fn after(x: Msg, made: Mapped) -> Option<Msg>
    ensures { result ≡ spec.after x made }
{
    match made {
        Mapped::Changed(m) => Some(m),
        Mapped::Dropped => None,
        Mapped::Flagged(t) => Some(flagged(x, t)),
    }
}

fn mapped_at(alloc: Global, r: &Ready, spot: Spot, x: Msg) -> Result<Option<Msg>, NoMemory>
    ensures { IfOk result (λ y. y ≡ spec.after x (mapped r.now.mapping x None spot)) }
{
    let made = run_mapping(alloc, r, &x, None, spot)?;
    Ok(after(x, made))
}

/// Runs a mapping on each message, with its place among those that are there.
pub(crate) fn mapping(
    alloc: Global,
    r: &Ready,
    moment: u64,
    places: &mut [Option<Msg>],
) -> Result<(), NoMemory>
    ensures { OnOk result (places.new ≡ steps.mapping r.now moment places.old) }
{
    let size = place(count(places))?;
    let mut index = 0;
    for x in places.iter_mut() {
        if let Some(message) = x.take() {
            let spot = Spot {
                index,
                size,
                moment,
            };
            *x = mapped_at(alloc, r, spot, message)?;
            index += 1;
        }
    }
    Ok(())
}
