//! What a walk knows of what stands above a value.
ghost use Rattle.std.specs.Prelude.{◌≡◌, IfOk, ◌&&◌, ◌||◌};
ghost use Rattle.bt_walk.specs.Counts as counts;
ghost use Rattle.bt_walk.specs.Ends as ends;
ghost use Rattle.bt_walk.specs.Walk as spec;

use crate::above::Above;
use crate::counts::{What, within};
use crate::ends::two_codecs;
use crate::targets::is_target;
use bt_ports::NoMemory;
use bt_schema::{Place, is_hold, is_newer};
use bt_value::Val;
use std::alloc::Global;

/// What stands above a whole configuration.
pub fn top(alloc: Global, config: &Val) -> Result<Above, NoMemory>
    ensures { IfOk result (λ above. above ≡ spec.top config.now) }
{
    let has_processors = is_target(alloc, config, "/pipeline/processors")?;
    Ok(Above {
        newer: is_newer(config),
        has_processors,
        below_switch: false,
        below_hold: false,
        below_batched: false,
        batching_below: false,
        changes_number: false,
        too_many: false,
        two_codecs: false,
    })
}

/// What stands above an element of a list.
pub fn inside(above: Above) -> Above
    ensures { result ≡ spec.inside above }
{
    Above {
        batching_below: false,
        changes_number: false,
        too_many: false,
        two_codecs: false,
        ..above
    }
}

/// What stands above the member `v` of a value at `here`, where its own place is `there`.
#[tactic(auto, using(crate::proofs::Same::is_same))]
pub fn entered(
    alloc: Global,
    here: Place,
    there: Place,
    v: &Val,
    above: Above,
) -> Result<Above, NoMemory>
    ensures { IfOk result (λ entered. entered ≡ spec.entered here there (spec.meaning v.now) above) }
{
    let hold = is_hold(there, v);
    let batched = is_batched(there);
    let many = is_too_many(here, above.newer, there, v);
    let differ = differs(alloc, here, above.newer, there, v)?;
    Ok(Above {
        newer: above.newer,
        has_processors: above.has_processors,
        below_switch: either(above.below_switch, is_switch(there)),
        below_hold: either(above.below_hold, hold),
        below_batched: either(above.below_batched, batched),
        batching_below: either(
            both(hold, above.below_hold),
            both(batched, above.below_batched),
        ),
        changes_number: both(is_changer(there), above.below_switch),
        too_many: many,
        two_codecs: differ,
    })
}

fn both(a: bool, b: bool) -> bool
    ensures { result ≡ (a && b) }
{
    a && b
}

fn either(a: bool, b: bool) -> bool
    ensures { result ≡ (a || b) }
{
    a || b
}

fn is_batched(there: Place) -> bool
    ensures { result ≡ spec.is_batched there }
{
    matches!(there, Place::Batched)
}

fn is_switch(there: Place) -> bool
    ensures { result ≡ spec.is_switch there }
{
    matches!(there, Place::Switch | Place::Branch)
}

fn is_changer(there: Place) -> bool
    ensures { result ≡ spec.is_changer there }
{
    matches!(
        there,
        Place::Archive | Place::Split | Place::GroupBy | Place::GroupByValue
    )
}

fn is_top(here: Place) -> bool
    ensures { result ≡ spec.is_top here }
{
    matches!(here, Place::Top)
}

fn is_too_many(here: Place, newer: bool, there: Place, v: &Val) -> bool
    ensures { result ≡ (spec.is_top here && counts.too_many newer there (spec.meaning v.now)) }
{
    is_top(here) && too_many(newer, there, v)
}

fn too_many(newer: bool, there: Place, v: &Val) -> bool
    ensures { result ≡ counts.too_many newer there (spec.meaning v.now) }
{
    match there {
        Place::Input => within(What::Source, newer, Place::Input, v) > 64,
        Place::Output => {
            within(What::Leaf, newer, Place::Output, v) > 256
                || within(What::Hold, newer, Place::Output, v) > 64
        }
        _ => false,
    }
}

fn differs(alloc: Global, here: Place, newer: bool, there: Place, v: &Val) -> Result<bool, NoMemory>
    ensures { IfOk result (λ b. b ≡ (spec.is_top here && ends.two_codecs newer there (spec.meaning v.now))) }
{
    if is_top(here) {
        two_codecs(alloc, newer, there, v)
    } else {
        Ok(false)
    }
}
