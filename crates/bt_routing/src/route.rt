//! What an output asks of a message, but for the bytes of the records.
ghost use Rattle.std.specs.Prelude.{◌≡◌, IfOk, map, zero};
ghost use Rattle.bt_contexts.specs.Seen.{this_seen};
ghost use Rattle.bt_demand.specs.View.{tree, trees};
ghost use Rattle.bt_meaning.specs.Contents.{this_of};
ghost use Rattle.bt_outputs.specs.Asked as asked;
ghost use Rattle.bt_routing.specs.Blank.{blank, case_routes, IsCase};

use crate::checks::{ends, passes, some_asks};
use crate::demands::{all, behind, first, hold, leaf, matched, number, or_dropped};
use bt_contexts::This;
use bt_demand::demand::Demand;
use bt_mappings::{Spot, document, interpolate, this_failure};
use bt_outputs::{Output, OutputCase, Shift};
use bt_ports::NoMemory;
use bt_ports::text::Text;
use bt_value::Msg;
use std::alloc::Global;

/// What an output asks of a message, behind so many leaves and holds of earlier copies. Its records have no bytes yet.
#[cycle(route)]
pub(crate) fn route(
    alloc: Global,
    o: &Output,
    shift: Shift,
    msg: &Msg,
    this: This<'_>,
    spot: Spot,
) -> Result<Demand, NoMemory>
    requires { this_seen this msg.now ≡ this_of msg.now.content }
    ensures { IfOk result (λ d. tree d ≡ asked.route o.now shift (blank msg.now spot)) }
{
    match o {
        Output::Leaf { leaf: n, sink } => leaf(alloc, *n, *sink, shift),
        Output::Drop => Ok(Demand::Drop),
        Output::Reject(text) => Ok(Demand::Reject(interpolate(alloc, text, msg, spot)?)),
        Output::RejectErrored(child) => match &msg.flag {
            Some(text) => Ok(Demand::Reject(Text::make(alloc, text.as_str())?)),
            None => route(alloc, child.get(), shift, msg, this, spot),
        },
        Output::Broker(children) => {
            let list = each(alloc, children.as_slice(), shift, msg, this, spot)?;
            Ok(all(list))
        }
        Output::Hold { node, check, child } => {
            let ends = ends(alloc, check, msg, this, spot)?;
            let demand = route(alloc, child.get(), shift, msg, this, spot)?;
            let node = number(shift.holds, *node)?;
            hold(alloc, node, ends, msg.content.as_slice().len(), demand)
        }
        Output::Switch { cases, strict } => {
            let list = switch(alloc, cases.as_slice(), shift, msg, this, spot)?;
            matched(alloc, *strict, list)
        }
        Output::Fallback(children) => {
            let list = each(alloc, children.as_slice(), shift, msg, this, spot)?;
            Ok(first(list))
        }
        Output::Retry {
            copies,
            leaves,
            holds,
            child,
        } => {
            let list = tries(
                alloc,
                *copies,
                *leaves,
                *holds,
                child.get(),
                shift,
                msg,
                this,
                spot,
            )?;
            Ok(first(list))
        }
        Output::DropOn { error, child } => {
            let demand = route(alloc, child.get(), shift, msg, this, spot)?;
            or_dropped(alloc, *error, demand)
        }
    }
}

// What outputs ask, in their order.
#[cycle(route)]
fn each(
    alloc: Global,
    os: &[Output],
    shift: Shift,
    msg: &Msg,
    this: This<'_>,
    spot: Spot,
) -> Result<Vec<Demand>, NoMemory>
    requires { this_seen this msg.now ≡ this_of msg.now.content }
    ensures { IfOk result (λ ds. trees ds.items ≡ asked.each (map asked.route os.now) shift (blank msg.now spot)) }
{
    let mut list = Vec::with_capacity(alloc, os.len())?;
    for o in os {
        let demand = route(alloc, o, shift, msg, this, spot)?;
        list.push(demand)?;
    }
    Ok(list)
}

// What the cases ask that pass. The content is read once for all of them.
#[cycle(route)]
fn switch(
    alloc: Global,
    cases: &[OutputCase<Output>],
    shift: Shift,
    msg: &Msg,
    this: This<'_>,
    spot: Spot,
) -> Result<Vec<Demand>, NoMemory>
    requires { this_seen this msg.now ≡ this_of msg.now.content }
    ensures { let x = blank msg.now spot in
        IfOk result (λ ds. trees ds.items ≡ asked.each (asked.chosen (case_routes cases.now) x) shift x) }
{
    let This::Content = this else {
        return chosen(alloc, cases, shift, msg, this, spot);
    };
    if !some_asks(cases) {
        return chosen(alloc, cases, shift, msg, This::Content, spot);
    }
    match document(alloc, msg.content.as_slice())? {
        Ok(v) => chosen(alloc, cases, shift, msg, This::Known(&v), spot),
        Err(fault) => chosen(
            alloc,
            cases,
            shift,
            msg,
            This::Failed(this_failure(fault)),
            spot,
        ),
    }
}

// What a case asks, where it passes.
#[cycle(route)]
fn case(
    alloc: Global,
    k: &OutputCase<Output>,
    shift: Shift,
    msg: &Msg,
    this: This<'_>,
    spot: Spot,
) -> Result<Option<Demand>, NoMemory>
    requires { this_seen this msg.now ≡ this_of msg.now.content }
    ensures { IfOk result (λ d. IsCase k.now shift (blank msg.now spot) d) }
{
    if passes(alloc, &k.check, msg, this, spot)? {
        Ok(Some(route(alloc, &k.output, shift, msg, this, spot)?))
    } else {
        Ok(None)
    }
}

// What the cases ask that pass, up to the first of them that ends it.
#[cycle(route)]
fn chosen(
    alloc: Global,
    cases: &[OutputCase<Output>],
    shift: Shift,
    msg: &Msg,
    this: This<'_>,
    spot: Spot,
) -> Result<Vec<Demand>, NoMemory>
    requires { this_seen this msg.now ≡ this_of msg.now.content }
    ensures { let x = blank msg.now spot in
        IfOk result (λ ds. trees ds.items ≡ asked.each (asked.chosen (case_routes cases.now) x) shift x) }
{
    let mut list = Vec::new(alloc);
    for k in cases {
        if let Some(demand) = case(alloc, k, shift, msg, this, spot)? {
            list.push(demand)?;
            if !k.goes_on {
                return Ok(list);
            }
        }
    }
    Ok(list)
}

// What so many copies of an output ask.
#[cycle(route)]
fn tries(
    alloc: Global,
    copies: u32,
    leaves: u32,
    holds: u32,
    o: &Output,
    shift: Shift,
    msg: &Msg,
    this: This<'_>,
    spot: Spot,
) -> Result<Vec<Demand>, NoMemory>
    requires { this_seen this msg.now ≡ this_of msg.now.content }
    ensures { let x = blank msg.now spot in
        IfOk result (λ ds. trees ds.items ≡ asked.copies_of copies leaves holds (asked.route o.now) shift x) }
{
    let mut list = Vec::new(alloc);
    let mut at = shift;
    for i in 0..copies {
        let demand = route(alloc, o, at, msg, this, spot)?;
        list.push(demand)?;
        at = behind(leaves, holds, at)?;
    }
    Ok(list)
}
