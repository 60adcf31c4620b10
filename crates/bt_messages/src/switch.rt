//! `switch`: which cases a message goes through.
ghost use Rattle.std.specs.Prelude.{◌≡◌, IfOk, OnOk, map, length};
ghost use Rattle.bt_messages.specs.Cases as cases_of;
ghost use Rattle.bt_messages.specs.Steps as spec;

use crate::messages::{count, flagged, place};
use crate::tree::{Case, MessageProcessor};
use bt_mappings::{Spot, checked};
use bt_ports::NoMemory;
use bt_ports::text::Text;
use bt_ready::Ready;
use bt_value::Msg;
use std::alloc::Global;

/// For each place, how many cases stand before the next that its message goes through, if there is such a one.
pub(crate) type Nexts = Vec<Option<usize>>;

/// A message, and how many cases stand before the next that it goes through, if there is such a one.
#[derive(Drop)]
struct Routed {
    message: Msg,
    next: Option<usize>,
}

/// What a check says of a message. Without a check all pass.
fn answer(
    alloc: Global,
    check: &Option<Ready>,
    x: &Msg,
    spot: Spot,
) -> Result<Result<bool, Text>, NoMemory>
    ensures { IfOk result (λ b. b ≡ spec.answered check.now x.now spot) }
{
    match check {
        None => Ok(Ok(true)),
        Some(r) => checked(alloc, r, x, spot),
    }
}

/// The first case that passes.
fn route_of(
    alloc: Global,
    cases: &[Case<MessageProcessor>],
    spot: Spot,
    x: Msg,
) -> Result<Routed, NoMemory>
    ensures message { IfOk result (λ r. r.message ≡ (spec.routed (cases_of.steps cases.now) spot x).message) }
    ensures next { IfOk result (λ r. r.next ≡ (spec.routed (cases_of.steps cases.now) spot x).next) }
{
    for i in 0..cases.len() {
        match answer(alloc, &cases[i].check, &x, spot)? {
            Ok(true) => {
                return Ok(Routed {
                    message: x,
                    next: Some(i),
                });
            }
            Ok(false) => {}
            Err(t) => {
                return Ok(Routed {
                    message: flagged(x, t),
                    next: None,
                });
            }
        }
    }
    Ok(Routed {
        message: x,
        next: None,
    })
}

/// The routes of messages, of which those whose check failed are flagged.
pub(crate) fn route(
    alloc: Global,
    cases: &[Case<MessageProcessor>],
    moment: u64,
    places: &mut [Option<Msg>],
) -> Result<Nexts, NoMemory>
    ensures messages { OnOk result (places.new ≡ spec.messages (spec.routes (cases_of.steps cases.now) moment places.old)) }
    ensures nexts { IfOk result (λ ns. ns.items ≡ spec.nexts (spec.routes (cases_of.steps cases.now) moment places.old)) }
{
    let size = place(count(places))?;
    let mut index = 0;
    let mut nexts = Vec::new(alloc);
    for x in places.iter_mut() {
        let mut next = None;
        if let Some(message) = x.take() {
            let spot = Spot {
                index,
                size,
                moment,
            };
            let routed = route_of(alloc, cases, spot, message)?;
            *x = Some(routed.message);
            next = routed.next;
            index += 1;
        }
        nexts.push(next)?;
    }
    Ok(nexts)
}

// Leaves a message in its place where it goes through the case that comes next, and else gives it.
fn hide_at(next: Option<usize>, x: &mut Option<Msg>) -> Option<Msg>
    ensures going { x.new ≡ spec.going_at next x.old }
    ensures other { result ≡ cases_of.other_at next x.old }
{
    match next {
        Some(0) => None,
        _ => x.take(),
    }
}

/// Leaves in their places the messages that go through the case that comes next, and gives the others.
pub(crate) fn hide(
    alloc: Global,
    nexts: &[Option<usize>],
    places: &mut [Option<Msg>],
) -> Result<Vec<Option<Msg>>, NoMemory>
    requires { length places.old ≡ length nexts.now }
    ensures going { OnOk result (places.new ≡ spec.going nexts.now places.old) }
    ensures others { IfOk result (λ xs. xs.items ≡ cases_of.others nexts.now places.old) }
    ensures as_many { IfOk result (λ xs. length xs.items ≡ length places.old) }
{
    let mut others = Vec::with_capacity(alloc, places.len())?;
    for i in 0..places.len() {
        let other = hide_at(nexts[i], &mut places[i]);
        others.push(other)?;
    }
    Ok(others)
}

// Puts a message back, where it didn't go through the case.
fn show_at(next: Option<usize>, other: &mut Option<Msg>, x: &mut Option<Msg>)
    ensures { x.new ≡ spec.put_at next x.old other.old }
{
    match next {
        Some(0) => {}
        _ => *x = other.take(),
    }
}

/// Puts the others back.
pub(crate) fn show(nexts: &[Option<usize>], others: &mut [Option<Msg>], places: &mut [Option<Msg>])
    requires nexts { length places.old ≡ length nexts.now }
    requires others { length places.old ≡ length others.old }
    ensures { places.new ≡ spec.put_back nexts.now places.old others.old }
{
    for i in 0..places.len() {
        show_at(nexts[i], &mut others[i], &mut places[i]);
    }
}

/// Goes on to the next case.
pub(crate) fn go_on(nexts: &mut [Option<usize>], fallthrough: bool)
    ensures { nexts.new ≡ map (spec.next_after fallthrough) nexts.old }
{
    for next in nexts.iter_mut() {
        *next = match *next {
            None => None,
            Some(0) => { if fallthrough { Some(0) } else { None } }
            Some(n) => Some(n - 1),
        };
    }
}
