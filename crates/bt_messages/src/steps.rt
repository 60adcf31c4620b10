//! Processors that give one message or none for each, on messages in their places.
ghost use Rattle.std.specs.Prelude.{◌≡◌, IfOk, OnOk, length, map, option_and_then};
ghost use Rattle.bt_messages.specs.Cases.{in_branch, steps};
ghost use Rattle.bt_messages.specs.Singles as single;
ghost use Rattle.bt_messages.specs.Steps as spec;
ghost use Rattle.bt_messages.specs.Steps.{step};

use crate::branch::{are_there, ask_all, bring_all};
use crate::mapping::mapping;
use crate::messages::{count, place, unflagged};
use crate::switch::{go_on, hide, route, show};
use crate::tree::{Branch, Case, MessageProcessor};
use bt_ports::NoMemory;
use bt_value::Msg;
use std::alloc::Global;

/// How a message goes through processors as a batch of its own.
#[derive(Clone, Copy, PartialEq, Eq)]
pub(crate) enum Single {
    /// Until it is flagged.
    Try,
    /// Whatever it is.
    ForEach,
    /// Where it is flagged, after which it isn't.
    Catch,
}

/// A processor on messages in their places, at a moment in milliseconds since 1970.
///
/// A place whose message is dropped is left empty. Where memory is wanting, what stands in the places is
/// open. A batch has fewer than 2^32 messages: more is answered as want of memory.
#[cycle(step)]
pub fn step(
    alloc: Global,
    p: &MessageProcessor,
    moment: u64,
    places: &mut [Option<Msg>],
) -> Result<(), NoMemory>
    ensures { OnOk result (places.new ≡ spec.step p.now moment places.old) }
{
    match p {
        MessageProcessor::Mapping(r) => mapping(alloc, r, moment, places),
        MessageProcessor::Try(ps) => singles(alloc, Single::Try, ps.as_slice(), moment, places),
        MessageProcessor::ForEach(ps) => {
            singles(alloc, Single::ForEach, ps.as_slice(), moment, places)
        }
        MessageProcessor::Catch(ps) => singles(alloc, Single::Catch, ps.as_slice(), moment, places),
        MessageProcessor::Switch(cases) => switch(alloc, cases.as_slice(), moment, places),
        MessageProcessor::Branch(b) => branch(alloc, b, moment, places),
    }
}

/// Processors in their order, as [`step`] has each.
#[cycle(step)]
pub fn in_turn(
    alloc: Global,
    ps: &[MessageProcessor],
    moment: u64,
    places: &mut [Option<Msg>],
) -> Result<(), NoMemory>
    ensures { OnOk result (places.new ≡ spec.in_turn (map step ps.now) moment places.old) }
{
    for p in ps {
        step(alloc, p, moment, places)?;
    }
    Ok(())
}

/// One message through processors, as a batch of its own.
#[cycle(step)]
fn alone(
    alloc: Global,
    ps: &[MessageProcessor],
    moment: u64,
    x: Msg,
) -> Result<Option<Msg>, NoMemory>
    ensures { IfOk result (λ y. y ≡ spec.alone (map step ps.now) moment x) }
{
    let mut one = [Some(x)];
    in_turn(alloc, ps, moment, &mut one)?;
    let [y] = one;
    Ok(y)
}

/// A message that isn't flagged through one processor; one that is stays as it is.
#[cycle(step)]
fn tried_by(
    alloc: Global,
    p: &MessageProcessor,
    moment: u64,
    x: Option<Msg>,
) -> Result<Option<Msg>, NoMemory>
    ensures { IfOk result (λ y. y ≡ option_and_then (spec.tried_by (step p.now) moment) x) }
{
    match x {
        Some(x) => {
            if x.flag.is_some() {
                return Ok(Some(x));
            }
            let mut one = [Some(x)];
            step(alloc, p, moment, &mut one)?;
            let [y] = one;
            Ok(y)
        }
        None => Ok(None),
    }
}

/// A message through processors until it is flagged.
#[cycle(step)]
fn tried(
    alloc: Global,
    ps: &[MessageProcessor],
    moment: u64,
    x: Msg,
) -> Result<Option<Msg>, NoMemory>
    ensures { IfOk result (λ y. y ≡ spec.tried (map step ps.now) moment (Some x)) }
{
    let mut rest = Some(x);
    for p in ps {
        rest = tried_by(alloc, p, moment, rest)?;
    }
    Ok(rest)
}

/// One message as a batch of its own.
#[cycle(step)]
fn by_itself(
    alloc: Global,
    how: Single,
    ps: &[MessageProcessor],
    moment: u64,
    x: Msg,
) -> Result<Option<Msg>, NoMemory>
    ensures { IfOk result (λ y. y ≡ single.gives how (map step ps.now) moment x) }
{
    match how {
        Single::Try => tried(alloc, ps, moment, x),
        Single::ForEach => alone(alloc, ps, moment, x),
        Single::Catch => {
            if x.flag.is_none() {
                return Ok(Some(x));
            }
            match alone(alloc, ps, moment, x)? {
                Some(y) => Ok(Some(unflagged(y))),
                None => Ok(None),
            }
        }
    }
}

/// Each message as a batch of its own.
#[cycle(step)]
fn singles(
    alloc: Global,
    how: Single,
    ps: &[MessageProcessor],
    moment: u64,
    places: &mut [Option<Msg>],
) -> Result<(), NoMemory>
    ensures { OnOk result (places.new ≡ map (option_and_then (single.gives how (map step ps.now) moment)) places.old) }
{
    for x in places.iter_mut() {
        if let Some(message) = x.take() {
            *x = by_itself(alloc, how, ps, moment, message)?;
        }
    }
    Ok(())
}

/// The messages that go through a case, as one batch.
#[cycle(step)]
#[tactic(auto, using(crate::proofs::Places::put_back_others))]
fn through(
    alloc: Global,
    case: &Case<MessageProcessor>,
    moment: u64,
    nexts: &[Option<usize>],
    places: &mut [Option<Msg>],
) -> Result<(), NoMemory>
    requires { length places.old ≡ length nexts.now }
    ensures { OnOk result (places.new ≡ spec.put_back nexts.now (spec.in_turn (map step case.now.processors) moment (spec.going nexts.now places.old)) places.old) }
{
    let mut others = hide(alloc, nexts, places)?;
    in_turn(alloc, case.processors.as_slice(), moment, places)?;
    show(nexts, others.as_mut_slice(), places);
    Ok(())
}

/// The cases in their order.
#[cycle(step)]
fn switch(
    alloc: Global,
    cases: &[Case<MessageProcessor>],
    moment: u64,
    places: &mut [Option<Msg>],
) -> Result<(), NoMemory>
    ensures { OnOk result (places.new ≡ spec.switch (steps cases.now) moment places.old) }
{
    let mut nexts = route(alloc, cases, moment, places)?;
    for case in cases {
        through(alloc, case, moment, nexts.as_slice(), places)?;
        go_on(nexts.as_mut_slice(), case.fallthrough);
    }
    Ok(())
}

/// The copies of messages through processors as one batch, and back into their originals.
#[cycle(step)]
fn branch(
    alloc: Global,
    b: &Branch<MessageProcessor>,
    moment: u64,
    places: &mut [Option<Msg>],
) -> Result<(), NoMemory>
    ensures { OnOk result (places.new ≡ spec.branch (in_branch step b.now) moment places.old) }
{
    let size = place(count(places))?;
    let mut copies = ask_all(alloc, &b.request, size, moment, places)?;
    let waits = are_there(alloc, copies.as_slice())?;
    in_turn(
        alloc,
        b.processors.as_slice(),
        moment,
        copies.as_mut_slice(),
    )?;
    bring_all(
        alloc,
        &b.result,
        size,
        moment,
        waits.as_slice(),
        copies.as_mut_slice(),
        places,
    )
}
