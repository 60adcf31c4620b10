//! `branch`: copies, and what comes of them.
ghost use Rattle.std.specs.Prelude.{◌≡◌, ◌<◌, ◌≤◌, IfOk, OnOk, length, map, is_some};
ghost use Rattle.std.specs.Result.{result_ok};
ghost use Rattle.bt_messages.specs.Steps as spec;

use crate::mapping::after;
use crate::messages::{count, flagged, place, unflagged};
use bt_mappings::{Mapped, Spot, run_mapping};
use bt_ports::NoMemory;
use bt_ports::text::Text;
use bt_ready::Ready;
use bt_value::Msg;
use std::alloc::Global;

/// A message, and its copy where it has one.
#[derive(Drop)]
struct Asked {
    original: Msg,
    copy: Option<Msg>,
}

// What is made of a message without a flag.
fn asked_by(original: Msg, made: Mapped) -> Asked
    ensures original { result.original ≡ spec.original_by (spec.copy_by original made) original }
    ensures copy { result.copy ≡ result_ok (spec.copy_by original made) }
{
    match made {
        Mapped::Changed(copy) => Asked {
            original,
            copy: Some(copy),
        },
        Mapped::Dropped => Asked {
            original,
            copy: None,
        },
        Mapped::Flagged(t) => Asked {
            original: flagged(original, t),
            copy: None,
        },
    }
}

// Makes the copy of a message.
fn ask(alloc: Global, request: &Option<Ready>, spot: Spot, x: Msg) -> Result<Asked, NoMemory>
    ensures original { IfOk result (λ a. a.original ≡ spec.original_by (spec.copied request.now spot x) x) }
    ensures copy { IfOk result (λ a. a.copy ≡ result_ok (spec.copied request.now spot x)) }
{
    match request {
        None => {
            let copy = unflagged(x.copy(alloc)?);
            Ok(Asked {
                original: x,
                copy: Some(copy),
            })
        }
        Some(r) => {
            let Msg {
                content,
                meta,
                flag,
            } = x;
            let bare = Msg {
                content,
                meta,
                flag: None,
            };
            let made = run_mapping(alloc, r, &bare, None, spot)?;
            let Msg { content, meta, .. } = bare;
            Ok(asked_by(
                Msg {
                    content,
                    meta,
                    flag,
                },
                made,
            ))
        }
    }
}

// Brings a copy that isn't flagged back into its original.
fn bring_bare(
    alloc: Global,
    back: &Option<Ready>,
    spot: Spot,
    x: Msg,
    copy: &Msg,
) -> Result<Option<Msg>, NoMemory>
    ensures { IfOk result (λ y. y ≡ spec.brought back.now spot x copy.now) }
{
    match back {
        None => Ok(Some(x)),
        Some(r) => {
            let made = run_mapping(alloc, r, copy, Some(&x), spot)?;
            Ok(after(x, made))
        }
    }
}

// Brings a copy back into its original.
fn bring(
    alloc: Global,
    back: &Option<Ready>,
    spot: Spot,
    x: Msg,
    copy: Option<Msg>,
) -> Result<Option<Msg>, NoMemory>
    ensures { IfOk result (λ y. y ≡ spec.joined back.now spot x copy) }
{
    let Some(copy) = copy else {
        return Ok(Some(flagged(x, Text::make(alloc, "branch: dropped")?)));
    };
    let Msg {
        content,
        meta,
        flag,
    } = copy;
    match flag {
        Some(t) => Ok(Some(flagged(x, t))),
        None => bring_bare(
            alloc,
            back,
            spot,
            x,
            &Msg {
                content,
                meta,
                flag: None,
            },
        ),
    }
}

/// Makes the copies of messages, in the places of their originals.
pub(crate) fn ask_all(
    alloc: Global,
    request: &Option<Ready>,
    size: u32,
    moment: u64,
    places: &mut [Option<Msg>],
) -> Result<Vec<Option<Msg>>, NoMemory>
    requires { spec.count places.old ≤ size }
    ensures originals { OnOk result (places.new ≡ spec.originals request.now size moment places.old) }
    ensures copies { IfOk result (λ cs. cs.items ≡ spec.copies request.now size moment places.old) }
    ensures as_many { IfOk result (λ cs. length cs.items ≡ length places.old) }
{
    let mut copies = Vec::with_capacity(alloc, places.len())?;
    let mut index = 0;
    for x in places.iter_mut() {
        let mut copy = None;
        if let Some(message) = x.take() {
            let spot = Spot {
                index,
                size,
                moment,
            };
            let asked = ask(alloc, request, spot, message)?;
            *x = Some(asked.original);
            copy = asked.copy;
            index += 1;
        }
        copies.push(copy)?;
    }
    Ok(copies)
}

/// Which places have a message.
pub(crate) fn are_there(alloc: Global, places: &[Option<Msg>]) -> Result<Vec<bool>, NoMemory>
    ensures there { IfOk result (λ bs. bs.items ≡ map is_some places.now) }
    ensures as_many { IfOk result (λ bs. length bs.items ≡ length places.now) }
{
    let mut there = Vec::with_capacity(alloc, places.len())?;
    for x in places {
        there.push(x.is_some())?;
    }
    Ok(there)
}

// Brings a copy back, where its original waits for it, and gives the place of the next message.
fn bring_at(
    alloc: Global,
    back: &Option<Ready>,
    size: u32,
    moment: u64,
    index: usize,
    waits: bool,
    copy: &mut Option<Msg>,
    x: &mut Option<Msg>,
) -> Result<usize, NoMemory>
    requires { index < 18446744073709551615 }
    ensures here { OnOk result (x.new ≡ spec.joined_place back.now size moment index waits copy.old x.old) }
    ensures next { IfOk result (λ i. i ≡ spec.next_place index x.old) }
{
    let Some(original) = x.take() else {
        return Ok(index);
    };
    if !waits {
        *x = Some(original);
        return Ok(index + 1);
    }
    let spot = Spot {
        index: place(index)?,
        size,
        moment,
    };
    *x = bring(alloc, back, spot, original, copy.take())?;
    Ok(index + 1)
}

/// Brings copies back into the originals that wait for them.
pub(crate) fn bring_all(
    alloc: Global,
    back: &Option<Ready>,
    size: u32,
    moment: u64,
    waits: &[bool],
    copies: &mut [Option<Msg>],
    places: &mut [Option<Msg>],
) -> Result<(), NoMemory>
    requires waits { length places.old ≡ length waits.now }
    requires copies { length places.old ≡ length copies.old }
    ensures { OnOk result (places.new ≡ spec.all_joined back.now size moment 0 waits.now copies.old places.old) }
{
    let mut index = 0;
    for i in 0..places.len() {
        index = bring_at(
            alloc,
            back,
            size,
            moment,
            index,
            waits[i],
            &mut copies[i],
            &mut places[i],
        )?;
    }
    Ok(())
}
