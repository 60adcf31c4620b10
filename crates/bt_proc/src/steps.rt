//! Batches through processors.
ghost use Rattle.std.specs.Prelude.{◌≡◌, ◌++◌, IfOk, OnOk, map};
ghost use Rattle.std.specs.List.{flat_map};
ghost use Rattle.bt_batches.specs.Grouping.{others, passing, pieces_of};
ghost use Rattle.bt_batches.specs.Pieces.{joined as end_to_end};
ghost use Rattle.bt_proc.specs.Groups.{in_group};
ghost use Rattle.bt_proc.specs.Procs as spec;
ghost use Rattle.bt_proc.specs.Procs.{effect, procs};
ghost use Rattle.bt_proc.specs.Singles as single;

use crate::tree::{Format, Group, Processor, Procs};
use bt_batches::checks::{Numbered, Sifted, numbered, sift_all, unnumbered};
use bt_batches::piece::{append, joined, one, put, unflag_all};
use bt_batches::{
    Batch, Batches, Piece, archive_json, archive_lines, by_value, split, stepped, unarchive_json,
    unarchive_lines,
};
use bt_messages::messages::place;
use bt_ports::NoMemory;
use std::alloc::Global;

/// How a message goes through processors as a batch of its own.
#[derive(Clone, Copy, PartialEq, Eq)]
pub(crate) enum Single {
    /// Until it is flagged.
    Try,
    /// Whatever it is.
    ForEach,
    /// Where it is flagged, after which it isn't.
    Catch,
}

/// What processors make of a batch, at a moment in milliseconds since 1970. None of the batches is empty.
///
/// A batch has fewer than 2^32 messages: more is answered as want of memory.
pub fn process(alloc: Global, p: &Procs, batch: Batch, moment: u64) -> Result<Batches, NoMemory>
    ensures { IfOk result (λ bs. map (λ b. b.items) bs.items ≡ procs p.now moment batch.items) }
{
    run(alloc, p.as_slice(), moment, batch)
}

fn archive(alloc: Global, format: Format, batch: Batch) -> Result<Batch, NoMemory>
    ensures { IfOk result (λ b. b.items ≡ spec.archive format batch.items) }
{
    match format {
        Format::Lines => archive_lines(alloc, batch),
        Format::JsonArray => archive_json(alloc, batch),
    }
}

fn unarchive(alloc: Global, format: Format, batch: Batch) -> Result<Batch, NoMemory>
    ensures { IfOk result (λ b. b.items ≡ flat_map (spec.unarchive format) batch.items) }
{
    match format {
        Format::Lines => unarchive_lines(alloc, batch),
        Format::JsonArray => unarchive_json(alloc, batch),
    }
}

// A batch through processors in their order.
#[cycle(run)]
fn run(alloc: Global, ps: &[Processor], moment: u64, batch: Batch) -> Result<Batches, NoMemory>
    ensures { IfOk result (λ bs. map (λ b. b.items) bs.items
        ≡ spec.run (map effect ps.now) moment batch.items) }
{
    let mut batches = Vec::with_capacity(alloc, 1)?;
    put(batch, &mut batches)?;
    for p in ps {
        batches = through(alloc, p, moment, batches)?;
    }
    Ok(batches)
}

// Batches through a processor. One batch alone takes no memory for its place.
#[cycle(run)]
fn through(alloc: Global, p: &Processor, moment: u64, batches: Batches) -> Result<Batches, NoMemory>
    ensures { IfOk result (λ bs. map (λ b. b.items) bs.items
        ≡ flat_map (effect p.now moment) (map (λ b. b.items) batches.items)) }
{
    let mut batches = batches;
    if batches.len() != 1 {
        return through_all(alloc, p, moment, batches);
    }
    if let Some(batch) = batches.pop() {
        give(alloc, p, moment, batch, &mut batches)?;
    }
    Ok(batches)
}

#[cycle(run)]
fn through_all(
    alloc: Global,
    p: &Processor,
    moment: u64,
    batches: Batches,
) -> Result<Batches, NoMemory>
    ensures { IfOk result (λ bs. map (λ b. b.items) bs.items
        ≡ flat_map (effect p.now moment) (map (λ b. b.items) batches.items)) }
{
    let mut given = Vec::with_capacity(alloc, batches.len())?;
    for batch in batches {
        give(alloc, p, moment, batch, &mut given)?;
    }
    Ok(given)
}

// Puts what a processor makes of a batch behind other batches.
#[cycle(run)]
fn give(
    alloc: Global,
    p: &Processor,
    moment: u64,
    batch: Batch,
    batches: &mut Batches,
) -> Result<(), NoMemory>
    ensures { OnOk result (map (λ b. b.items) batches.new.items
        ≡ map (λ b. b.items) batches.old.items ++ effect p.now moment batch.items) }
{
    match p {
        Processor::Message(m) => put(stepped(alloc, m, moment, batch)?, batches),
        Processor::Try(ps) => put(
            singles(alloc, Single::Try, ps.as_slice(), moment, batch)?,
            batches,
        ),
        Processor::ForEach(ps) => put(
            singles(alloc, Single::ForEach, ps.as_slice(), moment, batch)?,
            batches,
        ),
        Processor::Catch(ps) => put(
            singles(alloc, Single::Catch, ps.as_slice(), moment, batch)?,
            batches,
        ),
        Processor::Split(size) => append(split(alloc, *size, batch)?, batches),
        Processor::GroupBy(groups) => {
            append(group(alloc, groups.as_slice(), moment, batch)?, batches)
        }
        Processor::GroupByValue(value) => append(by_value(alloc, value, moment, batch)?, batches),
        Processor::Archive(format) => put(archive(alloc, *format, batch)?, batches),
        Processor::Unarchive(format) => put(unarchive(alloc, *format, batch)?, batches),
    }
}

// What a processor makes of a batch, as one batch.
#[cycle(run)]
fn flat(alloc: Global, p: &Processor, moment: u64, batch: Batch) -> Result<Batch, NoMemory>
    ensures { IfOk result (λ b. b.items ≡ end_to_end (effect p.now moment batch.items)) }
{
    match p {
        Processor::Message(m) => stepped(alloc, m, moment, batch),
        p => {
            let mut batches = Vec::new(alloc);
            give(alloc, p, moment, batch, &mut batches)?;
            joined(alloc, batches)
        }
    }
}

// The messages that come of one message as a batch of its own.
#[cycle(run)]
fn alone(alloc: Global, ps: &[Processor], moment: u64, p: Piece) -> Result<Batch, NoMemory>
    ensures { IfOk result (λ b. b.items ≡ spec.alone (map effect ps.now) moment p) }
{
    let batch = one(alloc, p)?;
    let batches = run(alloc, ps, moment, batch)?;
    joined(alloc, batches)
}

// A message that isn't flagged through one processor; one that is stays as it is.
#[cycle(run)]
fn tried_by(alloc: Global, f: &Processor, moment: u64, p: Piece) -> Result<Batch, NoMemory>
    ensures { IfOk result (λ b. b.items ≡ spec.tried_by (effect f.now) moment p) }
{
    let is_flagged = p.msg.flag.is_some();
    let batch = one(alloc, p)?;
    if is_flagged {
        Ok(batch)
    } else {
        flat(alloc, f, moment, batch)
    }
}

// Each message that isn't flagged through one processor.
#[cycle(run)]
fn try_each(alloc: Global, f: &Processor, moment: u64, batch: Batch) -> Result<Batch, NoMemory>
    ensures { IfOk result (λ b. b.items ≡ flat_map (spec.tried_by (effect f.now) moment) batch.items) }
{
    let mut all = Vec::with_capacity(alloc, batch.len())?;
    for p in batch {
        let mut made = tried_by(alloc, f, moment, p)?;
        all.append(&mut made)?;
    }
    Ok(all)
}

// A message through processors until it is flagged.
#[cycle(run)]
fn tried(alloc: Global, ps: &[Processor], moment: u64, p: Piece) -> Result<Batch, NoMemory>
    ensures { IfOk result (λ b. b.items ≡ single.tried_one (map effect ps.now) moment p) }
{
    let mut batch = one(alloc, p)?;
    for f in ps {
        batch = try_each(alloc, f, moment, batch)?;
    }
    Ok(batch)
}

// One message as a batch of its own.
#[cycle(run)]
fn by_itself(
    alloc: Global,
    how: Single,
    ps: &[Processor],
    moment: u64,
    p: Piece,
) -> Result<Batch, NoMemory>
    ensures { IfOk result (λ b. b.items ≡ single.gives how (map effect ps.now) moment p) }
{
    match how {
        Single::Try => tried(alloc, ps, moment, p),
        Single::ForEach => alone(alloc, ps, moment, p),
        Single::Catch => {
            if p.msg.flag.is_none() {
                return one(alloc, p);
            }
            let mut made = alone(alloc, ps, moment, p)?;
            unflag_all(made.as_mut_slice());
            Ok(made)
        }
    }
}

// Each message as a batch of its own, and what comes of them as one batch.
#[cycle(run)]
fn singles(
    alloc: Global,
    how: Single,
    ps: &[Processor],
    moment: u64,
    batch: Batch,
) -> Result<Batch, NoMemory>
    ensures { IfOk result (λ b. b.items ≡ flat_map (single.gives how (map effect ps.now) moment) batch.items) }
{
    let mut all = Vec::with_capacity(alloc, batch.len())?;
    for p in batch {
        let mut made = by_itself(alloc, how, ps, moment, p)?;
        all.append(&mut made)?;
    }
    Ok(all)
}

// Puts the batch of a group behind others, and gives the messages that are left for the next group.
#[cycle(run)]
fn group_one(
    alloc: Global,
    g: &Group<Processor>,
    size: u32,
    moment: u64,
    left: Vec<Numbered>,
    batches: &mut Batches,
) -> Result<Vec<Numbered>, NoMemory>
    ensures batches { OnOk result (map (λ b. b.items) batches.new.items ≡ map (λ b. b.items) batches.old.items
        ++ spec.run (map effect g.now.processors) moment (pieces_of (passing g.now.check size moment left.items))) }
    ensures left { IfOk result (λ ps. ps.items ≡ others g.now.check size moment left.items) }
{
    let Sifted { passing, others } = sift_all(alloc, &g.check, size, moment, left)?;
    let batch = unnumbered(alloc, passing)?;
    let made = run(alloc, g.processors.as_slice(), moment, batch)?;
    append(made, batches)?;
    Ok(others)
}

// The groups' batches, and those of no group last.
#[cycle(run)]
fn group(
    alloc: Global,
    groups: &[Group<Processor>],
    moment: u64,
    batch: Batch,
) -> Result<Batches, NoMemory>
    ensures { IfOk result (λ bs. map (λ b. b.items) bs.items
        ≡ spec.group_by (map (in_group effect) groups.now) moment batch.items) }
{
    let size = place(batch.len())?;
    let mut left = numbered(alloc, batch)?;
    let mut batches = Vec::new(alloc);
    for g in groups {
        left = group_one(alloc, g, size, moment, left, &mut batches)?;
    }
    let batch = unnumbered(alloc, left)?;
    put(batch, &mut batches)?;
    Ok(batches)
}
