//! Batches that came, compared with what was expected of them.
ghost use Rattle.std.specs.Prelude.{◌≡◌, ◌++◌, ◌∷◌, [], IfOk, OnOk, length, map};
ghost use Rattle.bt_expectations.specs.Conditions.{condition_of, holds};
ghost use Rattle.bt_expectations.specs.Failures as spec;
ghost use Rattle.bt_expectations.specs.declared.failure.Failure.TheVariants as failure;
ghost use Rattle.bt_messages.specs.Messages.{spot};

use crate::condition::{Expectation, Expectations, ExpectedBatch, condition_of};
use crate::failure::{Failure, Failures};
use crate::holding::holds;
use bt_batches::{Batch, Piece};
use bt_mappings::Spot;
use bt_messages::messages::place;
use bt_ports::NoMemory;
use bt_value::Msg;
use sqlite_items::Items;
use std::alloc::Global;

/// What fails of what is expected of batches, in the order of their messages.
///
/// Where there is another number of batches, only that is told, and where a batch has another number of messages, only that is told of
/// it. There are fewer than 2^32 of each: more is answered as want of memory.
pub fn failures(
    alloc: Global,
    expected: &[ExpectedBatch],
    got: &[Batch],
) -> Result<Failures, NoMemory>
    ensures { IfOk result (λ fs. fs ≡ spec.failures_of expected.now (map (λ b. b.items) got.now)) }
{
    let mut out = Items::new(alloc);
    if expected.len() == got.len() {
        push_batches(alloc, expected, got, &mut out)?;
    } else {
        push_numbers(expected.len(), got.len(), &mut out)?;
    }
    Ok(out)
}

fn push(failure: Failure, out: &mut Failures) -> Result<(), NoMemory>
    ensures { OnOk result (out.new ≡ out.old ++ failure ∷ []) }
{
    match out.push(failure) {
        Ok(()) => Ok(()),
        Err(_) => Err(NoMemory),
    }
}

fn push_numbers(expected: usize, got: usize, out: &mut Failures) -> Result<(), NoMemory>
    ensures { OnOk result (out.new ≡ out.old ++ failure.Batches expected got ∷ []) }
{
    let expected = place(expected)?;
    let got = place(got)?;
    push(Failure::Batches { expected, got }, out)
}

fn push_batches(
    alloc: Global,
    expected: &[ExpectedBatch],
    got: &[Batch],
    out: &mut Failures,
) -> Result<(), NoMemory>
    requires { length expected.now ≡ length got.now }
    ensures { OnOk result (out.new ≡ out.old ++ spec.each_pair spec.in_batch 0 expected.now (map (λ b. b.items) got.now)) }
{
    for i in 0..expected.len() {
        push_batch(alloc, i, &expected[i], got[i].as_slice(), out)?;
    }
    Ok(())
}

fn push_batch(
    alloc: Global,
    batch: usize,
    expected: &ExpectedBatch,
    got: &[Piece],
    out: &mut Failures,
) -> Result<(), NoMemory>
    ensures { OnOk result (out.new ≡ out.old ++ spec.in_batch batch expected.now got.now) }
{
    let batch = place(batch)?;
    if expected.len() == got.len() {
        push_messages(alloc, batch, expected.as_slice(), got, out)
    } else {
        let expected = place(expected.len())?;
        let got = place(got.len())?;
        push(
            Failure::Messages {
                batch,
                expected,
                got,
            },
            out,
        )
    }
}

fn push_messages(
    alloc: Global,
    batch: u32,
    expected: &[Expectations],
    got: &[Piece],
    out: &mut Failures,
) -> Result<(), NoMemory>
    requires { length expected.now ≡ length got.now }
    ensures { OnOk result (out.new ≡ out.old ++ spec.in_messages batch expected.now got.now) }
{
    let size = place(got.len())?;
    for i in 0..expected.len() {
        push_message(alloc, batch, i, size, &expected[i], &got[i], out)?;
    }
    Ok(())
}

fn push_message(
    alloc: Global,
    batch: u32,
    message: usize,
    size: u32,
    expected: &Expectations,
    got: &Piece,
    out: &mut Failures,
) -> Result<(), NoMemory>
    ensures { OnOk result (out.new ≡ out.old ++ spec.in_message batch expected.now got.now.msg (spot size 0 message)) }
{
    let at = Spot {
        index: place(message)?,
        size,
        moment: 0,
    };
    push_conditions(alloc, batch, expected.as_slice(), &got.msg, at, out)
}

fn push_conditions(
    alloc: Global,
    batch: u32,
    expected: &[Expectation],
    msg: &Msg,
    at: Spot,
    out: &mut Failures,
) -> Result<(), NoMemory>
    ensures { OnOk result (out.new ≡ out.old ++ spec.in_message batch expected.now msg.now at) }
{
    for expectation in expected {
        push_condition(alloc, batch, expectation, msg, at, out)?;
    }
    Ok(())
}

// Puts the condition at the end, unless it holds.
fn push_condition(
    alloc: Global,
    batch: u32,
    expectation: &Expectation,
    msg: &Msg,
    at: Spot,
    out: &mut Failures,
) -> Result<(), NoMemory>
    ensures { OnOk result (out.new
        ≡ out.old ++ spec.unless (holds expectation.now msg.now at) (failure.Condition batch at.index (condition_of expectation.now))) }
{
    if holds(alloc, expectation, msg, at)? {
        return Ok(());
    }
    push(
        Failure::Condition {
            batch,
            message: at.index,
            condition: condition_of(expectation),
        },
        out,
    )
}
