//! Interpolated texts.
ghost use Rattle.std.specs.Prelude.{◌≡◌, ◌≤◌, IfOk, OnOk, slice_range, true};
ghost use Rattle.std.specs.Str.{IsCharBoundary};
ghost use Rattle.bt_text_lints.specs.Inside.{AddsQueries, IsWhole};
ghost use Rattle.bt_text_lints.specs.Verdicts as spec;
ghost use Rattle.bt_text_lints.specs.Verdicts.{IsInterpolation};

use crate::judged::check_verdict;
use crate::verdict::Verdict;
use bt_pieces::{Span, pieces};
use bt_ports::NoMemory;
use sqlite_items::Items;
use std::alloc::Global;

/// What is wrong with an interpolated text: all faults of its queries, and all their lints.
pub fn interpolated(alloc: Global, text: &str) -> Result<Verdict, NoMemory>
    ensures { IfOk result (IsInterpolation text.now) }
{
    let spans = pieces(alloc, text)?;
    let mut out = empty(alloc);
    for span in spans.as_slice() {
        push_span(alloc, text, *span, &mut out)?;
    }
    Ok(out)
}

fn empty(alloc: Global) -> Verdict
    ensures { result ≡ spec.nothing }
{
    Verdict {
        faults: Items::new(alloc),
        lints: Items::new(alloc),
    }
}

// What is wrong with the query of a span, if it is one.
#[tactic(auto, using(crate::proofs::Queries::adds_none, crate::proofs::Queries::adds_one))]
fn push_span(alloc: Global, text: &str, span: Span, out: &mut Verdict) -> Result<(), NoMemory>
    requires { span.query ≡ true → IsWhole text.now span }
    ensures { OnOk result (AddsQueries (spec.query_of text.now span) out.old out.new) }
{
    if span.query {
        let verdict = check_verdict(alloc, part(text, span.from, span.to))?;
        return join(out, verdict);
    }
    Ok(())
}

// The bytes of a text between two places where characters begin.
fn part(text: &str, from: usize, to: usize) -> &str
    requires order { from ≤ to }
    requires from { IsCharBoundary text.now from }
    requires to { IsCharBoundary text.now to }
    ensures { result.now ≡ slice_range text.now from to }
{
    &text[from..to]
}

fn join(out: &mut Verdict, more: Verdict) -> Result<(), NoMemory>
    ensures { OnOk result (out.new ≡ spec.joined out.old more) }
{
    let Verdict { faults, lints } = more;
    if out.faults.append(faults).is_err() || out.lints.append(lints).is_err() {
        return Err(NoMemory);
    }
    Ok(())
}
