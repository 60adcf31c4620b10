//! Interpolated texts.
ghost use Rattle.std.specs.Prelude.{◌≡◌, ◌++◌, ◌∷◌, [], ◌≤◌, IfErr, IfOk, OnOk, slice_range, true, false};
ghost use Rattle.std.specs.Str.{IsCharBoundary};
ghost use Rattle.bt_making.specs.Inside.{AreWhole, IsWhole};
ghost use Rattle.bt_making.specs.Made.{ArePieces, FirstUnready, IsInterpolation, IsPiece, IsRefusal, IsUnreadyAt, IsUnreadyText};

use crate::making::make_check;
use crate::refusal::Refusal;
use bt_mappings::{Bit, Pieces};
use bt_pieces::{Span, pieces};
use bt_ports::NoMemory;
use bt_ports::text::Text;
use std::alloc::Global;

/// The pieces of an interpolated text that stands at a place of the configuration, its queries made
/// ready to run.
pub fn make_pieces(alloc: Global, text: &str, at: &str) -> Result<Pieces, Refusal>
    ensures made { IfOk result (λ p. IsInterpolation text.now p.list) }
    ensures refused { IfErr result (IsRefusal (IsUnreadyText text.now) at.now) }
{
    let spans = pieces(alloc, text)?;
    all_made(alloc, text, at, spans.as_slice())
}

fn all_made(alloc: Global, text: &str, at: &str, spans: &[Span]) -> Result<Pieces, Refusal>
    requires { AreWhole text.now spans.now }
    ensures made { IfOk result (λ p. ArePieces text.now spans.now p.list) }
    ensures refused { IfErr result (IsRefusal (FirstUnready text.now spans.now) at.now) }
{
    let mut out = Pieces::new(alloc);
    for span in spans {
        let bit = make_bit(alloc, text, at, *span)?;
        push(&mut out, bit)?;
    }
    Ok(out)
}

fn push(out: &mut Pieces, bit: Bit) -> Result<(), NoMemory>
    ensures { OnOk result (out.new.list ≡ out.old.list ++ bit ∷ []) }
{
    match out.push(bit) {
        Ok(()) => Ok(()),
        Err(_) => Err(NoMemory),
    }
}

// The piece at a span.
fn make_bit(alloc: Global, text: &str, at: &str, span: Span) -> Result<Bit, Refusal>
    requires { IsWhole text.now span }
    ensures made { IfOk result (IsPiece text.now span) }
    ensures refused { IfErr result (IsRefusal (IsUnreadyAt text.now span) at.now) }
{
    let inside = part(text, span.from, span.to);
    if span.query {
        Ok(Bit::Query(make_check(alloc, inside, at)?))
    } else {
        Ok(Bit::Literal(Text::make(alloc, inside)?))
    }
}

// The bytes of a text between two places where characters begin.
fn part(text: &str, from: usize, to: usize) -> &str
    requires order { from ≤ to }
    requires from { IsCharBoundary text.now from }
    requires to { IsCharBoundary text.now to }
    ensures { result.now ≡ slice_range text.now from to }
{
    &text[from..to]
}
