//! A text cut into literals and queries.

ghost use Rattle.std.specs.Prelude.{◌≡◌, ◌+◌, ◌≤◌, ℕ, List, [], ◌∷◌, ◌++◌, Some, None, drop, length, IfSome, IfOk, OnOk};
ghost use Rattle.bt_pieces.specs.Pieces as spec;
ghost use Rattle.bt_pieces.specs.Pieces.{IsCut, CutFrom, FirstMark, FirstClose};
ghost use Rattle.bt_pieces.specs.declared.cut.Span.{Span};

use bt_ports::NoMemory;
use bt_ports::sequence::Sequence;
use memchr::{memchr, memmem};
use std::alloc::Global;

/// A part of a text. Places are bytes, from 0.
#[derive(Clone, Copy, Debug, PartialEq, Eq)]
pub struct Span {
    /// Whether it is a query, without its marks.
    pub query: bool,
    /// The place of its first byte.
    pub from: usize,
    /// The place after its last byte.
    pub to: usize,
}

/// Spans that rise.
pub type Spans = Sequence<Span>;

/// Cuts a text into literals and queries. A query lies between `${!` and the next `}`; the literals
/// are the rest without these two marks, and none is empty. A `${!` with no `}` after it is literal.
///
/// The time is linear in the text.
pub fn pieces(alloc: Global, text: &str) -> Result<Spans, NoMemory>
    ensures { IfOk result (λ spans. IsCut text.now spans.list) }
{
    let s = text.as_bytes();
    let mut spans = Sequence::new(alloc);
    let mut from = 0;
    while let Some((mark, close)) = query_after(s, from) {
        push_literal(&mut spans, from, mark)?;
        push(
            &mut spans,
            Span {
                query: true,
                from: mark + 3,
                to: close,
            },
        )?;
        from = close + 1;
    }
    push_literal(&mut spans, from, s.len())?;
    Ok(spans)
}

/// A law: a text is cut in one way. The call does nothing.
pub fn one_cut()
    ensures { (s : List ℕ) (xs ys : List Span) → IsCut s xs → IsCut s ys → xs ≡ ys }
{}

/// What is left of a text from a place on.
fn from_place(s: &[u8], from: usize) -> &[u8]
    requires { from ≤ length s.now }
    ensures { result.now ≡ drop from s.now }
{
    &s[from..]
}

/// The first `${!` from a place on.
fn first_mark(s: &[u8], from: usize) -> Option<usize>
    requires { from ≤ length s.now }
    ensures { FirstMark s.now from result }
{
    Some(from + memmem::find(from_place(s, from), b"${!")?)
}

/// The first `}` from a place on.
fn first_close(s: &[u8], from: usize) -> Option<usize>
    requires { from ≤ length s.now }
    ensures { FirstClose s.now from result }
{
    Some(from + memchr(b'}', from_place(s, from))?)
}

/// The next query after a place: its `${!`, and the `}` that ends it.
fn query_after(s: &[u8], from: usize) -> Option<(usize, usize)>
    requires { from ≤ length s.now }
    ensures some { IfSome result (λ p.
        FirstMark s.now from (Some p.0) × FirstClose s.now (p.0 + 3) (Some p.1)) }
    ensures none { result ≡ None → CutFrom s.now from (spec.literal from (length s.now)) }
{
    let mark = first_mark(s, from)?;
    let close = first_close(s, mark + 3)?;
    Some((mark, close))
}

fn push(spans: &mut Spans, span: Span) -> Result<(), NoMemory>
    ensures { OnOk result (spans.new.list ≡ spans.old.list ++ span ∷ []) }
{
    match spans.push(span) {
        Ok(()) => Ok(()),
        Err((NoMemory, _)) => Err(NoMemory),
    }
}

/// A literal, unless it were empty.
fn push_literal(spans: &mut Spans, from: usize, to: usize) -> Result<(), NoMemory>
    ensures { OnOk result (spans.new.list ≡ spans.old.list ++ spec.literal from to) }
{
    if from == to {
        return Ok(());
    }
    push(
        spans,
        Span {
            query: false,
            from,
            to,
        },
    )
}
