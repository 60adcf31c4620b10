//! Interpolated texts.
ghost use Rattle.std.specs.Prelude.{◌≡◌, ◌++◌, IfOk, OnOk};
ghost use Rattle.bt_contexts.specs.Seen.{seen, this_seen, out_of};
ghost use Rattle.bt_meaning.specs.Contents.{this_of};
ghost use Rattle.bt_meaning.specs.Mapped as spec;
ghost use Rattle.bt_mappings.specs.Interpolated.{bit_text, interpolated};

use crate::run::{query_out, top};
use bt_contexts::content::{document, this_failure};
use bt_contexts::got::own;
use bt_contexts::{Got, This};
use bt_meaning::Spot;
use bt_ports::NoMemory;
use bt_ports::sequence::Sequence;
use bt_ports::text::Text;
use bt_ready::Ready;
use bt_texts::conversions::stringed;
use bt_value::{Msg, Out};
use std::alloc::Global;

/// A piece of an interpolated text.
#[derive(Drop)]
pub enum Bit {
    /// Text that stands as it is.
    Literal(Text),
    /// A mapping that is one query.
    Query(Ready),
}

/// The pieces of an interpolated text, in their order.
pub type Pieces = Sequence<Bit>;

/// The text of what a query gave.
fn shown(alloc: Global, got: Got<'_>) -> Result<Text, NoMemory>
    ensures { IfOk result (λ t. t ≡ spec.shown (out_of got.entry)) }
{
    match own(alloc, got)? {
        Out::Value(v) => match stringed(alloc, v)? {
            Some(text) => Ok(text),
            None => Text::make(alloc, "null"),
        },
        _ => Text::make(alloc, "null"),
    }
}

/// Puts the text of a piece at the end.
fn push_bit(
    alloc: Global,
    text: &mut Text,
    bit: &Bit,
    msg: &Msg,
    this: This<'_>,
    spot: Spot,
) -> Result<(), NoMemory>
    requires { this_seen this msg.now ≡ this_of msg.now.content }
    ensures { OnOk result (text.new ≡ text.old ++ bit_text bit.now msg.now spot) }
{
    match bit {
        Bit::Literal(literal) => text.push_str(literal.as_str()),
        Bit::Query(r) => {
            let c = top(r, msg, this, spot);
            let got = query_out(alloc, &r.mapping, &c)?;
            let shown = shown(alloc, got)?;
            text.push_str(shown.as_str())
        }
    }
}

fn push_bits(
    alloc: Global,
    bits: &[Bit],
    msg: &Msg,
    this: This<'_>,
    spot: Spot,
) -> Result<Text, NoMemory>
    requires { this_seen this msg.now ≡ this_of msg.now.content }
    ensures { IfOk result (λ t. t ≡ interpolated bits.now msg.now spot) }
{
    let mut text = Text::new(alloc);
    for bit in bits {
        push_bit(alloc, &mut text, bit, msg, this, spot)?;
    }
    Ok(text)
}

/// The text of pieces for a message: what each query gives as a string, or `null` where it fails, gives
/// no value, or gives bytes that are no text.
///
/// The content is read once.
pub fn interpolate(alloc: Global, pieces: &Pieces, msg: &Msg, spot: Spot) -> Result<Text, NoMemory>
    ensures { IfOk result (λ t. t ≡ interpolated pieces.now.list msg.now spot) }
{
    match document(alloc, msg.content.as_slice())? {
        Ok(v) => push_bits(alloc, pieces.as_slice(), msg, This::Known(&v), spot),
        Err(fault) => push_bits(
            alloc,
            pieces.as_slice(),
            msg,
            This::Failed(this_failure(fault)),
            spot,
        ),
    }
}
