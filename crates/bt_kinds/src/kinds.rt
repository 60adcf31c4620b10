//! Kinds of values, and the texts of failures.
ghost use Rattle.std.specs.Prelude.{◌≡◌, IfOk};
ghost use Rattle.bt_kinds.specs.Kinds as spec;

use bt_ports::NoMemory;
use bt_ports::text::Text;
use bt_value::{Op, Out, PrefixOp, Val};
use std::alloc::Global;

/// A kind of value, or of what is no value.
#[derive(Clone, Copy, PartialEq, Eq, Debug)]
pub enum Kind {
    /// Null.
    Null,
    /// True or false.
    Bool,
    /// A whole number.
    Number,
    /// A text of characters.
    String,
    /// Bytes.
    Bytes,
    /// A list.
    Array,
    /// An object.
    Object,
    /// No value: what it is assigned to is removed.
    Deleted,
    /// No value: what it is assigned to stays.
    Nothing,
}

/// The kind of a value.
#[tactic(auto, unfolding(crate::specs::Kinds::kind_of))]
pub fn kind_of(v: &Val) -> Kind
    ensures { result ≡ spec.kind_of v.now }
{
    match v {
        Val::Null => Kind::Null,
        Val::Bool(_) => Kind::Bool,
        Val::Int(_) => Kind::Number,
        Val::Str(_) => Kind::String,
        Val::Bytes(_) => Kind::Bytes,
        Val::Arr(_) => Kind::Array,
        Val::Obj(_) => Kind::Object,
    }
}

/// The kind of what a query gives; a failure counts as no value, and no text names its kind.
#[tactic(auto, unfolding(crate::specs::Kinds::kind_of_out))]
pub fn kind_of_out(o: &Out) -> Kind
    ensures { result ≡ spec.kind_of_out o.now }
{
    match o {
        Out::Value(v) => kind_of(v),
        Out::Deleted => Kind::Deleted,
        _ => Kind::Nothing,
    }
}

/// The name of a kind in a failure's text.
pub fn kind_name(kind: Kind) -> &'static str
    ensures { result.now ≡ spec.kind_name kind }
{
    match kind {
        Kind::Null => "null",
        Kind::Bool => "bool",
        Kind::Number => "number",
        Kind::String => "string",
        Kind::Bytes => "bytes",
        Kind::Array => "array",
        Kind::Object => "object",
        Kind::Deleted => "deleted",
        Kind::Nothing => "nothing",
    }
}

/// An operator as it is written.
pub fn op_name(op: Op) -> &'static str
    ensures { result.now ≡ spec.op_name op }
{
    match op {
        Op::Add => "+",
        Op::Sub => "-",
        Op::Mul => "*",
        Op::Div => "/",
        Op::Rem => "%",
        Op::Equal => "==",
        Op::NotEqual => "!=",
        Op::Less => "<",
        Op::AtMost => "<=",
        Op::More => ">",
        Op::AtLeast => ">=",
        Op::And => "&&",
        Op::Or => "||",
    }
}

/// An operator before its operand as it is written.
pub fn prefix_name(op: PrefixOp) -> &'static str
    ensures { result.now ≡ spec.prefix_name op }
{
    match op {
        PrefixOp::Not => "!",
        PrefixOp::Minus => "-",
    }
}

/// The failure `NAME: REASON`.
#[tactic(auto, unfolding(crate::specs::Kinds::failure))]
pub fn failure(alloc: Global, name: &str, reason: &str) -> Result<Out, NoMemory>
    ensures { IfOk result (λ o. o ≡ spec.failure name.now reason.now) }
{
    let mut text = Text::make(alloc, name)?;
    text.push_str(": ")?;
    text.push_str(reason)?;
    Ok(Out::Failed(text))
}

/// The failure `NAME: wrong type KIND`.
#[tactic(auto, unfolding(crate::specs::Kinds::wrong))]
pub fn wrong(alloc: Global, name: &str, kind: Kind) -> Result<Out, NoMemory>
    ensures { IfOk result (λ o. o ≡ spec.wrong name.now kind) }
{
    let mut text = Text::make(alloc, name)?;
    text.push_str(": wrong type ")?;
    text.push_str(kind_name(kind))?;
    Ok(Out::Failed(text))
}
