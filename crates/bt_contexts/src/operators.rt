//! Operators between what queries give and before it, and literals.
ghost use Rattle.std.specs.Prelude.{◌≡◌, IfOk};
ghost use Rattle.bt_meaning.specs.Operators as spec;
ghost use Rattle.bt_meaning.specs.Value.{sense};

use bt_kinds::kinds::{Kind, kind_of, op_name, prefix_name, wrong};
use bt_kinds::{negate, operate};
use bt_ports::NoMemory;
use bt_ports::text::Text;
use bt_tree::Query;
use bt_value::{Op, Out, PrefixOp, Val};
use std::alloc::Global;

fn is_number(kind: Kind) -> bool
    ensures { result ≡ spec.is_number kind }
{
    match kind {
        Kind::Number => true,
        _ => false,
    }
}

fn is_number_or_text(kind: Kind) -> bool
    ensures { result ≡ spec.is_number_or_text kind }
{
    match kind {
        Kind::Number => true,
        Kind::String => true,
        Kind::Bytes => true,
        _ => false,
    }
}

fn is_boolean(kind: Kind) -> bool
    ensures { result ≡ spec.is_boolean kind }
{
    match kind {
        Kind::Bool => true,
        _ => false,
    }
}

/// Whether an operator takes values of a kind on its left.
fn takes(op: Op, kind: Kind) -> bool
    ensures { result ≡ spec.takes op kind }
{
    match op {
        Op::Sub => is_number(kind),
        Op::Mul => is_number(kind),
        Op::Div => is_number(kind),
        Op::Rem => is_number(kind),
        Op::Equal => true,
        Op::NotEqual => true,
        Op::Add => is_number_or_text(kind),
        Op::Less => is_number_or_text(kind),
        Op::AtMost => is_number_or_text(kind),
        Op::More => is_number_or_text(kind),
        Op::AtLeast => is_number_or_text(kind),
        Op::And => is_boolean(kind),
        Op::Or => is_boolean(kind),
    }
}

/// The kind that a wrong type names, of a value on the left and of what stands on the right.
fn offending(op: Op, left: Kind, right: Kind) -> Kind
    ensures { result ≡ spec.offending op left right }
{
    if takes(op, left) { right } else { left }
}

/// What an operator gives of two outcomes.
pub fn operands(alloc: Global, op: Op, left: Out, right: Out) -> Result<Out, NoMemory>
    ensures { IfOk result (λ r. r ≡ spec.operands op left right) }
{
    match left {
        Out::Failed(t) => Ok(Out::Failed(t)),
        Out::Value(v) => match right {
            Out::Failed(t) => Ok(Out::Failed(t)),
            Out::Value(w) => operate(alloc, op, v, w),
            Out::Deleted => wrong(
                alloc,
                op_name(op),
                offending(op, kind_of(&v), Kind::Deleted),
            ),
            Out::Nothing => wrong(
                alloc,
                op_name(op),
                offending(op, kind_of(&v), Kind::Nothing),
            ),
        },
        Out::Deleted => match right {
            Out::Failed(t) => Ok(Out::Failed(t)),
            _ => wrong(alloc, op_name(op), Kind::Deleted),
        },
        Out::Nothing => match right {
            Out::Failed(t) => Ok(Out::Failed(t)),
            _ => wrong(alloc, op_name(op), Kind::Nothing),
        },
    }
}

/// What an operator before its operand gives.
pub fn prefixed(alloc: Global, op: PrefixOp, o: Out) -> Result<Out, NoMemory>
    ensures { IfOk result (λ r. r ≡ spec.prefixed op o) }
{
    match o {
        Out::Value(v) => negate(alloc, op, v),
        Out::Failed(t) => Ok(Out::Failed(t)),
        Out::Deleted => wrong(alloc, prefix_name(op), Kind::Deleted),
        Out::Nothing => wrong(alloc, prefix_name(op), Kind::Nothing),
    }
}

/// The value of a query that is a literal.
pub fn literal(alloc: Global, q: &Query) -> Result<Option<Val>, NoMemory>
    ensures { IfOk result (λ o. o ≡ (sense q.now).literal) }
{
    match q {
        Query::Null => Ok(Some(Val::Null)),
        Query::True => Ok(Some(Val::Bool(true))),
        Query::False => Ok(Some(Val::Bool(false))),
        Query::Int(n) => Ok(Some(Val::Int(*n))),
        Query::Quoted(w) => Ok(Some(Val::Str(Text::make(alloc, w.text.as_str())?))),
        Query::Prefix(PrefixOp::Minus, inner) => match literal(alloc, inner.get())? {
            Some(v) => match negate(alloc, PrefixOp::Minus, v)? {
                Out::Value(w) => Ok(Some(w)),
                _ => Ok(None),
            },
            None => Ok(None),
        },
        _ => Ok(None),
    }
}
