//! The operators on values.
ghost use Rattle.std.specs.Prelude.{◌≡◌, IfOk, ◌-ℤ◌, ◌*ℤ◌, codes, int_div, false};
ghost use Rattle.bt_kinds.specs.Limits.{int};
ghost use Rattle.bt_kinds.specs.Operators as spec;
ghost use Rattle.bt_kinds.specs.Targets.{two, boolean};

use crate::kinds::{Kind, failure, op_name, wrong};
use crate::limits::int_of;
use crate::targets::{Chunk, boolean, number, text};
use bt_ports::NoMemory;
use bt_ports::blob::Blob;
use bt_value::{Op, Out, PrefixOp, Val, equals};
use std::alloc::Global;
use std::cmp::Ordering;

/// Two texts as one: a string where both are strings, and else bytes.
pub fn joined(left: Chunk, right: &Chunk) -> Result<Val, NoMemory>
    ensures { IfOk result (λ x. x ≡ spec.joined left right.now) }
{
    match left {
        Chunk::Str(mut s) => match right {
            Chunk::Str(t) => {
                s.push_str(t.as_str())?;
                Ok(Val::Str(s))
            }
            Chunk::Bytes(t) => {
                let mut bytes = Blob::from_vec(s.into_string().into_bytes());
                bytes.push_all(t.as_slice())?;
                Ok(Val::Bytes(bytes))
            }
        },
        Chunk::Bytes(mut s) => {
            s.push_all(right.as_slice())?;
            Ok(Val::Bytes(s))
        }
    }
}

/// Two operands of one kind.
#[derive(Drop)]
pub enum Operands {
    /// Two numbers.
    Numbers(i64, i64),
    /// Two texts.
    Texts(Chunk, Chunk),
}

/// The two operands, or the kind of the first that is wrong: the left one, unless it is a number or
/// a text.
fn pair(left: Val, right: Val) -> Result<Operands, Kind>
    ensures { result ≡ spec.pair left right }
{
    match number(&left) {
        Ok(m) => match number(&right) {
            Ok(n) => Ok(Operands::Numbers(m, n)),
            Err(kind) => Err(kind),
        },
        Err(_) => match text(left) {
            Ok(s) => match text(right) {
                Ok(t) => Ok(Operands::Texts(s, t)),
                Err(kind) => Err(kind),
            },
            Err(kind) => Err(kind),
        },
    }
}

#[tactic(auto, using(crate::proofs::Fits::int_from))]
fn added(alloc: Global, left: Val, right: Val) -> Result<Out, NoMemory>
    ensures { IfOk result (λ o. o ≡ spec.added left right) }
{
    match pair(left, right) {
        Ok(Operands::Numbers(m, n)) => int_of(alloc, "+", m.checked_add(n)),
        Ok(Operands::Texts(s, t)) => Ok(Out::Value(joined(s, &t)?)),
        Err(kind) => wrong(alloc, "+", kind),
    }
}

#[tactic(auto, using(crate::proofs::Fits::int_from))]
fn difference(alloc: Global, m: i64, n: i64) -> Result<Out, NoMemory>
    ensures { IfOk result (λ o. o ≡ int (codes "-") (m -ℤ n)) }
{
    int_of(alloc, "-", m.checked_sub(n))
}

#[tactic(auto, using(crate::proofs::Fits::int_from))]
fn product(alloc: Global, m: i64, n: i64) -> Result<Out, NoMemory>
    ensures { IfOk result (λ o. o ≡ int (codes "*") (m *ℤ n)) }
{
    int_of(alloc, "*", m.checked_mul(n))
}

#[tactic(auto, using(crate::proofs::Zeros::div_from))]
fn exact(alloc: Global, m: i64, n: i64) -> Result<Out, NoMemory>
    requires { spec.is_zero n ≡ false }
    ensures { IfOk result (λ o. o ≡ int (codes "/") (int_div m n)) }
{
    int_of(alloc, "/", m.checked_div(n))
}

#[tactic(auto, using(crate::proofs::Zeros::nonzero_is))]
fn quotient(alloc: Global, m: i64, n: i64) -> Result<Out, NoMemory>
    ensures { IfOk result (λ o. o ≡ spec.quotient m n) }
{
    if is_zero(n) {
        return failure(alloc, "/", "zero divisor");
    }
    let rest = m.wrapping_rem(n);
    if is_zero(rest) {
        exact(alloc, m, n)
    } else {
        failure(alloc, "/", "not exact")
    }
}

#[tactic(auto, using(crate::proofs::Zeros::nonzero_is))]
fn remainder(alloc: Global, m: i64, n: i64) -> Result<Out, NoMemory>
    ensures { IfOk result (λ o. o ≡ spec.remainder m n) }
{
    if is_zero(n) {
        return failure(alloc, "%", "zero divisor");
    }
    Ok(Out::Value(Val::Int(m.wrapping_rem(n))))
}

/// Whether a number is zero.
#[tactic(auto, using(crate::proofs::Zeros::zero_is, crate::proofs::Zeros::zero_not))]
pub fn is_zero(n: i64) -> bool
    ensures { result ≡ spec.is_zero n }
{
    n == 0
}

fn passes_order(op: Op, order: Ordering) -> bool
    ensures { result ≡ spec.passes_order op order }
{
    match op {
        Op::Less => order.is_lt(),
        Op::AtMost => order.is_le(),
        Op::More => order.is_gt(),
        Op::AtLeast => order.is_ge(),
        _ => order.is_eq(),
    }
}

fn ordered(alloc: Global, op: Op, left: Val, right: Val) -> Result<Out, NoMemory>
    ensures { IfOk result (λ o. o ≡ spec.ordered op left right) }
{
    match pair(left, right) {
        Ok(p) => Ok(Out::Value(Val::Bool(passes_order(op, pair_order(&p))))),
        Err(kind) => wrong(alloc, op_name(op), kind),
    }
}

fn pair_order(p: &Operands) -> Ordering
    ensures { result ≡ spec.pair_cmp p.now }
{
    match p {
        Operands::Numbers(m, n) => m.cmp(n),
        Operands::Texts(s, t) => s.as_slice().cmp(t.as_slice()),
    }
}

fn arithmetic(alloc: Global, op: Op, m: i64, n: i64) -> Result<Out, NoMemory>
    ensures { IfOk result (λ o. o ≡ spec.arithmetic op m n) }
{
    match op {
        Op::Sub => difference(alloc, m, n),
        Op::Mul => product(alloc, m, n),
        Op::Div => quotient(alloc, m, n),
        _ => remainder(alloc, m, n),
    }
}

fn on_numbers(alloc: Global, op: Op, left: &Val, right: &Val) -> Result<Out, NoMemory>
    ensures { IfOk result (λ o. o ≡ spec.on_numbers op left.now right.now) }
{
    match number(left) {
        Ok(m) => match number(right) {
            Ok(n) => arithmetic(alloc, op, m, n),
            Err(kind) => wrong(alloc, op_name(op), kind),
        },
        Err(kind) => wrong(alloc, op_name(op), kind),
    }
}

/// Two booleans, or the kind of the first operand that is none.
fn booleans(left: &Val, right: &Val) -> Result<(bool, bool), Kind>
    ensures { result ≡ two (boolean left.now) (boolean right.now) }
{
    match boolean(left) {
        Ok(a) => match boolean(right) {
            Ok(b) => Ok((a, b)),
            Err(kind) => Err(kind),
        },
        Err(kind) => Err(kind),
    }
}

/// What an operator gives of two values.
///
/// `+` adds numbers and joins texts; `-`, `*`, `/` and `%` take numbers, and a result past 64 bits, a
/// zero divisor and an inexact quotient are failures. `<`, `<=`, `>` and `>=` take two numbers or two
/// texts, `&&` and `||` two booleans, `==` and `!=` any two values. Each other kind is a wrong type.
#[tactic(auto, unfolding(crate::specs::Operators::operate))]
pub fn operate(alloc: Global, op: Op, left: Val, right: Val) -> Result<Out, NoMemory>
    ensures { IfOk result (λ o. o ≡ spec.operate op left right) }
{
    match op {
        Op::Add => added(alloc, left, right),
        Op::Sub => on_numbers(alloc, Op::Sub, &left, &right),
        Op::Mul => on_numbers(alloc, Op::Mul, &left, &right),
        Op::Div => on_numbers(alloc, Op::Div, &left, &right),
        Op::Rem => on_numbers(alloc, Op::Rem, &left, &right),
        Op::Equal => Ok(Out::Value(Val::Bool(equals(&left, &right)))),
        Op::NotEqual => Ok(Out::Value(Val::Bool(!equals(&left, &right)))),
        Op::Less => ordered(alloc, Op::Less, left, right),
        Op::AtMost => ordered(alloc, Op::AtMost, left, right),
        Op::More => ordered(alloc, Op::More, left, right),
        Op::AtLeast => ordered(alloc, Op::AtLeast, left, right),
        Op::And => match booleans(&left, &right) {
            Ok((a, b)) => Ok(Out::Value(Val::Bool(a && b))),
            Err(kind) => wrong(alloc, "&&", kind),
        },
        Op::Or => match booleans(&left, &right) {
            Ok((a, b)) => Ok(Out::Value(Val::Bool(a || b))),
            Err(kind) => wrong(alloc, "||", kind),
        },
    }
}

/// What an operator before its operand gives: `!` of a boolean, `-` of a number.
#[tactic(auto, unfolding(crate::specs::Operators::negate), using(crate::proofs::Fits::int_from))]
pub fn negate(alloc: Global, op: PrefixOp, v: Val) -> Result<Out, NoMemory>
    ensures { IfOk result (λ o. o ≡ spec.negate op v) }
{
    match op {
        PrefixOp::Not => match boolean(&v) {
            Ok(b) => Ok(Out::Value(Val::Bool(!b))),
            Err(kind) => wrong(alloc, "!", kind),
        },
        PrefixOp::Minus => match number(&v) {
            Ok(n) => int_of(alloc, "-", n.checked_neg()),
            Err(kind) => wrong(alloc, "-", kind),
        },
    }
}
