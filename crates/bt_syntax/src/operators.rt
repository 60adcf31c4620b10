//! Which marks are operators and separators.

ghost use Rattle.std.specs.Prelude.{◌≡◌};
ghost use Rattle.bt_syntax.specs.Grammar as grammar;

use bt_lexer::Kind;
use bt_value::{Op, PrefixOp};

/// `!` and `-`, before an operand.
pub fn prefix_op(kind: Kind) -> Option<PrefixOp>
    ensures { result ≡ grammar.prefix_op kind }
{
    match kind {
        Kind::Bang => Some(PrefixOp::Not),
        Kind::Minus => Some(PrefixOp::Minus),
        _ => None,
    }
}

/// `*`, `/` and `%`.
pub fn product_op(kind: Kind) -> Option<Op>
    ensures { result ≡ grammar.product_op kind }
{
    match kind {
        Kind::Star => Some(Op::Mul),
        Kind::Slash => Some(Op::Div),
        Kind::Percent => Some(Op::Rem),
        _ => None,
    }
}

/// `+` and `-`, between operands.
pub fn sum_op(kind: Kind) -> Option<Op>
    ensures { result ≡ grammar.sum_op kind }
{
    match kind {
        Kind::Plus => Some(Op::Add),
        Kind::Minus => Some(Op::Sub),
        _ => None,
    }
}

/// The comparisons.
pub fn comparison_op(kind: Kind) -> Option<Op>
    ensures { result ≡ grammar.comparison_op kind }
{
    match kind {
        Kind::Equal => Some(Op::Equal),
        Kind::NotEqual => Some(Op::NotEqual),
        Kind::Less => Some(Op::Less),
        Kind::LessEqual => Some(Op::AtMost),
        Kind::Greater => Some(Op::More),
        Kind::GreaterEqual => Some(Op::AtLeast),
        _ => None,
    }
}

/// What stands between cases.
pub fn separates_cases(kind: Kind) -> bool
    ensures { result ≡ grammar.separates_cases kind }
{
    matches!(kind, Kind::Nl | Kind::Comma)
}

/// What stands between statements.
pub fn separates_statements(kind: Kind) -> bool
    ensures { result ≡ grammar.separates_statements kind }
{
    matches!(kind, Kind::Nl)
}
