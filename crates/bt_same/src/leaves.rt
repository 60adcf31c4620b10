//! Parts that have no query in them.

ghost use Rattle.std.specs.Prelude.{◌≡◌, ◌↔◌, IsTrue};

use bt_ports::text::Text;
use bt_tree::Key;
use bt_value::{Op, PrefixOp};

pub fn same_text(a: &Text, b: &Text) -> bool
    ensures { IsTrue result ↔ (a.now ≡ b.now) }
{
    a.as_str() == b.as_str()
}

pub fn same_op(a: Op, b: Op) -> bool
    ensures { IsTrue result ↔ (a ≡ b) }
{
    a == b
}

pub fn same_prefix(a: PrefixOp, b: PrefixOp) -> bool
    ensures { IsTrue result ↔ (a ≡ b) }
{
    a == b
}

pub fn same_key(a: &Key, b: &Key) -> bool
    ensures { IsTrue result ↔ (a.now ≡ b.now) }
{
    match a {
        Key::Name(x) => match b {
            Key::Name(y) => same_text(x, y),
            Key::Quoted(_) => false,
        },
        Key::Quoted(x) => match b {
            Key::Quoted(y) => same_text(x, y),
            Key::Name(_) => false,
        },
    }
}

pub fn same_optional_key(a: &Option<Key>, b: &Option<Key>) -> bool
    ensures { IsTrue result ↔ (a.now ≡ b.now) }
{
    match a {
        None => b.is_none(),
        Some(x) => match b {
            Some(y) => same_key(x, y),
            None => false,
        },
    }
}
