//! Messages in their places.
//!
//! The messages of a batch stand in places. One that was dropped leaves its place empty, and the others keep their order
//! and count their places without it.
ghost use Rattle.std.specs.Prelude.{◌≡◌, IfOk};
ghost use Rattle.bt_messages.specs.Messages as spec;
ghost use Rattle.bt_messages.specs.Steps as steps;

use bt_ports::NoMemory;
use bt_ports::text::Text;
use bt_value::Msg;

/// The message with a flag.
pub fn flagged(x: Msg, t: Text) -> Msg
    ensures { result ≡ spec.flagged t x }
{
    let Msg { content, meta, .. } = x;
    Msg {
        content,
        meta,
        flag: Some(t),
    }
}

/// The message without one.
pub fn unflagged(x: Msg) -> Msg
    ensures { result ≡ spec.unflagged x }
{
    let Msg { content, meta, .. } = x;
    Msg {
        content,
        meta,
        flag: None,
    }
}

/// A place, or a number of messages. A batch has fewer than 2^32 of them: more is answered as want of memory.
pub fn place(n: usize) -> Result<u32, NoMemory>
    ensures { IfOk result (λ k. k ≡ n) }
{
    match u32::try_from(n) {
        Ok(k) => Ok(k),
        Err(_) => Err(NoMemory),
    }
}

/// How many messages there are.
pub fn count(places: &[Option<Msg>]) -> usize
    ensures { result ≡ steps.count places.now }
{
    let mut n = 0;
    for x in places {
        if x.is_some() {
            n += 1;
        }
    }
    n
}
