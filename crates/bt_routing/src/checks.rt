//! Checks on a message whose document is read once for several of them.
ghost use Rattle.std.specs.Prelude.{◌≡◌, IfOk};
ghost use Rattle.bt_contexts.specs.Seen.{this_seen};
ghost use Rattle.bt_meaning.specs.Contents.{this_of};
ghost use Rattle.bt_meaning.specs.Mapped.{checks};
ghost use Rattle.bt_outputs.specs.Asked as asked;
ghost use Rattle.bt_routing.specs.Blank.{blank};

use bt_contexts::This;
use bt_mappings::{Spot, asks, check, check_seen};
use bt_outputs::{Output, OutputCase};
use bt_ports::NoMemory;
use bt_ready::Ready;
use bt_value::Msg;
use std::alloc::Global;

// Whether a check passes. Where the content was not read before, it is read where the check asks for it.
fn check_with(
    alloc: Global,
    r: &Ready,
    msg: &Msg,
    this: This<'_>,
    spot: Spot,
) -> Result<bool, NoMemory>
    requires { this_seen this msg.now ≡ this_of msg.now.content }
    ensures { IfOk result (λ b. b ≡ checks r.now.mapping msg.now spot) }
{
    match this {
        This::Content => check(alloc, r, msg, spot),
        this => check_seen(alloc, r, msg, this, spot),
    }
}

/// Whether a message passes the check of a case.
pub(crate) fn passes(
    alloc: Global,
    test: &Option<Ready>,
    msg: &Msg,
    this: This<'_>,
    spot: Spot,
) -> Result<bool, NoMemory>
    requires { this_seen this msg.now ≡ this_of msg.now.content }
    ensures { IfOk result (λ b. b ≡ asked.passes test.now (blank msg.now spot)) }
{
    match test {
        None => Ok(true),
        Some(r) => check_with(alloc, r, msg, this, spot),
    }
}

/// Whether a message ends the batch of a hold.
pub(crate) fn ends(
    alloc: Global,
    test: &Option<Ready>,
    msg: &Msg,
    this: This<'_>,
    spot: Spot,
) -> Result<bool, NoMemory>
    requires { this_seen this msg.now ≡ this_of msg.now.content }
    ensures { IfOk result (λ b. b ≡ asked.ends test.now (blank msg.now spot)) }
{
    match test {
        None => Ok(false),
        Some(r) => check_with(alloc, r, msg, this, spot),
    }
}

/// Whether some case has a check that may ask for the document.
pub(crate) fn some_asks(cases: &[OutputCase<Output>]) -> bool {
    for case in cases {
        if case.check.as_ref().is_some_and(asks) {
            return true;
        }
    }
    false
}
