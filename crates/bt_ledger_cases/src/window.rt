//! A window of one transaction.
ghost use Rattle.std.specs.Prelude.{◌≡◌, []};

use bt_chains::Pool;
use bt_demand::routes::Routes;
use bt_ledger::ledger::Ledger;
use bt_ports::NoMemory;
use bt_ports::sequence::Sequence;
use std::alloc::{AllocError, Global};

// Whether a second transaction is admitted before the first is closed, and whether one is admitted after it.
fn admitted(ledger: &mut Ledger, routes: Routes) -> &'static str
    requires none { routes.counts.list ≡ [] }
    requires parts { routes.parts.list ≡ [] }
{
    let slot = match ledger.admit(1, 0, 0) {
        Some(slot) => slot,
        None => return "no slot",
    };
    match ledger.admit(2, 0, 0) {
        Some(_) => return "a second slot in a window of one",
        None => {}
    }
    ledger.give(slot, routes);
    let _closed = ledger.close(slot);
    match ledger.admit(2, 0, 0) {
        Some(_) => "one slot, none before it is closed, and one after it",
        None => "no slot after the close",
    }
}

/// What becomes of a second transaction.
pub fn told(alloc: Global) -> Result<String, NoMemory> {
    let pool = Pool::make(alloc, 64, 0)?;
    let holds = Sequence::new(alloc);
    let routes = Routes::make(alloc, 0)?;
    let mut ledger = Ledger::make(alloc, 1, pool, &holds)?;
    Ok(String::from_str(alloc, admitted(&mut ledger, routes))?)
}
