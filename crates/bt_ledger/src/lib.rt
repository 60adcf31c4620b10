//! Every open transaction, from its admission until its last item is answered.
//!
//! A transaction is out while its parts are derived, and open once they were given. The ledger keeps the trees of its
//! parts, which of its items can be answered, and for each hold the chain of what waits in it. It asks for memory once,
//! when it is made.
#![tactic(auto)]

pub mod items;
pub mod ledger;
pub mod open;
pub mod reason;
pub mod slot;
pub mod tally;
