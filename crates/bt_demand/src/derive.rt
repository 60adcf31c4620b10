//! What derives the parts of a transaction.
ghost use Rattle.std.specs.Prelude.{◌≡◌, ℕ, ◌<◌, ◌≤◌, ◌^◌, List, [], length, IfOk};
ghost use Rattle.bt_demand.specs.Parts.{Part, PartsFit, parts_of};
ghost use Rattle.bt_demand.specs.declared.routes.HoldPolicy.{HoldPolicy};
ghost use Rattle.bt_ports.specs.declared.parts.Txn.{Txn};

use crate::routes::{HoldPolicies, Routes};
use bt_ports::NoMemory;
use bt_ports::parts::Txn;

/// A plan, which derives for each transaction its parts and what they ask for.
pub trait Derive: Drop + Send + Sync {
    // The parts of a transaction in order: the items that each comes from, and its demand.
    ghost parts: { Self → Txn → List Part };

    // How many sinks there are.
    ghost sinks: { Self → ℕ };

    // The policies of the holds, by their numbers.
    ghost policies: { Self → List HoldPolicy };

    /// Derives the parts of the transaction, fewer than 2^32, with room for one count for each of its items.
    fn derive(&self, txn: &Txn) -> Result<Routes, NoMemory>
        ensures parts { IfOk result (λ r. parts_of r.parts.list ≡ parts self.now txn.now) }
        ensures counts { IfOk result (λ r. r.counts.list ≡ []) }
        ensures room { IfOk result (λ r. length txn.now.items.list ≤ r.counts.spare) }
        ensures few { IfOk result (λ r. length r.parts.list < 2 ^ 32) };

    /// The policies of the holds, by their numbers. It takes no memory.
    fn holds(&self) -> &HoldPolicies
        ensures { result.now.list ≡ policies self.now };

    /// How many sinks there are. It takes no memory.
    fn sink_count(&self) -> u32
        ensures { result ≡ sinks self.now };

    // Each demand is well formed, and each part comes from items of the transaction.
    ghost parts_fit: { (p : Self) (t : Txn) → PartsFit (sinks p) (length (policies p)) (length t.items.list) (parts p t) };
}
