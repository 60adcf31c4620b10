//! The parts of a transaction, by a plan.
use crate::parts::{pieces, push_batches};
use crate::plan::Plan;
use bt_demand::derive::Derive;
use bt_demand::routes::{HoldPolicies, Routes};
use bt_ports::NoMemory;
use bt_ports::parts::Txn;
use bt_proc::process;

impl Derive for Plan {
    ghost use Rattle.std.specs.Prelude.{length};
    ghost use Rattle.bt_parts.specs.Parts.{parts_by};
    ghost use Rattle.bt_parts.proofs.Fits.{fit};

    ghost parts = { λ p t. parts_by p.procs p.output t.moment t.items.list };

    ghost sinks = { λ p. length p.sinks.list };

    ghost policies = { λ p. p.holds.list };

    fn derive(&self, txn: &Txn) -> Result<Routes, NoMemory> {
        let batch = pieces(self.alloc, txn.items.as_slice())?;
        let batches = process(self.alloc, &self.procs, batch, txn.moment)?;
        let mut routes = Routes::make(self.alloc, txn.items.len())?;
        push_batches(
            self.alloc,
            &self.output,
            batches,
            txn.moment,
            &mut routes.parts,
        )?;
        if routes.parts.len() > u32::MAX as usize {
            return Err(NoMemory);
        }
        Ok(routes)
    }

    fn holds(&self) -> &HoldPolicies {
        &self.holds
    }

    fn sink_count(&self) -> u32 {
        self.sinks.len() as u32
    }

    ghost parts_fit = { λ p t. fit p.procs p.output (length p.sinks.list) (length p.holds.list) t.moment t.items.list p.stands };
}
