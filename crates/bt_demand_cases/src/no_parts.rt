//! A plan by which no transaction has a part.
ghost use Rattle.std.specs.Prelude.{[]};

use bt_demand::derive::Derive;
use bt_demand::routes::{HoldPolicies, Routes};
use bt_ports::NoMemory;
use bt_ports::parts::Txn;
use bt_ports::sequence::Sequence;
use std::alloc::{AllocError, Global};

#[derive(Drop)]
struct NoParts {
    alloc: Global,
    policies: HoldPolicies,
}

impl Derive for NoParts {
    ghost parts = { λ p t. [] };

    ghost sinks = { λ p. 0 };

    ghost policies = { λ p. p.policies.list };

    fn derive(&self, txn: &Txn) -> Result<Routes, NoMemory> {
        Routes::make(self.alloc, txn.items.len())
    }

    fn holds(&self) -> &HoldPolicies {
        &self.policies
    }

    fn sink_count(&self) -> u32 {
        0
    }

    ghost parts_fit = { λ p t. tt };
}

/// What such a plan says.
pub fn report(alloc: Global) -> Result<String, AllocError> {
    let plan = NoParts {
        alloc,
        policies: Sequence::new(alloc),
    };
    let txn = Txn {
        number: 1,
        moment: 0,
        items: Sequence::new(alloc),
    };
    match plan.derive(&txn) {
        Ok(routes) => format!(in alloc;
            "a plan without parts: parts {}, holds {}, sinks {}\n",
            routes.parts.len(),
            plan.holds().len(),
            plan.sink_count()
        ),
        Err(_) => String::from_str(alloc, "a plan without parts: no memory\n"),
    }
}
