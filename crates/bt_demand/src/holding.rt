//! The holds of a demand by their stages. None of the calls takes memory.
ghost use Rattle.std.specs.Prelude.{◌≡◌, min, option_map};
ghost use Rattle.bt_demand.specs.Holding.{active, count_holds_in, is_active, held_by, held_by_some};
ghost use Rattle.bt_demand.specs.View.{tree, trees};

use crate::demand::{Demand, Demands, Stage};

/// Whether the message ends a hold's batch, and its length in bytes.
#[derive(Clone, Copy, Debug, PartialEq, Eq)]
pub struct Held {
    pub ends: bool,
    pub size: u64,
}

impl Demand {
    /// How many holds are untried or wait: their number, or 2^32 - 1 where there are more.
    #[cycle(active)]
    pub fn active(&self) -> u32
        ensures { result ≡ min (active (tree self.now)) 4294967295 }
    {
        match self {
            Demand::Leaf { .. } => 0,
            Demand::Drop => 0,
            Demand::Reject(_) => 0,
            Demand::All(children) => children.active_in(),
            Demand::First(children) => children.active_in(),
            Demand::Hold { child, stage, .. } => match stage {
                Stage::Released => child.active(),
                _ => child.active().saturating_add(1),
            },
        }
    }

    /// What the first hold of that number says of its message, and None exactly where there is none.
    #[cycle(held)]
    pub fn held_by(&self, number: u32) -> Option<Held>
        ensures { result ≡ held_by number (tree self.now) }
    {
        match self {
            Demand::Leaf { .. } => None,
            Demand::Drop => None,
            Demand::Reject(_) => None,
            Demand::All(children) => children.held_by_some(number),
            Demand::First(children) => children.held_by_some(number),
            Demand::Hold {
                node,
                ends,
                size,
                child,
                ..
            } => {
                if *node == number {
                    Some(Held {
                        ends: *ends,
                        size: *size,
                    })
                } else {
                    child.held_by(number)
                }
            }
        }
    }
}

impl Demands {
    #[cycle(active)]
    fn active_in(&self) -> u32
        ensures { result ≡ min (count_holds_in (λ _ g. is_active g) (trees self.now.list.items)) 4294967295 }
    {
        let mut sum: u32 = 0;
        for d in self.list.iter() {
            sum = sum.saturating_add(d.active());
        }
        sum
    }

    #[cycle(held)]
    fn held_by_some(&self, number: u32) -> Option<Held>
        ensures { result ≡ held_by_some number (trees self.now.list.items) }
    {
        for d in self.list.iter() {
            if let Some(held) = d.held_by(number) {
                return Some(held);
            }
        }
        None
    }
}
