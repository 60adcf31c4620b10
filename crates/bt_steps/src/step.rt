//! One step of a demand, and what it changes in the counts.
ghost use Rattle.std.specs.Prelude.{◌≡◌, ℕ, ◌≤◌, ◌&&◌, not};
ghost use Rattle.bt_demand.specs.Holding.{booked_in, every_hold, is_open};
ghost use Rattle.bt_demand.specs.Outcomes.{outcome};
ghost use Rattle.bt_demand.specs.View.{tree};
ghost use Rattle.bt_steps.specs.Stepped.{stepped};

use bt_demand::demand::Demand;
use bt_demand::outcome::Outcome;

/// What happens to a demand.
#[derive(Clone, Copy, Debug, PartialEq, Eq)]
pub enum Step {
    /// The record of this leaf was accepted or refused.
    Settle { leaf: u32, accepted: bool },
    /// This hold begins to wait.
    Wait { node: u32 },
    /// This hold is released.
    Release { node: u32 },
}

/// How many holds the demand booked before and after, and whether the step settled it.
#[derive(Clone, Copy, Debug, PartialEq, Eq)]
pub struct Change {
    pub before: u32,
    pub after: u32,
    pub settles: bool,
}

/// Takes the step.
pub fn take(demand: &mut Demand, step: Step) -> Change
    requires few { every_hold (tree demand.old) ≤ 64 }
    ensures tree { tree demand.new ≡ stepped step (tree demand.old) }
    ensures before { result.before ≡ booked_in (tree demand.old) }
    ensures after { result.after ≡ booked_in (stepped step (tree demand.old)) }
    ensures settles { result.settles ≡ (is_open (outcome (tree demand.old)) && not (is_open (outcome (stepped step (tree demand.old))))) }
{
    let before = booked(demand);
    let was_open = is_open(demand);
    apply(demand, step);
    let after = booked(demand);
    let now_open = is_open(demand);
    Change {
        before,
        after,
        settles: was_open && !now_open,
    }
}

fn apply(demand: &mut Demand, step: Step)
    ensures { tree demand.new ≡ stepped step (tree demand.old) }
{
    match step {
        Step::Settle { leaf, accepted } => demand.settle(leaf, accepted),
        Step::Wait { node } => demand.wait(node),
        Step::Release { node } => demand.release(node),
    }
}

fn is_open(demand: &Demand) -> bool
    ensures { result ≡ is_open (outcome (tree demand.now)) }
{
    match demand.outcome() {
        Outcome::Open => true,
        Outcome::Met => false,
        Outcome::Lost => false,
    }
}

fn booked(demand: &Demand) -> u32
    requires { every_hold (tree demand.now) ≤ 64 }
    ensures { result ≡ booked_in (tree demand.now) }
{
    if demand.begun() && is_open(demand) {
        demand.active()
    } else {
        0
    }
}
