//! Whether a demand is settled, and how.
ghost use Rattle.std.specs.Prelude.{◌≡◌};
ghost use Rattle.bt_demand.specs.Outcomes.{met, lost, is_met, is_lost, outcome, outcome_of_all, outcome_of_first};
ghost use Rattle.bt_demand.specs.View.{tree, trees};

use crate::demand::{Demand, Demands, Stage, State};

/// How a demand stands.
#[derive(Clone, Copy, Debug, PartialEq, Eq)]
pub enum Outcome {
    /// Neither met nor lost.
    Open,
    Met,
    Lost,
}

impl Demand {
    /// Whether the demand is met, lost or open, by its states and stages. It takes no memory.
    pub fn outcome(&self) -> Outcome
        ensures met { is_met result ≡ met (tree self.now) }
        ensures lost { is_lost result ≡ lost (tree self.now) }
        ensures word { result ≡ outcome (tree self.now) }
    {
        self.standing()
    }

    #[cycle(outcome)]
    fn standing(&self) -> Outcome
        ensures { result ≡ outcome (tree self.now) }
    {
        match self {
            Demand::Leaf { state, .. } => match state {
                State::Untried => Outcome::Open,
                State::Good => Outcome::Met,
                State::Bad => Outcome::Lost,
            },
            Demand::Drop => Outcome::Met,
            Demand::Reject(_) => Outcome::Lost,
            Demand::All(children) => children.outcome_of_all(),
            Demand::First(children) => children.outcome_of_first(),
            Demand::Hold { child, stage, .. } => match stage {
                Stage::Released => child.standing(),
                _ => Outcome::Open,
            },
        }
    }
}

impl Demands {
    // Each is asked.
    #[cycle(outcome)]
    fn outcome_of_all(&self) -> Outcome
        ensures { result ≡ outcome_of_all (trees self.now.list.items) }
    {
        let mut sum = Outcome::Met;
        for d in self.list.iter() {
            match d.standing() {
                Outcome::Open => return Outcome::Open,
                Outcome::Met => {}
                Outcome::Lost => sum = Outcome::Lost,
            }
        }
        sum
    }

    // Each is asked where all before it are lost.
    #[cycle(outcome)]
    fn outcome_of_first(&self) -> Outcome
        ensures { result ≡ outcome_of_first (trees self.now.list.items) }
    {
        for d in self.list.iter() {
            match d.standing() {
                Outcome::Open => return Outcome::Open,
                Outcome::Met => return Outcome::Met,
                Outcome::Lost => {}
            }
        }
        Outcome::Lost
    }
}
