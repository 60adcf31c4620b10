//! What is next for a demand.
ghost use Rattle.std.specs.Prelude.{◌≡◌};
ghost use Rattle.bt_demand.specs.Next.{todo, todo_of_all, todo_of_first, both, starts, outcome_after};
ghost use Rattle.bt_demand.specs.Outcomes.{met, lost, is_met, is_lost, outcome};
ghost use Rattle.bt_demand.specs.Startable.{startable, first_to_start};
ghost use Rattle.bt_demand.specs.View.{tree, trees};

use crate::demand::{Demand, Demands, Stage, State};

/// The next thing to do for a demand.
#[derive(Clone, Copy, Debug, PartialEq, Eq)]
pub enum Todo {
    /// The record of this leaf is put to this sink.
    Put { leaf: u32, sink: u32 },
    /// This hold begins to wait.
    Wait { node: u32 },
    /// Nothing: the demand is settled.
    Settled { met: bool },
}

impl Demand {
    /// The next thing to do, the leftmost first. It is None exactly where all that may start waits in holds.
    ///
    /// Every child of an All is tried. A child of a First is tried where all before it are lost. It takes no memory.
    pub fn todo(&self) -> Option<Todo>
        ensures next { result ≡ todo (tree self.now) }
        ensures first { result ≡ first_to_start (startable (tree self.now)) (outcome (tree self.now)) }
        ensures met { is_met (outcome_after result) ≡ met (tree self.now) }
        ensures lost { is_lost (outcome_after result) ≡ lost (tree self.now) }
    {
        self.next()
    }

    #[cycle(todo)]
    fn next(&self) -> Option<Todo>
        ensures { result ≡ todo (tree self.now) }
    {
        match self {
            Demand::Leaf {
                leaf,
                sink,
                state,
                ..
            } => match state {
                State::Untried => Some(Todo::Put {
                    leaf: *leaf,
                    sink: *sink,
                }),
                State::Good => Some(Todo::Settled { met: true }),
                State::Bad => Some(Todo::Settled { met: false }),
            },
            Demand::Drop => Some(Todo::Settled { met: true }),
            Demand::Reject(_) => Some(Todo::Settled { met: false }),
            Demand::All(children) => children.todo_of_all(),
            Demand::First(children) => children.todo_of_first(),
            Demand::Hold {
                node,
                child,
                stage,
                ..
            } => match stage {
                Stage::Untried => Some(Todo::Wait { node: *node }),
                Stage::Waiting => None,
                Stage::Released => child.next(),
            },
        }
    }
}

impl Demands {
    // Each is tried.
    #[cycle(todo)]
    fn todo_of_all(&self) -> Option<Todo>
        ensures { result ≡ todo_of_all (trees self.now.list.items) }
    {
        let mut sum = Some(Todo::Settled { met: true });
        for d in self.list.iter() {
            let next = d.next();
            if starts(next) {
                return next;
            }
            sum = both(sum, next);
        }
        sum
    }

    // Each is tried where all before it are lost.
    #[cycle(todo)]
    fn todo_of_first(&self) -> Option<Todo>
        ensures { result ≡ todo_of_first (trees self.now.list.items) }
    {
        for d in self.list.iter() {
            match d.next() {
                Some(Todo::Settled { met: false }) => {}
                other => return other,
            }
        }
        Some(Todo::Settled { met: false })
    }
}

// Whether it is a leaf to put or a hold to wait in.
fn starts(next: Option<Todo>) -> bool
    ensures { result ≡ starts next }
{
    match next {
        Some(Todo::Put { .. }) => true,
        Some(Todo::Wait { .. }) => true,
        Some(Todo::Settled { .. }) => false,
        None => false,
    }
}

// What is next for two of which each is tried.
fn both(a: Option<Todo>, b: Option<Todo>) -> Option<Todo>
    ensures { result ≡ both a b }
{
    match a {
        Some(Todo::Settled { met }) => match b {
            Some(Todo::Settled { met: other }) => Some(Todo::Settled { met: met && other }),
            _ => b,
        },
        Some(_) => a,
        None => match b {
            Some(Todo::Settled { .. }) => None,
            _ => b,
        },
    }
}
