//! The steps of a demand, written down in place. None of them takes memory.
//!
//! Each step that was next lowers the work that is left, so that a run of steps ends. What is settled stays settled in
//! the same way, and what isn't asked stays untouched.
ghost use Rattle.std.specs.Prelude.{◌≡◌, ℕ, ◌<◌, Some};
ghost use Rattle.bt_demand.specs.Next.{todo};
ghost use Rattle.bt_demand.specs.Outcomes.{outcome};
ghost use Rattle.bt_demand.specs.Reached.{IsNext};
ghost use Rattle.bt_demand.specs.Recorded.{Grows};
ghost use Rattle.bt_demand.specs.Steps.{settle, settle_each, state_for, settles, wait, wait_each, waits, release, release_each, releases};
ghost use Rattle.bt_demand.specs.WellFormed.{leaves, nodes, Differ, Rises};
ghost use Rattle.bt_demand.specs.Work.{work, Waits};
ghost use Rattle.bt_demand.specs.declared.todo.Todo.TheVariants.{Put, Wait};
ghost use Rattle.bt_demand.specs.Untouched.{Untouched};
ghost use Rattle.bt_demand.specs.View.{tree, trees};

use crate::demand::{Demand, Demands, Stage, State};

impl Demand {
    /// Writes down what became of the record of the leaf of that number.
    ///
    /// A leaf that was settled before stays as it was.
    pub fn settle(&mut self, number: u32, accepted: bool)
        ensures tree { tree self.new ≡ settle number (state_for accepted) (tree self.old) }
        ensures falls { (sink : ℕ) → todo (tree self.old) ≡ Some (Put number sink) → work (tree self.new) < work (tree self.old) }
        ensures stays { Grows (outcome (tree self.old)) (outcome (tree self.new)) }
        ensures untouched { (sink : ℕ) → Differ (leaves (tree self.old)) → IsNext number sink (tree self.old) → Untouched (tree self.old) → Untouched (tree self.new) }
    {
        self.settle_leaf(number, accepted);
    }

    #[cycle(settle)]
    fn settle_leaf(&mut self, number: u32, accepted: bool)
        ensures { tree self.new ≡ settle number (state_for accepted) (tree self.old) }
    {
        match self {
            Demand::Leaf { leaf, state, .. } => {
                if *leaf == number {
                    *state = state.settles(accepted);
                }
            }
            Demand::Drop => {}
            Demand::Reject(_) => {}
            Demand::All(children) => children.settle_each(number, accepted),
            Demand::First(children) => children.settle_each(number, accepted),
            Demand::Hold { child, .. } => child.settle_leaf(number, accepted),
        }
    }

    /// Writes down that the hold of that number begins to wait.
    ///
    /// A hold that waits or was released stays as it was.
    pub fn wait(&mut self, number: u32)
        ensures tree { tree self.new ≡ wait number (tree self.old) }
        ensures falls { todo (tree self.old) ≡ Some (Wait number) → work (tree self.new) < work (tree self.old) }
        ensures stays { Grows (outcome (tree self.old)) (outcome (tree self.new)) }
        ensures untouched { Rises (nodes (tree self.old)) → todo (tree self.old) ≡ Some (Wait number) → Untouched (tree self.old) → Untouched (tree self.new) }
    {
        self.wait_in(number);
    }

    #[cycle(wait)]
    fn wait_in(&mut self, number: u32)
        ensures { tree self.new ≡ wait number (tree self.old) }
    {
        match self {
            Demand::Leaf { .. } => {}
            Demand::Drop => {}
            Demand::Reject(_) => {}
            Demand::All(children) => children.wait_each(number),
            Demand::First(children) => children.wait_each(number),
            Demand::Hold {
                node,
                child,
                stage,
                ..
            } => {
                child.wait_in(number);
                if *node == number {
                    *stage = stage.waits();
                }
            }
        }
    }

    /// Writes down that the hold of that number is released.
    ///
    /// A hold that doesn't wait stays as it was.
    pub fn release(&mut self, number: u32)
        ensures tree { tree self.new ≡ release number (tree self.old) }
        ensures falls { Waits number (tree self.old) → work (tree self.new) < work (tree self.old) }
        ensures stays { Grows (outcome (tree self.old)) (outcome (tree self.new)) }
        ensures untouched { Untouched (tree self.old) → Untouched (tree self.new) }
    {
        self.release_hold(number);
    }

    #[cycle(release)]
    fn release_hold(&mut self, number: u32)
        ensures { tree self.new ≡ release number (tree self.old) }
    {
        match self {
            Demand::Leaf { .. } => {}
            Demand::Drop => {}
            Demand::Reject(_) => {}
            Demand::All(children) => children.release_each(number),
            Demand::First(children) => children.release_each(number),
            Demand::Hold {
                node,
                child,
                stage,
                ..
            } => {
                child.release_hold(number);
                if *node == number {
                    *stage = stage.releases();
                }
            }
        }
    }
}

impl Demands {
    #[cycle(settle)]
    fn settle_each(&mut self, number: u32, accepted: bool)
        ensures { trees self.new.list.items ≡ settle_each number (state_for accepted) (trees self.old.list.items) }
    {
        for i in 0..self.list.len() {
            let d = &mut self.list[i];
            d.settle_leaf(number, accepted);
        }
    }

    #[cycle(wait)]
    fn wait_each(&mut self, number: u32)
        ensures { trees self.new.list.items ≡ wait_each number (trees self.old.list.items) }
    {
        for i in 0..self.list.len() {
            let d = &mut self.list[i];
            d.wait_in(number);
        }
    }

    #[cycle(release)]
    fn release_each(&mut self, number: u32)
        ensures { trees self.new.list.items ≡ release_each number (trees self.old.list.items) }
    {
        for i in 0..self.list.len() {
            let d = &mut self.list[i];
            d.release_hold(number);
        }
    }
}

impl State {
    fn settles(self, accepted: bool) -> State
        ensures { result ≡ settles (state_for accepted) self }
    {
        match self {
            State::Untried => { if accepted { State::Good } else { State::Bad } }
            State::Good => State::Good,
            State::Bad => State::Bad,
        }
    }
}

impl Stage {
    fn waits(self) -> Stage
        ensures { result ≡ waits self }
    {
        match self {
            Stage::Untried => Stage::Waiting,
            Stage::Waiting => Stage::Waiting,
            Stage::Released => Stage::Released,
        }
    }

    fn releases(self) -> Stage
        ensures { result ≡ releases self }
    {
        match self {
            Stage::Untried => Stage::Untried,
            Stage::Waiting => Stage::Released,
            Stage::Released => Stage::Released,
        }
    }
}
