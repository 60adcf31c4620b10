//! What stands in a demand. None of the calls takes memory.
ghost use Rattle.std.specs.Prelude.{◌≡◌, min, option_map};
ghost use Rattle.bt_demand.specs.Find.{bytes_of, bytes_in, below, below_each, leaf_below, begun, some_begun};
ghost use Rattle.bt_demand.specs.Holds.{holds, holds_in};
ghost use Rattle.bt_demand.specs.Next.{todo};
ghost use Rattle.bt_demand.specs.Reasons.{why, why_of_first_lost, why_of_last, refused_leaves, least, least_refused, least_refused_in, lesser};
ghost use Rattle.bt_demand.specs.View.{tree, trees};

use crate::demand::{Demand, Demands, Stage, State};
use crate::outcome::Outcome;
use crate::todo::Todo;

impl Demand {
    /// The bytes of the first leaf of that number, and None exactly where there is none.
    #[cycle(bytes)]
    pub fn bytes_of(&self, number: u32) -> Option<&[u8]>
        ensures { option_map (λ b. b.now) result ≡ bytes_of number (tree self.now) }
    {
        match self {
            Demand::Leaf { leaf, bytes, .. } => {
                if *leaf == number {
                    Some(bytes.as_slice())
                } else {
                    None
                }
            }
            Demand::Drop => None,
            Demand::Reject(_) => None,
            Demand::All(children) => children.bytes_in(number),
            Demand::First(children) => children.bytes_in(number),
            Demand::Hold { child, .. } => child.bytes_of(number),
        }
    }

    /// The child of the first hold of that number, and None exactly where there is none.
    #[cycle(below)]
    pub fn below(&self, number: u32) -> Option<&Demand>
        ensures { option_map (λ d. tree d.now) result ≡ below number (tree self.now) }
    {
        match self {
            Demand::Leaf { .. } => None,
            Demand::Drop => None,
            Demand::Reject(_) => None,
            Demand::All(children) => children.below_each(number),
            Demand::First(children) => children.below_each(number),
            Demand::Hold { node, child, .. } => {
                if *node == number {
                    Some(child)
                } else {
                    child.below(number)
                }
            }
        }
    }

    /// What is next for the child of the first hold of that number, and None exactly where there is no such hold.
    pub fn todo_below(&self, number: u32) -> Option<Option<Todo>>
        ensures { result ≡ option_map todo (below number (tree self.now)) }
    {
        match self.below(number) {
            Some(child) => Some(child.todo()),
            None => None,
        }
    }

    /// Whether the first hold of the number `node` has a leaf of the number `leaf` below it.
    pub fn leaf_below(&self, node: u32, leaf: u32) -> bool
        ensures { result ≡ leaf_below node leaf (tree self.now) }
    {
        match self.below(node) {
            Some(child) => child.bytes_of(leaf).is_some(),
            None => false,
        }
    }

    /// Whether some leaf was settled, or some hold was reached.
    #[cycle(begun)]
    pub fn begun(&self) -> bool
        ensures { result ≡ begun (tree self.now) }
    {
        match self {
            Demand::Leaf { state, .. } => match state {
                State::Untried => false,
                _ => true,
            },
            Demand::Drop => false,
            Demand::Reject(_) => false,
            Demand::All(children) => children.some_begun(),
            Demand::First(children) => children.some_begun(),
            Demand::Hold { child, stage, .. } => match stage {
                Stage::Untried => child.begun(),
                _ => true,
            },
        }
    }

    /// How many holds the demand has, whatever their stages: their number, or 2^32 - 1 where there are more.
    #[cycle(holds)]
    pub fn holds(&self) -> u32
        ensures { result ≡ min (holds (tree self.now)) 4294967295 }
    {
        match self {
            Demand::Leaf { .. } => 0,
            Demand::Drop => 0,
            Demand::Reject(_) => 0,
            Demand::All(children) => children.holds_in(),
            Demand::First(children) => children.holds_in(),
            Demand::Hold { child, .. } => child.holds().saturating_add(1),
        }
    }

    /// The least number of a leaf whose record was refused, and None exactly where there is none.
    pub fn least_refused(&self) -> Option<u32>
        ensures { result ≡ least (refused_leaves (tree self.now)) }
    {
        self.refused()
    }

    #[cycle(refused)]
    fn refused(&self) -> Option<u32>
        ensures { result ≡ least_refused (tree self.now) }
    {
        match self {
            Demand::Leaf { leaf, state, .. } => match state {
                State::Bad => Some(*leaf),
                _ => None,
            },
            Demand::Drop => None,
            Demand::Reject(_) => None,
            Demand::All(children) => children.refused_in(),
            Demand::First(children) => children.refused_in(),
            Demand::Hold { child, .. } => child.refused(),
        }
    }

    /// The text of the reject that decides, if one does: through an All that of the first lost child, through a
    /// First that of the last child, and through a hold that of its child.
    #[cycle(why)]
    pub fn why(&self) -> Option<&str>
        ensures { option_map (λ s. s.now) result ≡ why (tree self.now) }
    {
        match self {
            Demand::Leaf { .. } => None,
            Demand::Drop => None,
            Demand::Reject(text) => Some(text.as_str()),
            Demand::All(children) => children.why_of_first_lost(),
            Demand::First(children) => children.why_of_last(),
            Demand::Hold { child, .. } => child.why(),
        }
    }
}

impl Demands {
    #[cycle(bytes)]
    fn bytes_in(&self, number: u32) -> Option<&[u8]>
        ensures { option_map (λ b. b.now) result ≡ bytes_in number (trees self.now.list.items) }
    {
        for d in self.list.iter() {
            if let Some(bytes) = d.bytes_of(number) {
                return Some(bytes);
            }
        }
        None
    }

    #[cycle(below)]
    fn below_each(&self, number: u32) -> Option<&Demand>
        ensures { option_map (λ d. tree d.now) result ≡ below_each number (trees self.now.list.items) }
    {
        for d in self.list.iter() {
            if let Some(child) = d.below(number) {
                return Some(child);
            }
        }
        None
    }

    #[cycle(begun)]
    fn some_begun(&self) -> bool
        ensures { result ≡ some_begun (trees self.now.list.items) }
    {
        for d in self.list.iter() {
            if d.begun() {
                return true;
            }
        }
        false
    }

    #[cycle(holds)]
    fn holds_in(&self) -> u32
        ensures { result ≡ min (holds_in (trees self.now.list.items)) 4294967295 }
    {
        let mut sum: u32 = 0;
        for d in self.list.iter() {
            sum = sum.saturating_add(d.holds());
        }
        sum
    }

    #[cycle(refused)]
    fn refused_in(&self) -> Option<u32>
        ensures { result ≡ least_refused_in (trees self.now.list.items) }
    {
        let mut sum = None;
        for d in self.list.iter() {
            sum = lesser(sum, d.refused());
        }
        sum
    }

    #[cycle(why)]
    fn why_of_first_lost(&self) -> Option<&str>
        ensures { option_map (λ s. s.now) result ≡ why_of_first_lost (trees self.now.list.items) }
    {
        for d in self.list.iter() {
            match d.outcome() {
                Outcome::Lost => return d.why(),
                _ => {}
            }
        }
        None
    }

    #[cycle(why)]
    fn why_of_last(&self) -> Option<&str>
        ensures { option_map (λ s. s.now) result ≡ why_of_last (trees self.now.list.items) }
    {
        match self.list.last() {
            Some(d) => d.why(),
            None => None,
        }
    }
}

// The lesser of two numbers, where both are there.
fn lesser(a: Option<u32>, b: Option<u32>) -> Option<u32>
    ensures { result ≡ lesser a b }
{
    match a {
        None => b,
        Some(x) => match b {
            None => a,
            Some(y) => Some(x.min(y)),
        },
    }
}
