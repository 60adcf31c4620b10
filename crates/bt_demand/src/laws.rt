//! Laws of demands, each as the contract of a call that does nothing.
ghost use Rattle.std.specs.Prelude.{◌≡◌, ℕ, ◌<◌, ◌≤◌, true, false, Some};
ghost use Rattle.bt_demand.specs.Find.{begun};
ghost use Rattle.bt_demand.specs.Flushing.{Late, Moves, Still};
ghost use Rattle.bt_demand.specs.Holding.{is_open, waiting};
ghost use Rattle.bt_demand.specs.Next.{todo};
ghost use Rattle.bt_demand.specs.Outcomes.{outcome};
ghost use Rattle.bt_demand.specs.Recorded.{Agree, Grows, recorded, untried, with_record};
ghost use Rattle.bt_demand.specs.Steps.{settle, wait, release};
ghost use Rattle.bt_demand.specs.Tree.{Tree};
ghost use Rattle.bt_demand.specs.WellFormed.{leaves, sinks, nodes, IsFlat, Rises};
ghost use Rattle.bt_demand.specs.declared.demand.State.{State};
ghost use Rattle.bt_demand.specs.declared.todo.Todo.TheVariants as Todo;

/// A law: of a demand whose leaves have the states of their records, what is met or lost by its states is so by its
/// records, once no hold waits; a leaf that is next has no record; and settling a leaf by its record keeps the two alike.
/// The call does nothing.
pub fn records_decide()
    ensures settled { (look : ℕ → State) (t : Tree) → Agree look t → Grows (outcome t) (outcome (recorded look t)) }
    ensures next { (look : ℕ → State) (leaf sink : ℕ) (t : Tree) → Agree look t → todo t ≡ Some (Todo.Put leaf sink) → look leaf ≡ State.Untried }
    ensures kept { (look : ℕ → State) (leaf : ℕ) (state : State) (t : Tree) → look leaf ≡ State.Untried → Agree look t → Agree (with_record look leaf state) (settle leaf state t) }
{}

/// A law: one pass over the holds, in rising number, empties all of them. Where nothing can begin in a demand whose holds
/// rise and don't nest, each hold that can still begin to wait while those from n on are released has a number above n;
/// steps that release no hold below n keep that so; and then the next hold to wait in has a number above n. The call does
/// nothing.
pub fn one_pass_empties()
    ensures still { (n : ℕ) (t : Tree) → IsFlat t → Rises (nodes t) → Still (todo t) → Late n t }
    ensures settling { (n leaf : ℕ) (state : State) (t : Tree) → Moves n t (settle leaf state t) }
    ensures waiting { (n node : ℕ) (t : Tree) → Moves n t (wait node t) }
    ensures releasing { (n node : ℕ) (t : Tree) → n ≤ node → Moves n t (release node t) }
    ensures stays { (n : ℕ) (t u : Tree) → Moves n t u → Late n t → Late n u }
    ensures later { (n node : ℕ) (t : Tree) → Late n t → todo t ≡ Some (Todo.Wait node) → n < node }
{}

/// A law: what every step keeps. The demand is the same but for states and stages, so that its leaves, sinks and holds
/// stand as before, and what has begun stays begun. `Moves` speaks of any number of steps, and `one_pass_empties` says
/// that each step is one. The call does nothing.
pub fn steps_keep_the_demand()
    ensures demand { (n : ℕ) (t u : Tree) → Moves n t u → untried u ≡ untried t }
    ensures leaves { (n : ℕ) (t u : Tree) → Moves n t u → leaves u ≡ leaves t }
    ensures sinks { (n : ℕ) (t u : Tree) → Moves n t u → sinks u ≡ sinks t }
    ensures nodes { (n : ℕ) (t u : Tree) → Moves n t u → nodes u ≡ nodes t }
    ensures flat { (n : ℕ) (t u : Tree) → Moves n t u → IsFlat t → IsFlat u }
    ensures begun { (n : ℕ) (t u : Tree) → Moves n t u → begun t ≡ true → begun u ≡ true }
{}

/// A law: a demand in which nothing can begin and no hold waits is settled. The call does nothing.
pub fn still_is_settled()
    ensures { (t : Tree) → Still (todo t) → waiting t ≡ 0 → is_open (outcome t) ≡ false }
{}
