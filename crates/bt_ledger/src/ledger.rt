//! The table of transactions, with the trees of their parts, and the chains of what waits of them.
//!
//! `Ledger::make` takes all memory. Contracts see a list of slots, each free, out, or open with its parts and answers, and
//! a list of entries for each hold; each call is said by what it makes of them.
ghost use Rattle.std.specs.Prelude.{◌≡◌, ℕ, ◌+◌, ◌-◌, ◌<◌, ◌≤◌, ◌^◌, length, [], ◌∷◌, ◌++◌, List, set, get_or, replicate, Option, Some, None, true, false, MatchOption, IfOk, IfErr, option_map, IsTrue, IsSome};
ghost use Rattle.std.specs.Vec.{vec_capacity};
ghost use Rattle.bt_chains.specs.Places.{total_length, numbers_from};
ghost use Rattle.bt_ledger.specs.Kept.{empty_ledger, no_tally};
ghost use Rattle.bt_demand.specs.Find.{below, bytes_of};
ghost use Rattle.bt_demand.specs.Holding.{booked_in, every_hold, held_by};
ghost use Rattle.bt_demand.specs.Holds.{holds};
ghost use Rattle.bt_demand.specs.Next.{todo};
ghost use Rattle.bt_demand.specs.Parts.{parts_of};
ghost use Rattle.bt_demand.specs.Steps.{settle, wait, release, state_for};
ghost use Rattle.bt_demand.specs.declared.todo.Todo.TheVariants.{Put, Wait};
ghost use Rattle.bt_ledger.specs.Book.{Booked, IsFront};
ghost use Rattle.bt_ledger.specs.Calls.{Admitted, Released, waited, reason, reason_at, last_ends, front_moment, is_past, IsOut, Fits, TodoFits};
ghost use Rattle.bt_ledger.specs.Due.{LeastDue, unanswered, AllBelow, AllSome, AllRise, AllSettled};
ghost use Rattle.bt_ledger.specs.Ledger.{slot_at, parts_in, is_given, is_free, number_in, moment_in, items_in, answered_in, open_in, part_tree, IsPart, IsGiven, IsTaken, with_slot, with_part, chain_at, opened, booked, held, Roomy, over_slots, held_in, sizes, stepped_slot, stepped_slots};
ghost use Rattle.bt_ledger.specs.Open.{tree_of};
ghost use Rattle.bt_ledger.specs.Pooled.{chains_of};
ghost use Rattle.bt_steps.specs.Stepped.{stepped};
ghost use Rattle.bt_ledger.specs.Verdicts.{verdict_of, why_of};
ghost use Rattle.bt_ledger.specs.declared.slot.Slot.TheVariants.{Free, Out, Given};

use crate::open::Open;
use crate::reason::Reason;
use crate::slot::Slot;
use crate::tally::Tally;
use bt_chains::{Entry, Pool};
use bt_demand::holding::Held;
use bt_demand::routes::{HoldPolicies, HoldPolicy, Routes};
use bt_demand::todo::Todo;
use bt_ports::NoMemory;
use bt_ports::parts::Verdict;
use bt_steps::step::{Change, Step};
use std::alloc::{AllocError, Global};
use std::marker::Model;

/// A table of slots for transactions that are out or open, and for each hold a chain of the entries that wait in it.
///
/// A transaction has its slot from `admit` until `close` or `abandon`. A call that takes a slot, a part, a leaf or a hold
/// needs one that is there. No call but `make` takes memory.
#[derive(Drop)]
pub struct Ledger {
    slots: Vec<Slot>,
    // The numbers of the free slots, with room for all.
    vacant: Vec<u32>,
    policies: Vec<HoldPolicy>,
    pool: Pool,
    tallies: Vec<Tally>,
    booked: u32,
}

impl Model for Ledger {
    ghost use Rattle.std.specs.Vec.{vec_capacity};
    ghost use Rattle.bt_ledger.specs.Ledger.{Ledger};
    ghost use Rattle.bt_ledger.specs.Kept.{Kept};
    ghost use Rattle.bt_ledger.specs.Pooled.{ledger_of};
    ghost use Rattle.bt_ledger.specs.contracts.slot.Slot as slot;
    ghost use Rattle.std.specs.Coded.{codes};

    ghost Value = { Ledger };

    ghost coded = { Prim.hlevel (codes, slot.the_row.coded) };

    ghost view = { λ l. ledger_of l.slots.items l.policies.items l.pool };

    ghost invariant = { λ l. Kept (ledger_of l.slots.items l.policies.items l.pool) l.booked l.vacant.items l.tallies.items (vec_capacity l.vacant) };
}

impl Ledger {
    /// A table of so many free slots over an empty pool that has a chain for each hold.
    ///
    /// Without memory the pool comes back as it was.
    pub fn make(
        alloc: Global,
        window: u32,
        pool: Pool,
        holds: &HoldPolicies,
    ) -> Result<Ledger, (NoMemory, Pool)>
        requires empty { total_length pool.chains ≡ 0 }
        requires chains { length pool.chains ≡ length holds.now.list }
        ensures ok { IfOk result (λ l. l ≡ empty_ledger window holds.now.list (length pool.entries)) }
        ensures err { IfErr result (λ e. e.1 ≡ pool) }
    {
        let _places = pool.free();
        match take_room(alloc, window, holds) {
            Ok(room) => {
                let Room {
                    slots,
                    vacant,
                    policies,
                    tallies,
                } = room;
                Ok(Ledger {
                    slots,
                    vacant,
                    policies,
                    pool,
                    tallies,
                    booked: 0,
                })
            }
            Err(_) => Err((NoMemory, pool)),
        }
    }

    /// The next thing to do for the part, the leftmost first. It is None exactly where all that may start waits.
    pub fn todo(&self, slot: u32, part: u32) -> Option<Todo>
        requires { IsPart self.now slot part }
        ensures next { result ≡ todo (part_tree self.now slot part) }
        ensures known { TodoFits (length self.now.policies) result }
    {
        match &self.slots[slot as usize] {
            Slot::Given(open) => open.todo(part),
            _ => None,
        }
    }

    /// The next thing to do below that hold of the part, as `todo` gives it for the whole part.
    pub fn todo_below(&self, slot: u32, part: u32, node: u32) -> Option<Todo>
        requires part { IsPart self.now slot part }
        requires hold { IsSome (below node (part_tree self.now slot part)) }
        ensures { Some result ≡ option_map todo (below node (part_tree self.now slot part)) }
    {
        match self.next_below(slot, part, node) {
            Some(next) => next,
            None => unreachable!(),
        }
    }

    // What is next below a hold, and None exactly where it isn't there.
    fn next_below(&self, slot: u32, part: u32, node: u32) -> Option<Option<Todo>>
        requires { IsPart self.now slot part }
        ensures { result ≡ option_map todo (below node (part_tree self.now slot part)) }
    {
        match &self.slots[slot as usize] {
            Slot::Given(open) => open.todo_below(part, node),
            _ => None,
        }
    }

    /// The bytes of that leaf of the part.
    pub fn leaf_bytes(&self, slot: u32, part: u32, leaf: u32) -> &[u8]
        requires part { IsPart self.now slot part }
        requires leaf { IsSome (bytes_of leaf (part_tree self.now slot part)) }
        ensures { Some result.now ≡ bytes_of leaf (part_tree self.now slot part) }
    {
        match self.bytes_in(slot, part, leaf) {
            Some(bytes) => bytes,
            None => unreachable!(),
        }
    }

    fn bytes_in(&self, slot: u32, part: u32, leaf: u32) -> Option<&[u8]>
        requires { IsPart self.now slot part }
        ensures { option_map (λ b. b.now) result ≡ bytes_of leaf (part_tree self.now slot part) }
    {
        match &self.slots[slot as usize] {
            Slot::Given(open) => open.bytes_of(part, leaf),
            _ => None,
        }
    }

    /// Writes down what became of the record of a leaf. A leaf that was settled before stays as it was.
    ///
    /// A part that hasn't begun needs room for each of its holds.
    pub fn settle_leaf(&mut self, slot: u32, part: u32, leaf: u32, accepted: bool)
        requires part { IsPart self.old slot part }
        requires room { Roomy self.old slot part }
        ensures { self.new ≡ with_part self.old slot part (settle leaf (state_for accepted) (part_tree self.old slot part)) }
    {
        step(
            &mut self.slots,
            &mut self.booked,
            slot,
            part,
            Step::Settle { leaf, accepted },
        );
    }

    /// The hold that is next begins to wait, with an entry at the end of its chain. A free entry is always there.
    ///
    /// A part that hasn't begun needs room for each of its holds.
    pub fn hold(&mut self, slot: u32, part: u32, node: u32)
        requires part { IsPart self.old slot part }
        requires next { todo (part_tree self.old slot part) ≡ Some (Wait node) }
        requires room { Roomy self.old slot part }
        ensures { self.new ≡ waited self.old slot part node }
    {
        let Held { ends, size } = self.held(slot, part, node);
        let moment = self.moment(slot);
        step(
            &mut self.slots,
            &mut self.booked,
            slot,
            part,
            Step::Wait { node },
        );
        let tally = &mut self.tallies[node as usize];
        add(tally, size, ends);
        put(
            &mut self.pool,
            Entry {
                slot,
                part,
                node,
                size,
                moment,
            },
        );
    }

    fn held(&self, slot: u32, part: u32, node: u32) -> Held
        requires part { IsPart self.now slot part }
        requires next { todo (part_tree self.now slot part) ≡ Some (Wait node) }
        ensures { Some result ≡ held_by node (part_tree self.now slot part) }
    {
        match self.held_in(slot, part, node) {
            Some(held) => held,
            None => unreachable!(),
        }
    }

    fn held_in(&self, slot: u32, part: u32, node: u32) -> Option<Held>
        requires { IsPart self.now slot part }
        ensures { result ≡ held_by node (part_tree self.now slot part) }
    {
        match &self.slots[slot as usize] {
            Slot::Given(open) => open.held_by(part, node),
            _ => None,
        }
    }

    fn moment(&self, slot: u32) -> u64
        requires { slot < length self.now.slots }
        ensures { result ≡ moment_in (slot_at self.now slot) }
    {
        match &self.slots[slot as usize] {
            Slot::Given(open) => open.moment(),
            Slot::Out { moment, .. } => *moment,
            Slot::Free => 0,
        }
    }

    /// The reason for which a chain is to be released: Count, else Bytes, else Check, else, at an admission with that
    /// moment, Period. It is None where the chain isn't ripe.
    pub fn ripe(&self, node: u32, moment: Option<u64>) -> Option<Reason>
        requires { node < length self.now.policies }
        ensures { result ≡ reason self.now node moment }
    {
        let policy = self.policies[node as usize];
        let count = self.count(node);
        let bytes = self.bytes(node);
        let ends = self.ends(node);
        let front = front_moment(&self.pool, node);
        reason_by(policy, count, bytes, ends, front, moment)
    }

    fn count(&self, node: u32) -> u32
        requires { node < length self.now.policies }
        ensures { result ≡ length (chain_at self.now node) }
    {
        self.pool.len(node)
    }

    fn bytes(&self, node: u32) -> u128
        requires { node < length self.now.policies }
        ensures { result ≡ sizes (chain_at self.now node) }
    {
        self.tallies[node as usize].bytes
    }

    // Whether the hold of a chain's last entry ends the batch.
    fn ends(&self, node: u32) -> bool
        requires { node < length self.now.policies }
        ensures { result ≡ last_ends self.now (chain_at self.now node) }
    {
        if self.pool.len(node) == 0 {
            return false;
        }
        self.tallies[node as usize].ends
    }

    /// Takes the front entry out of a chain and releases its hold, below which the part then goes on.
    ///
    /// It gives None exactly where the chain is empty.
    pub fn release(&mut self, node: u32) -> Option<Entry>
        requires { node < length self.old.policies }
        ensures released { Released self.old node result self.new }
        ensures front { MatchOption result (chain_at self.old node ≡ []) (λ e. IsFront self.old node e) }
    {
        match self.pool.pop_front(node) {
            None => None,
            Some(entry) => {
                let tally = &mut self.tallies[node as usize];
                tally.bytes -= entry.size as u128;
                step(
                    &mut self.slots,
                    &mut self.booked,
                    entry.slot,
                    entry.part,
                    Step::Release { node },
                );
                Some(entry)
            }
        }
    }

    /// How many holds are untried or wait, in parts that have begun and aren't settled: as many entries as may still be
    /// needed at once, never more than the pool has. A caller learns from it how entries and waiting holds belong together.
    pub fn booked(&self) -> u32
        ensures exact { result ≡ booked self.now }
        ensures bound { booked self.now ≤ self.now.entries }
        ensures held { held self.now ≤ booked self.now }
        ensures book { Booked self.now }
    {
        self.booked
    }

    /// The number with which the slot was admitted.
    pub fn number(&self, slot: u32) -> u64
        requires { IsTaken self.now slot }
        ensures { result ≡ number_in (slot_at self.now slot) }
    {
        match &self.slots[slot as usize] {
            Slot::Given(open) => open.number(),
            Slot::Out { number, .. } => *number,
            Slot::Free => 0,
        }
    }

    /// Whether routes were given to the slot and it wasn't closed since.
    pub fn is_given(&self, slot: u32) -> bool
        requires { slot < length self.now.slots }
        ensures { result ≡ is_given (slot_at self.now slot) }
    {
        match &self.slots[slot as usize] {
            Slot::Given(_) => true,
            _ => false,
        }
    }

    /// How many parts were given to the slot.
    pub fn parts(&self, slot: u32) -> u32
        requires { IsGiven self.now slot }
        ensures { result ≡ length (parts_in (slot_at self.now slot)) }
    {
        match &self.slots[slot as usize] {
            Slot::Given(open) => open.parts(),
            _ => 0,
        }
    }

    /// How many holds the part has, whatever their stages.
    pub fn holds_in(&self, slot: u32, part: u32) -> u32
        requires { IsPart self.now slot part }
        ensures { result ≡ holds (part_tree self.now slot part) }
    {
        match &self.slots[slot as usize] {
            Slot::Given(open) => open.holds(part),
            _ => 0,
        }
    }

    /// The least item that isn't answered and of which all parts are settled, and None exactly where there is none.
    ///
    /// It takes constant time.
    pub fn due(&self, slot: u32) -> Option<u64>
        requires { IsGiven self.now slot }
        ensures { LeastDue (open_in (slot_at self.now slot)) result }
    {
        match &self.slots[slot as usize] {
            Slot::Given(open) => open.due(),
            _ => None,
        }
    }

    /// The verdict on an item, and None exactly while a part from it isn't settled.
    ///
    /// It is Ack where each part from the item is met. Else the least lost one decides: a sink fault with the least of its
    /// refused leaves, or a rejection where it has none.
    pub fn verdict_of(&self, slot: u32, item: u64) -> Option<Verdict>
        requires given { IsGiven self.now slot }
        requires item { item < items_in (slot_at self.now slot) }
        ensures { result ≡ verdict_of (open_in (slot_at self.now slot)) item }
    {
        match &self.slots[slot as usize] {
            Slot::Given(open) => open.verdict_of(item),
            _ => None,
        }
    }

    /// The text of the reject by which the deciding part of an item is lost, and no text for any other verdict.
    pub fn why(&self, slot: u32, item: u64) -> &[u8]
        requires given { IsGiven self.now slot }
        requires item { item < items_in (slot_at self.now slot) }
        requires verdict { IsSome (verdict_of (open_in (slot_at self.now slot)) item) }
        ensures { result.now ≡ why_of (open_in (slot_at self.now slot)) item }
    {
        match &self.slots[slot as usize] {
            Slot::Given(open) => open.why(item),
            _ => &[],
        }
    }

    /// How many items of the slot aren't answered.
    pub fn unanswered(&self, slot: u32) -> u64
        requires { IsGiven self.now slot }
        ensures { result ≡ unanswered (answered_in (slot_at self.now slot)) }
    {
        match &self.slots[slot as usize] {
            Slot::Given(open) => open.unanswered(),
            _ => 0,
        }
    }

    /// Writes down that the item that is due was answered.
    pub fn answered(&mut self, slot: u32, item: u64)
        requires given { IsGiven self.old slot }
        requires due { LeastDue (open_in (slot_at self.old slot)) (Some item) }
        ensures { self.new ≡ with_slot self.old slot (Given (record (open_in (slot_at self.old slot)) { answered = set (answered_in (slot_at self.old slot)) item true })) }
    {
        let slot = &mut self.slots[slot as usize];
        note_answer(slot, item);
    }

    /// Gives a free slot to a transaction, and None exactly where all are taken.
    pub fn admit(&mut self, number: u64, moment: u64, items: u64) -> Option<u32>
        ensures { Admitted self.old number moment items result self.new }
    {
        match self.vacant.pop() {
            None => None,
            Some(slot) => {
                self.slots[slot as usize] = Slot::Out {
                    number,
                    moment,
                    items,
                };
                Some(slot)
            }
        }
    }

    /// Gives a transaction that is out its routes, of which nothing was tried and in which no item has a count.
    ///
    /// The parts are fewer than 2^32, their demands well formed by the holds of the ledger, whatever their sinks, and each
    /// comes from items of the transaction. The room of the routes is made for its items.
    pub fn give(&mut self, slot: u32, routes: Routes)
        requires within { slot < length self.old.slots }
        requires out { IsOut (slot_at self.old slot) }
        requires fits { Fits (length self.old.policies) (items_in (slot_at self.old slot)) (parts_of routes.parts.list) }
        requires few { length routes.parts.list < 2 ^ 32 }
        requires none { routes.counts.list ≡ [] }
        requires room { items_in (slot_at self.old slot) ≤ routes.counts.spare }
        ensures { self.new ≡ with_slot self.old slot (Given (record { number = number_in (slot_at self.old slot); moment = moment_in (slot_at self.old slot); parts = parts_of routes.parts.list; answered = replicate (items_in (slot_at self.old slot)) false })) }
    {
        let slot = &mut self.slots[slot as usize];
        give_to(slot, routes);
    }

    /// Frees a slot all of whose items are answered, and gives its parts back as they stand, with the room of the routes.
    pub fn close(&mut self, slot: u32) -> Routes
        requires given { IsGiven self.old slot }
        requires answered { unanswered (answered_in (slot_at self.old slot)) ≡ 0 }
        ensures ledger { self.new ≡ with_slot self.old slot Free }
        ensures parts { parts_of result.parts.list ≡ parts_in (slot_at self.old slot) }
        ensures room { items_in (slot_at self.old slot) ≤ length result.counts.list + result.counts.spare }
    {
        self.vacant.push_reserved(slot);
        let place = &mut self.slots[slot as usize];
        let was = std::mem::replace(place, Slot::Free);
        routes_of(was)
    }

    /// Frees a slot whose transaction is out.
    pub fn abandon(&mut self, slot: u32)
        requires taken { IsTaken self.old slot }
        requires none { is_given (slot_at self.old slot) ≡ false }
        ensures { self.new ≡ with_slot self.old slot Free }
    {
        self.vacant.push_reserved(slot);
        self.slots[slot as usize] = Slot::Free;
    }

    /// How many transactions are out or open. The window is full where it is the number of slots.
    pub fn opened(&self) -> u32
        ensures exact { result ≡ opened self.now }
        ensures bound { opened self.now ≤ length self.now.slots }
    {
        self.slots.len() as u32 - self.vacant.len() as u32
    }

    /// The pool, whose chains are the ledger's.
    pub fn pool(&self) -> &Pool
        ensures entries { length result.now.entries ≡ self.now.entries }
        ensures chains { chains_of result.now ≡ self.now.chains }
    {
        &self.pool
    }
}

// What a new ledger takes memory for.
struct Room {
    slots: Vec<Slot>,
    vacant: Vec<u32>,
    policies: Vec<HoldPolicy>,
    tallies: Vec<Tally>,
}

fn take_room(alloc: Global, window: u32, holds: &HoldPolicies) -> Result<Room, AllocError>
    ensures slots { IfOk result (λ r. r.slots.items ≡ replicate window Free) }
    ensures vacant { IfOk result (λ r. r.vacant.items ≡ numbers_from window 0) }
    ensures room { IfOk result (λ r. window ≤ vec_capacity r.vacant) }
    ensures policies { IfOk result (λ r. r.policies.items ≡ holds.now.list) }
    ensures tallies { IfOk result (λ r. r.tallies.items ≡ replicate (length holds.now.list) no_tally) }
{
    let empty = Tally {
        bytes: 0,
        ends: false,
    };
    Ok(Room {
        slots: free_slots(alloc, window)?,
        vacant: numbers_below(alloc, window)?,
        policies: Vec::from_slice(alloc, holds.as_slice())?,
        tallies: vec![in alloc; empty; holds.len()]?,
    })
}

fn free_slots(alloc: Global, window: u32) -> Result<Vec<Slot>, AllocError>
    ensures { IfOk result (λ v. v.items ≡ replicate window Free) }
{
    let mut slots = Vec::new(alloc);
    for i in 0..window {
        slots.push(Slot::Free)?;
    }
    Ok(slots)
}

fn numbers_below(alloc: Global, window: u32) -> Result<Vec<u32>, AllocError>
    ensures numbers { IfOk result (λ v. v.items ≡ numbers_from window 0) }
    ensures room { IfOk result (λ v. window ≤ vec_capacity v) }
{
    let mut numbers = Vec::with_capacity(alloc, window as usize)?;
    for i in 0..window {
        numbers.push_reserved(i);
    }
    Ok(numbers)
}

// Takes a step of a part of a slot.
fn step(slots: &mut Vec<Slot>, booked: &mut u32, slot: u32, part: u32, step: Step)
    requires slot { slot < length slots.old.items }
    requires part { part < length (parts_in (get_or slots.old.items slot Free)) }
    requires few { every_hold (tree_of (parts_in (get_or slots.old.items slot Free)) part) ≤ 64 }
    requires number { booked.old ≡ over_slots booked_in slots.old.items }
    requires bound { over_slots booked_in (stepped_slots step slot part slots.old.items) < 2 ^ 32 }
    ensures slots { slots.new.items ≡ stepped_slots step slot part slots.old.items }
    ensures booked { booked.new ≡ over_slots booked_in slots.new.items }
{
    let place = &mut slots[slot as usize];
    let Change { before, after, .. } = step_slot(place, part, step);
    *booked = *booked - before + after;
}

fn step_slot(slot: &mut Slot, part: u32, step: Step) -> Change
    requires part { part < length (parts_in slot.old) }
    requires few { every_hold (tree_of (parts_in slot.old) part) ≤ 64 }
    ensures slot { slot.new ≡ stepped_slot step part slot.old }
    ensures before { result.before ≡ booked_in (tree_of (parts_in slot.old) part) }
    ensures after { result.after ≡ booked_in (stepped step (tree_of (parts_in slot.old) part)) }
{
    match slot {
        Slot::Given(open) => open.step(part, step),
        _ => Change {
            before: 0,
            after: 0,
            settles: false,
        },
    }
}

fn note_answer(slot: &mut Slot, item: u64)
    requires given { IsTrue (is_given slot.old) }
    requires due { LeastDue (open_in slot.old) (Some item) }
    ensures { slot.new ≡ Given (record (open_in slot.old) { answered = set (answered_in slot.old) item true }) }
{
    match slot {
        Slot::Given(open) => open.answered(item),
        _ => {}
    }
}

fn give_to(slot: &mut Slot, routes: Routes)
    requires out { IsOut slot.old }
    requires below { AllBelow (items_in slot.old) (parts_of routes.parts.list) }
    requires some { AllSome (parts_of routes.parts.list) }
    requires rising { AllRise (parts_of routes.parts.list) }
    requires few { length routes.parts.list < 2 ^ 32 }
    requires none { routes.counts.list ≡ [] }
    requires room { items_in slot.old ≤ routes.counts.spare }
    ensures { slot.new ≡ Given (record { number = number_in slot.old; moment = moment_in slot.old; parts = parts_of routes.parts.list; answered = replicate (items_in slot.old) false }) }
{
    let (number, moment, items) = numbers(slot);
    *slot = Slot::Given(Open::make(number, moment, items, routes));
}

fn numbers(slot: &Slot) -> (u64, u64, u64)
    requires { IsOut slot.now }
    ensures number { result.0 ≡ number_in slot.now }
    ensures moment { result.1 ≡ moment_in slot.now }
    ensures items { result.2 ≡ items_in slot.now }
{
    match slot {
        Slot::Out {
            number,
            moment,
            items,
        } => (*number, *moment, *items),
        Slot::Given(_) => (0, 0, 0),
        Slot::Free => (0, 0, 0),
    }
}

fn routes_of(slot: Slot) -> Routes
    requires { IsTrue (is_given slot) }
    ensures parts { parts_of result.parts.list ≡ parts_in slot }
    ensures room { items_in slot ≤ length result.counts.list + result.counts.spare }
    ensures settled { unanswered (answered_in slot) ≡ 0 → AllSettled (parts_in slot) }
{
    match slot {
        Slot::Given(open) => open.into_routes(),
        Slot::Out { .. } => unreachable!(),
        Slot::Free => unreachable!(),
    }
}

// One more entry stands at the end of a chain.
fn add(tally: &mut Tally, size: u64, ends: bool)
    requires { tally.old.bytes < 2 ^ 127 }
    ensures tally { tally.new ≡ record { bytes = tally.old.bytes + size; ends = ends } }
    ensures wide { size < 2 ^ 64 }
{
    tally.bytes += size as u128;
    tally.ends = ends;
}

// Puts an entry at the end of its chain, where a place is free.
fn put(pool: &mut Pool, entry: Entry)
    requires chain { entry.node < length pool.old.chains }
    requires room { held_in (chains_of pool.old) < length pool.old.entries }
    ensures chains { chains_of pool.new ≡ set (chains_of pool.old) entry.node (get_or (chains_of pool.old) entry.node [] ++ entry ∷ []) }
    ensures entries { length pool.new.entries ≡ length pool.old.entries }
{
    match pool.push_back(entry.node, entry) {
        Ok(()) => {}
        Err(_) => unreachable!(),
    }
}

fn front_moment(pool: &Pool, node: u32) -> Option<u64>
    requires { node < length pool.now.chains }
    ensures { result ≡ front_moment (get_or (chains_of pool.now) node []) }
{
    match pool.front(node) {
        Some(entry) => Some(entry.moment),
        None => None,
    }
}

// The reason of a chain of so many entries, with this sum of sizes and this moment of its front.
fn reason_by(
    policy: HoldPolicy,
    count: u32,
    bytes: u128,
    ends: bool,
    front: Option<u64>,
    moment: Option<u64>,
) -> Option<Reason>
    ensures { result ≡ reason_at policy count bytes ends front moment }
{
    if policy.count != 0 && count >= policy.count {
        return Some(Reason::Count);
    }
    if policy.byte_size != 0 && bytes >= policy.byte_size as u128 {
        return Some(Reason::Bytes);
    }
    if ends {
        return Some(Reason::Check);
    }
    if is_past(policy.period, front, moment) {
        return Some(Reason::Period);
    }
    None
}

fn is_past(period: u64, front: Option<u64>, moment: Option<u64>) -> bool
    ensures { result ≡ is_past moment period front }
{
    match moment {
        None => false,
        Some(now) => match front {
            None => false,
            Some(first) => period != 0 && now.saturating_sub(first) >= period,
        },
    }
}
