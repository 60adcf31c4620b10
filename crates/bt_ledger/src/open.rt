//! An open transaction: its parts, and what is left to do for each of its items.
ghost use Rattle.std.specs.Prelude.{◌≡◌, ℕ, ◌+◌, ◌-◌, ◌<◌, ◌≤◌, ◌^◌, length, [], List, set, Option, Some, None, true, false, map, replicate, eqb, ltb, cond, get_or, not, ◌&&◌, IsSome, option_map, MatchOption};
ghost use Rattle.std.specs.Vec.{vec_capacity};
ghost use Rattle.bt_demand.specs.Find.{below, bytes_of};
ghost use Rattle.bt_demand.specs.Holding.{booked_in, every_hold, held_by};
ghost use Rattle.bt_demand.specs.Holds.{holds};
ghost use Rattle.bt_demand.specs.Next.{todo};
ghost use Rattle.bt_demand.specs.Parts.{parts_of};
ghost use Rattle.bt_demand.specs.View.{tree};
ghost use Rattle.bt_ledger.specs.Open.{tree_of, from_of, with_tree};
ghost use Rattle.bt_ledger.specs.Due.{LeastDue, unanswered, AllBelow, AllSome, AllRise, AllSettled};
ghost use Rattle.bt_steps.specs.Stepped.{stepped};
ghost use Rattle.bt_ledger.specs.Verdicts.{lost_from, verdict_of, why_of, refusal, why_unless, text_or};
ghost use Rattle.bt_demand.specs.Reasons.{least, refused_leaves, why};
ghost use Rattle.bt_ports.specs.declared.parts.Verdict.TheVariants.{Refused};

use crate::items::{Line, answer_first, count_parts, fill, line_up, settle_part};
use bt_demand::demand::Demand;
use bt_demand::holding::Held;
use bt_demand::routes::{Count, Routed, Routes};
use bt_demand::todo::Todo;
use bt_ports::parts::{Cause, Verdict};
use bt_ports::sequence::Sequence;
use bt_steps::step::{Change, Step, take};
use std::marker::Model;

/// A transaction to which its routes were given.
#[derive(Drop)]
pub struct Open {
    number: u64,
    moment: u64,
    parts: Vec<Routed>,
    counts: Vec<Count>,
    // The line of the items of which only the answer is left.
    line: Line,
    // How many items aren't answered.
    unanswered: u64,
}

impl Model for Open {
    ghost use Rattle.bt_demand.specs.Parts.{parts_of};
    ghost use Rattle.bt_ledger.specs.Counted.{answered_by, Marked};
    ghost use Rattle.bt_ledger.specs.Open.{Open};
    ghost use Rattle.bt_demand.specs.TreeCode.{tree_code};
    ghost use Rattle.std.specs.Coded.{codes};

    ghost Value = { Open };

    ghost coded = { Prim.hlevel (codes, tree_code) };

    ghost view = { λ o. record { number = o.number; moment = o.moment; parts = parts_of o.parts.items; answered = answered_by o.counts.items } };

    ghost invariant = { λ o. Marked (parts_of o.parts.items) o.counts.items o.line.first o.line.last o.unanswered };
}

impl Open {
    /// The number with which it was admitted.
    pub fn number(&self) -> u64
        ensures { result ≡ self.now.number }
    {
        self.number
    }

    /// The moment with which it was admitted.
    pub fn moment(&self) -> u64
        ensures { result ≡ self.now.moment }
    {
        self.moment
    }

    /// How many parts it has.
    #[tactic(auto, using(crate::proofs::Seen::parts_length, crate::proofs::Seen::tree_seen))]
    pub fn parts(&self) -> u32
        ensures { result ≡ length self.now.parts }
    {
        self.parts.len() as u32
    }

    /// How many items aren't answered.
    pub fn unanswered(&self) -> u64
        ensures { result ≡ unanswered self.now.answered }
    {
        self.unanswered
    }

    /// The next thing to do for the part.
    #[tactic(auto, using(crate::proofs::Seen::parts_length, crate::proofs::Seen::tree_seen))]
    pub fn todo(&self, part: u32) -> Option<Todo>
        requires { part < length self.now.parts }
        ensures { result ≡ todo (tree_of self.now.parts part) }
    {
        self.parts[part as usize].demand.todo()
    }

    /// The next thing to do below a hold of the part, and None exactly where there is no such hold.
    #[tactic(auto, using(crate::proofs::Seen::parts_length, crate::proofs::Seen::tree_seen))]
    pub fn todo_below(&self, part: u32, node: u32) -> Option<Option<Todo>>
        requires { part < length self.now.parts }
        ensures { result ≡ option_map todo (below node (tree_of self.now.parts part)) }
    {
        self.parts[part as usize].demand.todo_below(node)
    }

    /// The bytes of a leaf of the part, and None exactly where there is no such leaf.
    #[tactic(auto, using(crate::proofs::Seen::parts_length, crate::proofs::Seen::tree_seen))]
    pub fn bytes_of(&self, part: u32, leaf: u32) -> Option<&[u8]>
        requires { part < length self.now.parts }
        ensures { option_map (λ b. b.now) result ≡ bytes_of leaf (tree_of self.now.parts part) }
    {
        self.parts[part as usize].demand.bytes_of(leaf)
    }

    /// What a hold of the part says of its message, and None exactly where there is no such hold.
    #[tactic(auto, using(crate::proofs::Seen::parts_length, crate::proofs::Seen::tree_seen))]
    pub fn held_by(&self, part: u32, node: u32) -> Option<Held>
        requires { part < length self.now.parts }
        ensures { result ≡ held_by node (tree_of self.now.parts part) }
    {
        self.parts[part as usize].demand.held_by(node)
    }

    /// How many holds the part has, whatever their stages.
    #[tactic(auto, using(crate::proofs::Seen::parts_length, crate::proofs::Seen::tree_seen, bt_steps::proofs::HoldLaws::every_is_holds))]
    pub fn holds(&self, part: u32) -> u32
        requires within { part < length self.now.parts }
        requires few { every_hold (tree_of self.now.parts part) ≤ 64 }
        ensures { result ≡ holds (tree_of self.now.parts part) }
    {
        self.parts[part as usize].demand.holds()
    }

    /// Takes a step of the part. Where that settles it, less is left to do for each of its items.
    pub fn step(&mut self, part: u32, step: Step) -> Change
        requires within { part < length self.old.parts }
        requires few { every_hold (tree_of self.old.parts part) ≤ 64 }
        ensures open { self.new ≡ record self.old { parts = with_tree self.old.parts part (stepped step (tree_of self.old.parts part)) } }
        ensures before { result.before ≡ booked_in (tree_of self.old.parts part) }
        ensures after { result.after ≡ booked_in (stepped step (tree_of self.old.parts part)) }
    {
        let routed = &mut self.parts[part as usize];
        let change = take(&mut routed.demand, step);
        if change.settles {
            settle_part(routed, part, &mut self.counts, &mut self.line);
        }
        change
    }

    /// The least item that isn't answered and of which all parts are settled, and None exactly where there is none.
    pub fn due(&self) -> Option<u64>
        ensures { LeastDue self.now result }
    {
        if self.line.first == self.counts.len() as u64 {
            return None;
        }
        Some(self.line.first)
    }

    /// Writes down that the least item that is due was answered.
    pub fn answered(&mut self, item: u64)
        requires { LeastDue self.old (Some item) }
        ensures { self.new ≡ record self.old { answered = set self.old.answered item true } }
    {
        answer_first(&mut self.counts, &mut self.line);
        self.unanswered -= 1;
    }

    /// The verdict on an item, and None exactly while a part from it isn't settled.
    pub fn verdict_of(&self, item: u64) -> Option<Verdict>
        requires { item < length self.now.answered }
        ensures { result ≡ verdict_of self.now item }
    {
        if self.counts[item as usize].left > 1 {
            return None;
        }
        match self.lost_from(item) {
            None => Some(Verdict::Ack),
            Some(part) => Some(Verdict::Refused(cause(&self.parts[part as usize].demand, part))),
        }
    }

    /// The text of the part that was rejected, and no text for any other verdict.
    pub fn why(&self, item: u64) -> &[u8]
        requires { item < length self.now.answered }
        ensures { result.now ≡ why_of self.now item }
    {
        match self.lost_from(item) {
            None => &[],
            Some(part) => text(&self.parts[part as usize].demand),
        }
    }

    // The least lost part from the item.
    fn lost_from(&self, item: u64) -> Option<u32>
        requires { item < length self.now.answered }
        ensures part { result ≡ lost_from item 0 self.now.parts }
        ensures within { MatchOption result (0 ≤ 0) (λ p. p < length self.now.parts) }
    {
        self.counts[item as usize].lost
    }

    /// The parts as they stand, with the room for the counts.
    pub fn into_routes(self) -> Routes
        ensures parts { parts_of result.parts.list ≡ self.parts }
        ensures room { length self.answered ≤ length result.counts.list + result.counts.spare }
        ensures settled { unanswered self.answered ≡ 0 → AllSettled self.parts }
    {
        let Open { parts, counts, .. } = self;
        Routes {
            parts: Sequence::from_vec(parts),
            counts: Sequence::from_vec(counts),
        }
    }
}

impl Open {
    /// The transaction with its parts, of whose items none is answered. It takes no memory: the counts go into the
    /// room that the routes have for them.
    pub fn make(number: u64, moment: u64, items: u64, routes: Routes) -> Open
        requires few { length routes.parts.list < 2 ^ 32 }
        requires none { routes.counts.list ≡ [] }
        requires room { items ≤ routes.counts.spare }
        requires below { AllBelow items (parts_of routes.parts.list) }
        requires some { AllSome (parts_of routes.parts.list) }
        requires rising { AllRise (parts_of routes.parts.list) }
        ensures { result ≡ record { number = number; moment = moment; parts = parts_of routes.parts.list; answered = replicate items false } }
    {
        let Routes { parts, counts } = routes;
        let parts = parts.into_vec();
        let mut counts = counts.into_vec();
        fill(&mut counts, items);
        count_parts(&parts, &mut counts);
        let line = line_up(&mut counts);
        Open {
            number,
            moment,
            parts,
            counts,
            line,
            unanswered: items,
        }
    }
}

/// Why a lost part is refused.
fn cause(demand: &Demand, part: u32) -> Cause
    ensures { Refused result ≡ refusal part (least (refused_leaves (tree demand.now))) }
{
    match demand.least_refused() {
        Some(leaf) => Cause::SinkFault { leaf, part },
        None => Cause::Rejected { part },
    }
}

/// The text of a lost part that was rejected.
fn text(demand: &Demand) -> &[u8]
    ensures { result.now ≡ why_unless (tree demand.now) (least (refused_leaves (tree demand.now))) }
{
    match demand.least_refused() {
        Some(_) => &[],
        None => why_bytes(demand),
    }
}

fn why_bytes(demand: &Demand) -> &[u8]
    ensures { result.now ≡ text_or (why (tree demand.now)) }
{
    match demand.why() {
        Some(text) => text.as_bytes(),
        None => &[],
    }
}
