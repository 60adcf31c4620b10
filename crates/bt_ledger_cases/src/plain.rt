//! A ledger that keeps plain lists and walks through all of them.
use bt_chains::Entry;
use bt_demand::outcome::Outcome;
use bt_demand::routes::{HoldPolicy, Routed};
use bt_demand::todo::Todo;
use bt_ledger::reason::Reason;
use bt_ports::NoMemory;
use bt_ports::parts::{Cause, Verdict};
use std::alloc::Global;

/// An open transaction.
#[derive(Drop)]
pub struct Open {
    pub number: u64,
    pub moment: u64,
    pub parts: Vec<Routed>,
    pub answered: Vec<bool>,
}

/// The transactions by slot, the entries of all holds in the order in which they came, and the policies of the holds.
#[derive(Drop)]
pub struct Plain {
    pub slots: Vec<Option<Open>>,
    pub entries: Vec<Entry>,
    pub policies: Vec<HoldPolicy>,
}

fn is_open(routed: &Routed) -> bool {
    routed.demand.outcome() == Outcome::Open
}

fn comes_from(routed: &Routed, item: u64) -> bool {
    routed.from.as_slice().iter().any(|i| *i == item)
}

impl Open {
    // Whether no part from the item is open.
    fn is_settled(&self, item: u64) -> bool {
        self.parts
            .iter()
            .all(|routed| !comes_from(routed, item) || !is_open(routed))
    }

    /// The least item that is settled and not answered.
    pub fn due(&self) -> Option<u64> {
        for (item, answered) in self.answered.iter().enumerate() {
            if !*answered && self.is_settled(item as u64) {
                return Some(item as u64);
            }
        }
        None
    }

    // The first part from the item that is lost.
    fn lost_from(&self, item: u64) -> Option<usize> {
        self.parts.iter().position(|routed| comes_from(routed, item)
            && routed.demand.outcome() == Outcome::Lost)
    }

    /// The verdict on the item, where it is settled.
    pub fn verdict_of(&self, item: u64) -> Option<Verdict> {
        if !self.is_settled(item) {
            return None;
        }
        match self.lost_from(item) {
            None => Some(Verdict::Ack),
            Some(part) => Some(Verdict::Refused(self.cause(part))),
        }
    }

    fn cause(&self, at: usize) -> Cause {
        let part = u32::try_from(at).unwrap_or(0);
        let refused = match self.parts.get(at) {
            Some(routed) => routed.demand.least_refused(),
            None => None,
        };
        match refused {
            Some(leaf) => Cause::SinkFault { leaf, part },
            None => Cause::Rejected { part },
        }
    }

    /// The text of the part by which the item is rejected.
    pub fn why(&self, item: u64) -> &[u8] {
        let lost = match self.lost_from(item) {
            Some(part) => self.parts.get(part),
            None => None,
        };
        match lost {
            Some(routed) => why_bytes(routed),
            None => &[],
        }
    }

    /// How many items aren't answered.
    pub fn unanswered(&self) -> u64 {
        self.answered.iter().filter(|answered| !**answered).count() as u64
    }
}

fn why_bytes(routed: &Routed) -> &[u8] {
    if routed.demand.least_refused().is_some() {
        return &[];
    }
    match routed.demand.why() {
        Some(text) => text.as_bytes(),
        None => &[],
    }
}

impl Plain {
    /// A ledger without transactions.
    pub fn make(alloc: Global, window: u32, policies: Vec<HoldPolicy>) -> Result<Plain, NoMemory> {
        let mut slots = Vec::new(alloc);
        for slot in 0..window {
            slots.push(None)?;
        }
        Ok(Plain {
            slots,
            entries: Vec::new(alloc),
            policies,
        })
    }

    /// The transaction in the slot.
    pub fn open(&self, slot: u32) -> Option<&Open> {
        match self.slots.get(slot as usize) {
            Some(place) => place.as_ref(),
            None => None,
        }
    }

    /// How many slots are taken.
    pub fn opened(&self) -> usize {
        self.slots.iter().filter(|place| place.is_some()).count()
    }

    /// How many parts the transaction of the slot has.
    pub fn parts(&self, slot: u32) -> usize {
        match self.open(slot) {
            Some(open) => open.parts.len(),
            None => 0,
        }
    }

    /// The part.
    pub fn part(&self, slot: u32, part: u32) -> Option<&Routed> {
        match self.open(slot) {
            Some(open) => open.parts.get(part as usize),
            None => None,
        }
    }

    /// The next thing to do for the part.
    pub fn todo(&self, slot: u32, part: u32) -> Option<Todo> {
        match self.part(slot, part) {
            Some(routed) => routed.demand.todo(),
            None => None,
        }
    }

    /// How many holds are untried or wait, in parts that have begun and are open.
    pub fn booked(&self) -> u32 {
        let mut sum: u32 = 0;
        for place in self.slots.iter() {
            if let Some(open) = place {
                for routed in open.parts.iter() {
                    if routed.demand.begun() && is_open(routed) {
                        sum = sum.saturating_add(routed.demand.active());
                    }
                }
            }
        }
        sum
    }

    /// Gives the slot to a transaction, and says whether it was free.
    pub fn admit(&mut self, slot: u32, open: Open) -> bool {
        if slot as usize >= self.slots.len() || self.slots[slot as usize].is_some() {
            return false;
        }
        self.slots[slot as usize] = Some(open);
        true
    }

    /// Frees the slot.
    pub fn close(&mut self, slot: u32) {
        if (slot as usize) < self.slots.len() {
            self.slots[slot as usize] = None;
        }
    }

    /// Writes down that the item was answered.
    pub fn answered(&mut self, slot: u32, item: u64) {
        if let Some(Some(open)) = self.slots.get_mut(slot as usize) {
            if let Some(answered) = open.answered.get_mut(item as usize) {
                *answered = true;
            }
        }
    }

    /// Writes down what became of the record of a leaf.
    pub fn settle(&mut self, slot: u32, part: u32, leaf: u32, accepted: bool) {
        if let Some(Some(open)) = self.slots.get_mut(slot as usize) {
            if let Some(routed) = open.parts.get_mut(part as usize) {
                routed.demand.settle(leaf, accepted);
            }
        }
    }

    /// The hold begins to wait.
    pub fn hold(&mut self, slot: u32, part: u32, node: u32) -> Result<(), NoMemory> {
        let mut entry = Entry {
            slot,
            part,
            node,
            size: 0,
            moment: 0,
        };
        if let Some(Some(open)) = self.slots.get_mut(slot as usize) {
            entry.moment = open.moment;
            if let Some(routed) = open.parts.get_mut(part as usize) {
                routed.demand.wait(node);
                if let Some(held) = routed.demand.held_by(node) {
                    entry.size = held.size;
                }
            }
        }
        self.entries.push(entry)?;
        Ok(())
    }

    /// The first entry of the hold leaves.
    pub fn release(&mut self, node: u32) -> Option<Entry> {
        let at = match self.entries.iter().position(|entry| entry.node == node) {
            Some(at) if at < self.entries.len() => at,
            _ => return None,
        };
        let entry = self.entries.remove(at);
        if let Some(Some(open)) = self.slots.get_mut(entry.slot as usize) {
            if let Some(routed) = open.parts.get_mut(entry.part as usize) {
                routed.demand.release(node);
            }
        }
        Some(entry)
    }

    /// The reason for which the entries of the hold are to be released.
    pub fn ripe(&self, node: u32, moment: Option<u64>) -> Option<Reason> {
        let policy = match self.policies.get(node as usize) {
            Some(policy) => *policy,
            None => return None,
        };
        let mut count: u64 = 0;
        let mut bytes: u64 = 0;
        let mut first = None;
        let mut ends = false;
        for entry in self.entries.iter().filter(|entry| entry.node == node) {
            count = count.saturating_add(1);
            bytes = bytes.saturating_add(entry.size);
            first = first.or(Some(entry.moment));
            ends = self.ends(entry.slot, entry.part, node);
        }
        let waited = match (moment, first) {
            (Some(moment), Some(first)) => moment.saturating_sub(first),
            _ => 0,
        };
        if policy.count != 0 && count >= policy.count as u64 {
            return Some(Reason::Count);
        }
        if policy.byte_size != 0 && bytes >= policy.byte_size {
            return Some(Reason::Bytes);
        }
        if ends {
            return Some(Reason::Check);
        }
        if policy.period != 0 && waited >= policy.period {
            return Some(Reason::Period);
        }
        None
    }

    fn ends(&self, slot: u32, part: u32, node: u32) -> bool {
        let held = match self.part(slot, part) {
            Some(routed) => routed.demand.held_by(node),
            None => None,
        };
        match held {
            Some(held) => held.ends,
            None => false,
        }
    }
}
