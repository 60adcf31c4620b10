//! What is left to do for each item of a transaction, and the line of the items of which only the answer is left.
//!
//! None of the calls takes memory. A part is settled in time linear in the number of its items, where the items in the
//! line are answered before the next part is settled; else an item is put into its place from the line's first on.
ghost use Rattle.std.specs.Prelude.{◌≡◌, ◌≢◌, ℕ, ◌+◌, ◌-◌, ◌<◌, ◌≤◌, ◌^◌, length, [], set, get_or, Option, Some, None, cond, eqb, max, replicate};
ghost use Rattle.std.specs.Vec.{vec_capacity};
ghost use Rattle.bt_demand.specs.Holding.{is_open};
ghost use Rattle.bt_demand.specs.Outcomes.{outcome, lost};
ghost use Rattle.bt_demand.specs.Parts.{parts_of};
ghost use Rattle.bt_demand.specs.Reasons.{lesser};
ghost use Rattle.bt_demand.specs.View.{tree};
ghost use Rattle.bt_ledger.specs.Counted.{lefts, nexts, losses, lowered, raised, noted, counted_of, Ready, Waits, WaitsFrom, Lined, fresh_count};
ghost use Rattle.bt_ledger.specs.Due.{times, Below, AllBelow, AllRise};
ghost use Rattle.bt_ledger.specs.Verdicts.{lost_from};

use bt_demand::demand::Demand;
use bt_demand::outcome::Outcome;
use bt_demand::routes::{Count, Routed};

/// The first and the last item of a line. Where no item is in it, the first is how many items there are.
#[derive(Clone, Copy, Debug, PartialEq, Eq)]
pub struct Line {
    pub first: u64,
    pub last: u64,
}

/// A count for each item, of which only the answer is left, in room that is there.
pub fn fill(counts: &mut Vec<Count>, items: u64)
    requires none { counts.old.items ≡ [] }
    requires room { items ≤ vec_capacity counts.old }
    ensures { counts.new.items ≡ replicate items fresh_count }
{
    for i in 0..items {
        counts.push_reserved(Count {
            left: 1,
            lost: None,
            next: 0,
        });
    }
}

/// Counts each part that isn't settled for its items, and notes each lost one.
pub fn count_parts(parts: &Vec<Routed>, counts: &mut Vec<Count>)
    requires few { length parts.now.items < 2 ^ 32 }
    requires below { AllBelow (length counts.old.items) (parts_of parts.now.items) }
    requires rising { AllRise (parts_of parts.now.items) }
    requires small { (i : ℕ) → get_or (lefts counts.old.items) i 0 ≤ 1 }
    requires none { (i : ℕ) → get_or (losses counts.old.items) i None ≡ None }
    ensures lefts { lefts counts.new.items ≡ counted_of (parts_of parts.now.items) (lefts counts.old.items) }
    ensures lost { (i : ℕ) → get_or (losses counts.new.items) i None ≡ lost_from i 0 (parts_of parts.now.items) }
{
    for i in 0..parts.len() {
        count_part(&parts[i], i as u32, counts);
    }
}

// One more part, of that number.
fn count_part(routed: &Routed, part: u32, counts: &mut Vec<Count>)
    requires below { Below (length counts.old.items) routed.now.from }
    requires room { (i : ℕ) → get_or (lefts counts.old.items) i 0 + times i routed.now.from < 2 ^ 64 }
    ensures lefts { lefts counts.new.items ≡ cond (is_open (outcome (tree routed.now.demand))) (raised routed.now.from (lefts counts.old.items)) (lefts counts.old.items) }
    ensures losses { losses counts.new.items ≡ cond (lost (tree routed.now.demand)) (noted part routed.now.from (losses counts.old.items)) (losses counts.old.items) }
{
    match routed.demand.outcome() {
        Outcome::Open => count_up(routed.from.as_slice(), counts),
        Outcome::Met => {}
        Outcome::Lost => note_loss(routed.from.as_slice(), part, counts),
    }
}

// More is left for these items.
fn count_up(from: &[u64], counts: &mut Vec<Count>)
    requires below { Below (length counts.old.items) from.now }
    requires room { (i : ℕ) → get_or (lefts counts.old.items) i 0 + times i from.now < 2 ^ 64 }
    ensures lefts { lefts counts.new.items ≡ raised from.now (lefts counts.old.items) }
    ensures losses { losses counts.new.items ≡ losses counts.old.items }
{
    for item in from {
        let count = counts[*item as usize];
        counts[*item as usize] = Count {
            left: count.left + 1,
            ..count
        };
    }
}

// A part of that number, from these items, was lost.
fn note_loss(from: &[u64], part: u32, counts: &mut Vec<Count>)
    requires { Below (length counts.old.items) from.now }
    ensures lefts { lefts counts.new.items ≡ lefts counts.old.items }
    ensures nexts { nexts counts.new.items ≡ nexts counts.old.items }
    ensures losses { losses counts.new.items ≡ noted part from.now (losses counts.old.items) }
{
    for item in from {
        let count = counts[*item as usize];
        counts[*item as usize] = Count {
            lost: Some(lesser(count.lost, part)),
            ..count
        };
    }
}

fn lesser(lost: Option<u32>, part: u32) -> u32
    ensures { Some result ≡ lesser lost (Some part) }
{
    match lost {
        None => part,
        Some(least) => least.min(part),
    }
}

/// The line of the items of which only the answer is left.
pub fn line_up(counts: &mut Vec<Count>) -> Line
    ensures lefts { lefts counts.new.items ≡ lefts counts.old.items }
    ensures losses { losses counts.new.items ≡ losses counts.old.items }
    ensures line { Lined (Waits (lefts counts.new.items)) (nexts counts.new.items) result.first result.last }
{
    let mut item = counts.len() as u64;
    let mut line = Line {
        first: item,
        last: 0,
    };
    while item > 0 {
        item -= 1;
        line_item(counts, &mut line, item);
    }
    line
}

// Puts an item before the line of the later ones, where only its answer is left.
fn line_item(counts: &mut Vec<Count>, line: &mut Line, item: u64)
    requires within { item < length counts.old.items }
    requires line { Lined (WaitsFrom (item + 1) (lefts counts.old.items)) (nexts counts.old.items) line.old.first line.old.last }
    ensures lefts { lefts counts.new.items ≡ lefts counts.old.items }
    ensures losses { losses counts.new.items ≡ losses counts.old.items }
    ensures line { Lined (WaitsFrom item (lefts counts.new.items)) (nexts counts.new.items) line.new.first line.new.last }
{
    if counts[item as usize].left == 1 {
        push_front(counts, line, item);
    }
}

// Puts an item before all others of the line.
fn push_front(counts: &mut Vec<Count>, line: &mut Line, item: u64)
    requires { item < length counts.old.items }
    ensures lefts { lefts counts.new.items ≡ lefts counts.old.items }
    ensures losses { losses counts.new.items ≡ losses counts.old.items }
    ensures nexts { nexts counts.new.items ≡ set (nexts counts.old.items) item line.old.first }
    ensures first { line.new.first ≡ item }
    ensures last { line.new.last ≡ cond (eqb line.old.first (length counts.old.items)) item line.old.last }
{
    let count = counts[item as usize];
    counts[item as usize] = Count {
        next: line.first,
        ..count
    };
    *line = Line {
        first: item,
        last: last_with(*line, counts.len() as u64, item),
    };
}

// The last of a line of so many items with one more before it.
fn last_with(line: Line, items: u64, item: u64) -> u64
    ensures { result ≡ cond (eqb line.first items) item line.last }
{
    if line.first == items { item } else { line.last }
}

/// A part was settled: less is left for each of its items, and a loss is noted.
pub fn settle_part(routed: &Routed, part: u32, counts: &mut Vec<Count>, line: &mut Line)
    requires ready { Ready routed.now.from (lefts counts.old.items) }
    requires line { Lined (Waits (lefts counts.old.items)) (nexts counts.old.items) line.old.first line.old.last }
    ensures lefts { lefts counts.new.items ≡ lowered routed.now.from (lefts counts.old.items) }
    ensures losses { losses counts.new.items ≡ cond (lost (tree routed.now.demand)) (noted part routed.now.from (losses counts.old.items)) (losses counts.old.items) }
    ensures line { Lined (Waits (lefts counts.new.items)) (nexts counts.new.items) line.new.first line.new.last }
{
    count_down(routed.from.as_slice(), counts, line);
    if is_lost(&routed.demand) {
        note_loss(routed.from.as_slice(), part, counts);
    }
}

fn is_lost(demand: &Demand) -> bool
    ensures { result ≡ lost (tree demand.now) }
{
    match demand.outcome() {
        Outcome::Open => false,
        Outcome::Met => false,
        Outcome::Lost => true,
    }
}

fn count_down(from: &[u64], counts: &mut Vec<Count>, line: &mut Line)
    requires ready { Ready from.now (lefts counts.old.items) }
    requires line { Lined (Waits (lefts counts.old.items)) (nexts counts.old.items) line.old.first line.old.last }
    ensures lefts { lefts counts.new.items ≡ lowered from.now (lefts counts.old.items) }
    ensures losses { losses counts.new.items ≡ losses counts.old.items }
    ensures line { Lined (Waits (lefts counts.new.items)) (nexts counts.new.items) line.new.first line.new.last }
{
    for item in from {
        lower(counts, line, *item);
    }
}

// One part less is left for the item.
fn lower(counts: &mut Vec<Count>, line: &mut Line, item: u64)
    requires within { item < length counts.old.items }
    requires ready { 2 ≤ get_or (lefts counts.old.items) item 0 }
    requires line { Lined (Waits (lefts counts.old.items)) (nexts counts.old.items) line.old.first line.old.last }
    ensures lefts { lefts counts.new.items ≡ set (lefts counts.old.items) item (get_or (lefts counts.old.items) item 0 - 1) }
    ensures losses { losses counts.new.items ≡ losses counts.old.items }
    ensures line { Lined (Waits (lefts counts.new.items)) (nexts counts.new.items) line.new.first line.new.last }
{
    link(counts, line, item);
    let count = counts[item as usize];
    counts[item as usize] = Count {
        left: count.left - 1,
        ..count
    };
}

// Leads the line through the item, where it has one part left alone.
fn link(counts: &mut Vec<Count>, line: &mut Line, item: u64)
    requires within { item < length counts.old.items }
    requires ready { 2 ≤ get_or (lefts counts.old.items) item 0 }
    requires line { Lined (Waits (lefts counts.old.items)) (nexts counts.old.items) line.old.first line.old.last }
    ensures lefts { lefts counts.new.items ≡ lefts counts.old.items }
    ensures losses { losses counts.new.items ≡ losses counts.old.items }
    ensures line { Lined (Waits (set (lefts counts.old.items) item (get_or (lefts counts.old.items) item 0 - 1))) (nexts counts.new.items) line.new.first line.new.last }
{
    if counts[item as usize].left > 2 {
        return;
    }
    if item < line.first {
        push_front(counts, line, item);
    } else {
        let before = before(counts, *line, item);
        push_behind(counts, before, item);
        line.last = line.last.max(item);
    }
}

// Puts an item between another one and the one that it leads to.
fn push_behind(counts: &mut Vec<Count>, before: u64, item: u64)
    requires before { before < length counts.old.items }
    requires item { item < length counts.old.items }
    ensures lefts { lefts counts.new.items ≡ lefts counts.old.items }
    ensures losses { losses counts.new.items ≡ losses counts.old.items }
    ensures nexts { nexts counts.new.items ≡ set (set (nexts counts.old.items) item (get_or (nexts counts.old.items) before 0)) before item }
{
    let next = counts[before as usize].next;
    let count = counts[item as usize];
    counts[item as usize] = Count { next, ..count };
    let count = counts[before as usize];
    counts[before as usize] = Count {
        next: item,
        ..count
    };
}

// The greatest item of the line below this one.
fn before(counts: &Vec<Count>, line: Line, item: u64) -> u64
    requires within { item < length counts.now.items }
    requires out { get_or (lefts counts.now.items) item 0 ≢ 1 }
    requires first { line.first ≤ item }
    requires line { Lined (Waits (lefts counts.now.items)) (nexts counts.now.items) line.first line.last }
    ensures waits { Waits (lefts counts.now.items) result }
    ensures below { result < item }
    ensures next { item < get_or (nexts counts.now.items) result 0 }
{
    if line.last < item {
        return line.last;
    }
    let mut at = line.first;
    while counts[at as usize].next < item {
        at = counts[at as usize].next;
    }
    at
}

/// The first of the line was answered.
pub fn answer_first(counts: &mut Vec<Count>, line: &mut Line)
    requires found { line.old.first < length counts.old.items }
    requires line { Lined (Waits (lefts counts.old.items)) (nexts counts.old.items) line.old.first line.old.last }
    ensures lefts { lefts counts.new.items ≡ set (lefts counts.old.items) line.old.first 0 }
    ensures losses { losses counts.new.items ≡ losses counts.old.items }
    ensures line { Lined (Waits (lefts counts.new.items)) (nexts counts.new.items) line.new.first line.new.last }
{
    let item = line.first;
    let count = counts[item as usize];
    counts[item as usize] = Count { left: 0, ..count };
    line.first = count.next;
}
