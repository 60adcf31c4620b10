//! Calls that numbers choose.
ghost use Rattle.std.specs.Prelude.{◌≡◌, ◌<◌, length, vec_len, IfOk};
ghost use Rattle.bt_ledger_cases.specs.Sized.{Sized};

use crate::both::{Arrival, Sizes, advance, answer, arrive, close, release, same_whole};
use crate::numbers::Numbers;
use crate::plain::{Open, Plain};
use crate::shapes::{Part, Shape, routes};
use bt_chains::Pool;
use bt_demand::routes::{HoldPolicies, HoldPolicy};
use bt_ledger::ledger::Ledger;
use bt_ports::NoMemory;
use bt_ports::sequence::Sequence;
use std::alloc::{AllocError, Global};

/// A hold that is released at three entries, one at 150 bytes, and one after 20 units of time.
pub fn policies(alloc: Global) -> Result<HoldPolicies, NoMemory>
    ensures { IfOk result (λ r. length r.list ≡ 3) }
{
    let mut policies = Sequence::new(alloc);
    policies.push(policy(3, 0, 0))?;
    policies.push(policy(0, 150, 0))?;
    policies.push(policy(0, 0, 20))?;
    Ok(policies)
}

fn policy(count: u32, byte_size: u64, period: u64) -> HoldPolicy {
    HoldPolicy {
        count,
        byte_size,
        period,
    }
}

/// A ledger without transactions.
pub fn empty(alloc: Global, sizes: Sizes, holds: &HoldPolicies) -> Result<Ledger, NoMemory>
    requires { length holds.now.list ≡ 3 }
    ensures { IfOk result (λ l. Sized sizes.window sizes.entries l) }
{
    let pool = Pool::make(alloc, sizes.entries, 3)?;
    Ok(Ledger::make(alloc, sizes.window, pool, holds)?)
}

fn shape(numbers: &mut Numbers) -> Shape {
    match numbers.below(7) {
        0 => Shape::Leaf,
        1 => Shape::Drop,
        2 => Shape::Reject,
        3 => Shape::Held,
        4 => Shape::Tiers,
        5 => Shape::Both,
        _ => Shape::Late,
    }
}

fn part(numbers: &mut Numbers) -> Part {
    Part {
        shape: shape(numbers),
        item: numbers.below(8) as u64,
        more: numbers.below(3) as u64,
        ends: numbers.percent(10),
        size: numbers.below(100) as u64,
    }
}

fn parts(alloc: Global, numbers: &mut Numbers) -> Result<Vec<Part>, NoMemory>
    ensures { IfOk result (λ v. vec_len v < 4) }
{
    let count = numbers.below(4);
    let mut parts = Vec::new(alloc);
    for i in 0..count {
        parts.push(part(numbers))?;
    }
    Ok(parts)
}

// A transaction with up to three items and parts.
fn arrival(
    alloc: Global,
    ledger: &mut Ledger,
    plain: &mut Plain,
    sizes: Sizes,
    number: u64,
    moment: u64,
    numbers: &mut Numbers,
) -> Result<bool, NoMemory>
    requires { Sized sizes.window sizes.entries ledger.old }
    ensures { Sized sizes.window sizes.entries ledger.new }
{
    let items = numbers.below(4) as u64;
    let parts = parts(alloc, numbers)?;
    let open = Open {
        number,
        moment,
        parts: routes(alloc, parts.as_slice(), items)?.parts.into_vec(),
        answered: vec![in alloc; false; items as usize]?,
    };
    let arrival = Arrival {
        number,
        moment,
        items,
        abandoned: numbers.percent(10),
    };
    let routes = routes(alloc, parts.as_slice(), items)?;
    Ok(arrive(ledger, plain, sizes, arrival, routes, open))
}

// One call.
fn call(
    alloc: Global,
    ledger: &mut Ledger,
    plain: &mut Plain,
    sizes: Sizes,
    number: u64,
    moment: u64,
    numbers: &mut Numbers,
) -> Result<bool, NoMemory>
    requires sized { Sized sizes.window sizes.entries ledger.old }
    requires some { 0 < sizes.window }
    ensures { Sized sizes.window sizes.entries ledger.new }
{
    let slot = numbers.below(sizes.window);
    match numbers.below(100) {
        0..20 => arrival(alloc, ledger, plain, sizes, number, moment, numbers),
        20..65 => {
            let part = numbers.below(3);
            advance(ledger, plain, sizes, slot, part, numbers.percent(70))
        }
        65..80 => Ok(release(ledger, plain, sizes, numbers.below(3))),
        80..92 => Ok(answer(ledger, plain, sizes, slot)),
        _ => Ok(close(ledger, plain, sizes, slot)),
    }
}

/// Whether so many calls give the same on both ledgers.
pub fn told(
    alloc: Global,
    window: u32,
    entries: u32,
    calls: u32,
    seed: u32,
) -> Result<String, NoMemory> {
    if window == 0 {
        return Ok(String::from_str(alloc, "no window")?);
    }
    let sizes = Sizes { window, entries };
    let holds = policies(alloc)?;
    let mut ledger = empty(alloc, sizes, &holds)?;
    let copy = Vec::from_slice(alloc, holds.as_slice())?;
    let mut plain = Plain::make(alloc, window, copy)?;
    let mut numbers = Numbers { last: seed as u64 };
    for number in 0..calls {
        let moment = number as u64 / 10;
        let same = call(
            alloc,
            &mut ledger,
            &mut plain,
            sizes,
            number as u64,
            moment,
            &mut numbers,
        )?;
        if !same || !same_whole(&ledger, &plain, sizes, Some(moment)) {
            return Ok(format!(in alloc; "call {number} differs")?);
        }
    }
    Ok(format!(in alloc; "{calls} calls agree")?)
}
