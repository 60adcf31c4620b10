//! Calls that numbers choose, beside a plain list that each call searches.
ghost use Rattle.std.specs.Prelude.{◌≡◌, ◌<◌, length, IfSome};

use crate::calls::entry;
use bt_chains::{Entry, Pool};
use std::alloc::{AllocError, Global};

// The place of the first row of this chain.
fn first_row(rows: &[(u32, Entry)], chain: u32) -> Option<usize>
    ensures { IfSome result (λ i. i < length rows.now) }
{
    rows.iter().position(|row| row.0 == chain)
}

// The entry of the first row of this chain.
fn plain_front(rows: &[(u32, Entry)], chain: u32) -> Option<Entry> {
    first_row(rows, chain).map(|i| rows[i].1)
}

// The next of a fixed sequence of numbers that look random.
fn next_number(number: u64) -> u64 {
    number
        .wrapping_mul(6364136223846793005)
        .wrapping_add(1442695040888963407)
}

// Whether the pool says of a chain what the rows say.
fn same(pool: &Pool, rows: &[(u32, Entry)], chain: u32, entries: u32) -> bool
    requires { chain < length pool.now.chains }
{
    let len = rows.iter().filter(|row| row.0 == chain).count();
    pool.len(chain) as usize == len
        && pool.front(chain).copied() == plain_front(rows, chain)
        && pool.free() as usize + rows.len() == entries as usize
}

/// Whether so many calls gave on a pool what they gave on a plain list.
pub fn told(
    alloc: Global,
    entries: u32,
    chains: u32,
    calls: u32,
    seed: u32,
) -> Result<String, AllocError> {
    let mut pool = match Pool::make(alloc, entries, chains) {
        Ok(pool) => pool,
        Err(_) => return String::from_str(alloc, " no memory"),
    };
    if chains == 0 {
        return String::from_str(alloc, " no chain");
    }
    let mut rows: Vec<(u32, Entry)> = Vec::new(alloc);
    let mut number = seed as u64;
    for call in 0..calls {
        number = next_number(number);
        let chain = (number >> 40) as u32 % chains;
        let agreed = if number >> 62 < 2 {
            let pushed = pool.push_back(chain, entry(call)).is_ok();
            let room = rows.len() < entries as usize;
            if room {
                rows.push((chain, entry(call)))?;
            }
            pushed == room
        } else {
            let popped = pool.pop_front(chain);
            let front = plain_front(rows.as_slice(), chain);
            if let Some(i) = first_row(rows.as_slice(), chain) {
                rows.remove(i);
            }
            popped == front
        };
        if !agreed || !same(&pool, rows.as_slice(), chain, entries) {
            return format!(in alloc; " call {call} differs");
        }
    }
    format!(in alloc; " {calls} calls agree")
}
