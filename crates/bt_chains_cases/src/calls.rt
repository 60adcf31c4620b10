//! Calls that a case names.
ghost use Rattle.std.specs.Prelude.{◌≡◌, length};

use crate::number;
use bt_chains::{Entry, Pool};
use std::alloc::{AllocError, Global};

/// An entry that is told from others by its part.
pub fn entry(part: u32) -> Entry
    ensures { result.part ≡ part }
{
    Entry {
        slot: 0,
        part,
        node: 0,
        size: 1,
        moment: 0,
    }
}

fn part(entry: Option<Entry>) -> Option<u32> {
    entry.map(|entry| entry.part)
}

// Makes the call, and writes what it gave.
fn call(
    all: &mut String,
    pool: &mut Pool,
    places: u32,
    chains: u32,
    call: &str,
) -> Result<(), AllocError>
    requires chains { length pool.old.chains ≡ chains }
    requires places { length pool.old.entries ≡ places }
    ensures chains { length pool.new.chains ≡ chains }
    ensures places { length pool.new.entries ≡ places }
{
    let (kind, rest) = call.split_once('=').unwrap_or((call, ""));
    let (at, new_part) = rest.split_once(',').unwrap_or((rest, ""));
    let at = number(at);
    match kind {
        "free" => return write!(all, " {}", pool.free()),
        "after" if at < places => return write!(all, " {:?}", pool.after(at)),
        "entry" if at < places => return write!(all, " {:?}", part(pool.entry(at).copied())),
        _ => {}
    }
    if at >= chains {
        return all.push_str(" no such chain");
    }
    match kind {
        "push" => match pool.push_back(at, entry(number(new_part))) {
            Ok(()) => all.push_str(" pushed"),
            Err((full, back)) => write!(all, " {full:?} {}", back.part),
        },
        "pop" => write!(all, " {:?}", part(pool.pop_front(at))),
        "front" => write!(all, " {:?}", part(pool.front(at).copied())),
        "first" => write!(all, " {:?}", pool.first(at)),
        _ => write!(all, " {}", pool.len(at)),
    }
}

/// What each of the calls gives, one after the other.
pub fn told(alloc: Global, entries: u32, chains: u32, calls: &str) -> Result<String, AllocError> {
    let mut all = String::new(alloc);
    let mut pool = match Pool::make(alloc, entries, chains) {
        Ok(pool) => pool,
        Err(_) => return String::from_str(alloc, " no memory"),
    };
    for named in calls.split(' ') {
        call(&mut all, &mut pool, entries, chains, named)?;
    }
    Ok(all)
}
