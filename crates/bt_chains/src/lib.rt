//! A pool of entries in one fixed region, each linked into one of several chains or free.
//!
//! Memory is taken by `Pool::make` alone. Every other call takes constant time.
#![tactic(auto)]

ghost use Rattle.bt_chains.specs.Links.{grown, joined};
ghost use Rattle.bt_chains.specs.Places.{IsPopped, IsPushed, IsSound, after_of, all_free, chain_at, entry_at, front_entry, front_of};
ghost use Rattle.std.specs.Prelude.{◌≡◌, ℕ, ◌<◌, ◌-◌, ◌^◌, ◌↔◌, [], IsNone, IfErr, IfOk, length, option_copied};

use bt_ports::NoMemory;
use std::alloc::{AllocError, Global};
use std::marker::Model;

/// What waits in a chain.
#[derive(Clone, Copy, Debug, PartialEq, Eq)]
pub struct Entry {
    /// The slot of its transaction.
    pub slot: u32,
    /// The part of that transaction.
    pub part: u32,
    /// The node of that part which waits.
    pub node: u32,
    /// Its size in bytes.
    pub size: u64,
    /// Its transaction's moment.
    pub moment: u64,
}

/// No place of the pool is free.
#[derive(Clone, Copy, Debug, PartialEq, Eq)]
pub struct Full;

// The ends of a chain, and how many places it has.
#[derive(Clone, Copy)]
struct Chain {
    first: u32,
    last: u32,
    len: u32,
}

/// A fixed number of places, each with an entry in one of several chains, or free.
#[derive(Drop)]
pub struct Pool {
    // What stands at each place.
    entries: Vec<Option<Entry>>,
    // The place behind each place, in its chain or among the free ones. A chain's last place has `u32::MAX`.
    links: Vec<u32>,
    chains: Vec<Chain>,
    vacant: u32,
    vacant_len: u32,
}

impl Model for Pool {
    ghost use Rattle.bt_chains.specs.Places.{Places};

    ghost Value = { Places };

    ghost use Rattle.bt_chains.specs.Links.{IsLinked, places, walk};

    ghost view = { λ p. record { entries = p.entries.items; chains = places p.links.items p.chains.items; free = walk p.vacant_len p.links.items p.vacant } };

    ghost invariant = { λ p. IsLinked p.entries.items p.links.items p.chains.items p.vacant p.vacant_len };
}

impl Pool {
    /// A pool of so many places, all free, and so many empty chains.
    pub fn make(alloc: Global, entries: u32, chains: u32) -> Result<Pool, NoMemory>
        ensures { IfOk result (λ p. p ≡ all_free entries chains) }
    {
        match unlinked(alloc, entries, chains) {
            Ok(pool) => Ok(pool),
            Err(_) => Err(NoMemory),
        }
    }

    /// Puts an entry at the end of a chain, into a place that was free.
    ///
    /// With no free place the pool stays as it was, and the entry comes back.
    pub fn push_back(&mut self, chain: u32, entry: Entry) -> Result<(), (Full, Entry)>
        requires { chain < length self.old.chains }
        ensures pushed { IfOk result (λ _. (x : ℕ) × IsPushed self.old self.new chain entry x) }
        ensures full { IfErr result (λ e. (self.old.free ≡ []) × (self.new ≡ self.old) × (e.1 ≡ entry)) }
        ensures chains { length self.new.chains ≡ length self.old.chains }
        ensures entries { length self.new.entries ≡ length self.old.entries }
        ensures sound { IsSound self.old }
    {
        if self.vacant_len == 0 {
            return Err((Full, entry));
        }
        let place = self.vacant;
        self.vacant = self.links[place as usize];
        self.vacant_len -= 1;
        self.links[place as usize] = u32::MAX;
        let longer = join(&mut self.links, self.chains[chain as usize], place);
        self.chains[chain as usize] = longer;
        self.entries[place as usize] = Some(entry);
        Ok(())
    }

    /// Takes out the front entry of a chain and frees its place. It gives None exactly where the chain is empty.
    pub fn pop_front(&mut self, chain: u32) -> Option<Entry>
        requires { chain < length self.old.chains }
        ensures popped { IsPopped self.old self.new chain result }
        ensures empty { IsNone result ↔ (chain_at self.old chain ≡ []) }
        ensures chains { length self.new.chains ≡ length self.old.chains }
        ensures entries { length self.new.entries ≡ length self.old.entries }
        ensures sound { IsSound self.old }
    {
        let Chain { first, last, len } = self.chains[chain as usize];
        if len == 0 {
            return None;
        }
        let entry = self.entries[first as usize];
        let next = self.links[first as usize];
        self.chains[chain as usize] = Chain {
            first: next,
            last,
            len: len - 1,
        };
        self.entries[first as usize] = None;
        self.links[first as usize] = self.vacant;
        self.vacant = first;
        self.vacant_len += 1;
        entry
    }

    /// The front entry of a chain. It gives None exactly where the chain is empty.
    pub fn front(&self, chain: u32) -> Option<&Entry>
        requires { chain < length self.now.chains }
        ensures value { option_copied result ≡ front_entry self.now.entries (chain_at self.now chain) }
        ensures empty { IsNone result ↔ (chain_at self.now chain ≡ []) }
    {
        let Chain { first, len, .. } = self.chains[chain as usize];
        if len == 0 {
            None
        } else {
            self.entries[first as usize].as_ref()
        }
    }

    /// How many entries a chain has.
    pub fn len(&self, chain: u32) -> u32
        requires { chain < length self.now.chains }
        ensures { result ≡ length (chain_at self.now chain) }
    {
        self.chains[chain as usize].len
    }

    /// How many places are free.
    pub fn free(&self) -> u32
        ensures value { result ≡ length self.now.free }
        ensures sound { IsSound self.now }
    {
        self.vacant_len
    }

    /// The place of a chain's front. It gives None exactly where the chain is empty.
    pub fn first(&self, chain: u32) -> Option<u32>
        requires { chain < length self.now.chains }
        ensures { result ≡ front_of (chain_at self.now chain) }
    {
        let Chain { first, len, .. } = self.chains[chain as usize];
        if len == 0 { None } else { Some(first) }
    }

    /// The place behind a place in its chain. It gives None exactly where the place is free or the last of its chain.
    pub fn after(&self, place: u32) -> Option<u32>
        requires { place < length self.now.entries }
        ensures { result ≡ after_of place self.now.chains }
    {
        if self.entries[place as usize].is_none() {
            return None;
        }
        let link = self.links[place as usize];
        if link == u32::MAX { None } else { Some(link) }
    }

    /// The entry at a place. It gives None exactly where the place is free.
    pub fn entry(&self, place: u32) -> Option<&Entry>
        requires { place < length self.now.entries }
        ensures value { option_copied result ≡ entry_at self.now place }
    {
        self.entries[place as usize].as_ref()
    }
}

// Links `place` behind the last of the chain, and gives the longer chain.
fn join(links: &mut [u32], chain: Chain, place: u32) -> Chain
    requires bound { chain.len < 2 ^ 32 - 1 }
    requires last { 0 < chain.len → chain.last < length links.old }
    ensures links { links.new ≡ joined chain place links.old }
    ensures chain { result ≡ grown chain place }
{
    let len = chain.len + 1;
    if chain.len == 0 {
        return Chain {
            first: place,
            last: place,
            len,
        };
    }
    links[chain.last as usize] = place;
    Chain {
        first: chain.first,
        last: place,
        len,
    }
}

// Each place linked to the next one, and all chains empty.
fn unlinked(alloc: Global, entries: u32, chains: u32) -> Result<Pool, AllocError>
    ensures { IfOk result (λ p. p ≡ all_free entries chains) }
{
    let empty = Chain {
        first: u32::MAX,
        last: u32::MAX,
        len: 0,
    };
    let mut links = vec![in alloc; 0u32; entries as usize]?;
    for i in 0..entries {
        links[i as usize] = i + 1;
    }
    Ok(Pool {
        entries: vec![in alloc; None; entries as usize]?,
        links,
        chains: vec![in alloc; empty; chains as usize]?,
        vacant: 0,
        vacant_len: entries,
    })
}
