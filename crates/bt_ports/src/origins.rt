//! The numbers of the items that a message comes from.
ghost use Rattle.std.specs.Prelude.{◌≡◌, ◌<◌, [], ◌∷◌, length, IfOk, OnOk, OnErr, nat_eq, slice_get, slice_index, true};
ghost use Rattle.std.specs.List.Sorted.{IsStrictlyIncreasing};
ghost use Rattle.std.specs.Ordering.{nat_cmp};
ghost use Rattle.std.specs.Set.{sorted_merge, IsUnion};

use crate::NoMemory;
use std::alloc::{AllocError, Global};
use std::marker::Model;

/// Item numbers that rise strictly, at least one of them.
#[derive(Drop)]
pub struct Origins {
    alloc: Global,
    numbers: Vec<u64>,
}

impl Model for Origins {
    ghost use Rattle.std.specs.Prelude.{ℕ, ◌<◌, List, length};
    ghost use Rattle.std.specs.List.Sorted.{IsStrictlyIncreasing};

    ghost Value = { List ℕ };

    ghost view = { λ a. a.numbers.items };

    ghost invariant = { λ a. (0 < length a.numbers.items) × IsStrictlyIncreasing a.numbers.items };
}

impl Origins {
    /// The one number.
    pub fn make(alloc: Global, number: u64) -> Result<Origins, NoMemory>
        ensures { IfOk result (λ o. o ≡ number ∷ []) }
    {
        let numbers = Vec::from_slice(alloc, &[number])?;
        Ok(Origins { alloc, numbers })
    }

    /// How many numbers there are.
    pub fn len(&self) -> usize
        ensures len { result ≡ length self.now }
        ensures some { 0 < result }
    {
        self.numbers.len()
    }

    /// The number at place `i`.
    pub fn get(&self, i: usize) -> Option<u64>
        ensures { result ≡ slice_get self.now i }
    {
        self.numbers.get(i).copied()
    }

    /// The least number.
    pub fn first(&self) -> u64
        ensures { result ≡ slice_index self.now 0 }
    {
        self.numbers[0]
    }

    /// All the numbers.
    pub fn as_slice(&self) -> &[u64]
        ensures numbers { result.now ≡ self.now }
        ensures some { 0 < length self.now }
        ensures rising { IsStrictlyIncreasing self.now }
    {
        self.numbers.as_slice()
    }

    /// Joins the numbers of `other`: the numbers that either has, each once.
    pub fn join(&mut self, other: &Origins) -> Result<(), NoMemory>
        ensures merged { OnOk result (self.new ≡ sorted_merge nat_cmp true self.old other.now) }
        ensures union { OnOk result (IsUnion nat_eq self.old other.now self.new) }
        ensures rising { IsStrictlyIncreasing self.new }
        ensures err { OnErr result (self.new ≡ self.old) }
    {
        add(self.alloc, &mut self.numbers, other.numbers.as_slice())
    }
}

// Adds the numbers of `others`, where both lists rise and neither is empty.
fn add(alloc: Global, numbers: &mut Vec<u64>, others: &[u64]) -> Result<(), NoMemory>
    requires some { 0 < length numbers.old.items }
    requires others { 0 < length others.now }
    requires rising { IsStrictlyIncreasing numbers.old.items }
    requires others_rise { IsStrictlyIncreasing others.now }
    ensures some { 0 < length numbers.new.items }
    ensures rises { IsStrictlyIncreasing numbers.new.items }
    ensures union { OnOk result (IsUnion nat_eq numbers.old.items others.now numbers.new.items) }
    ensures ok { OnOk result (numbers.new.items ≡ sorted_merge nat_cmp true numbers.old.items others.now) }
    ensures err { OnErr result (numbers.new.items ≡ numbers.old.items) }
{
    if numbers[numbers.len() - 1] < others[0] {
        numbers.extend_from_slice(others)?;
        return Ok(());
    }
    let merged = merge(alloc, numbers.as_slice(), others)?;
    *numbers = merged;
    Ok(())
}

// The numbers of two rising lists in order, where a number that both have comes once.
fn merge(alloc: Global, a: &[u64], b: &[u64]) -> Result<Vec<u64>, AllocError>
    ensures { IfOk result (λ v. v.items ≡ sorted_merge nat_cmp true a.now b.now) }
{
    let mut merged = Vec::new(alloc);
    let mut i = 0;
    let mut j = 0;
    'pairs: while i < a.len() && j < b.len() {
        let x = a[i];
        let y = b[j];
        merged.push(x.min(y))?;
        if x <= y {
            i += 1;
        }
        if y <= x {
            j += 1;
        }
    }
    merged.extend_from_slice(&a[i..])?;
    merged.extend_from_slice(&b[j..])?;
    Ok(merged)
}
