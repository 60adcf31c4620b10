//! The list type of the crates: a vector that tells how many more members it takes without asking for memory.
ghost use Rattle.std.specs.Prelude.{◌≡◌, ℕ, ◌+◌, ◌-◌, ◌<◌, ◌≤◌, [], ◌∷◌, ◌++◌, length, IfErr, OnOk, OnErr, IfSome, IsSome, IsTrue, ◌↔◌, slice_get, MatchOption, option_copied, vec_len};
ghost use Rattle.std.specs.Vec.{vec_capacity};
ghost use Rattle.std.specs.Borrow.{sem};
ghost use Rattle.bt_ports.specs.Lending.{LendsMember};

use crate::NoMemory;
use std::alloc::Global;
use std::marker::Model;

/// A list, and the room that it has beyond its members.
///
/// Contracts see both, as `Contents`. Of its calls `push` and `push_reserved` alone lower the room.
#[derive(Drop)]
pub struct Sequence<T> {
    vec: Vec<T>,
}

impl<T> Model for Sequence<T> {
    ghost use Rattle.std.specs.Prelude.{◌-◌, vec_len};
    ghost use Rattle.std.specs.Vec.{vec_capacity};
    ghost use Rattle.bt_ports.specs.Contents.{Contents};

    ghost Value = { Contents T };

    ghost view = { λ a. record { list = a.vec.items; spare = vec_capacity a.vec - vec_len a.vec } };
}

impl<T> Sequence<T> {
    /// An empty list. It takes no memory.
    pub fn new(alloc: Global) -> Sequence<T>
        ensures list { result.list ≡ [] }
        ensures spare { result.spare ≡ 0 }
    {
        Sequence {
            vec: Vec::new(alloc),
        }
    }

    /// The list of the vector's members, with the vector's room. It takes no memory.
    pub fn from_vec(vec: Vec<T>) -> Sequence<T>
        ensures list { result.list ≡ vec.items }
        ensures spare { result.spare ≡ vec_capacity vec - vec_len vec }
    {
        Sequence { vec }
    }

    /// The vector of its members, with its room. It takes no memory.
    pub fn into_vec(self) -> Vec<T>
        ensures items { result.items ≡ self.list }
        ensures spare { vec_capacity result - vec_len result ≡ self.spare }
    {
        let Sequence { vec } = self;
        vec
    }

    /// How many members it has.
    pub fn len(&self) -> usize
        ensures { result ≡ length self.now.list }
    {
        self.vec.len()
    }

    /// Whether it has no member.
    pub fn is_empty(&self) -> bool
        ensures { IsTrue result ↔ (self.now.list ≡ []) }
    {
        self.vec.is_empty()
    }

    /// Its members in order.
    pub fn as_slice(&self) -> &[T]
        ensures { result.now ≡ self.now.list }
    {
        self.vec.as_slice()
    }

    /// The member at place `i`, and nothing exactly past the end.
    pub fn get(&self, i: usize) -> Option<&T>
        ensures value { option_copied result ≡ slice_get self.now.list i }
    {
        self.vec.get(i)
    }

    /// The member at place `i`, to be changed there, and nothing exactly past the end.
    pub fn get_mut(&mut self, i: usize) -> Option<&mut T>
        ensures* writes_back { sem 𝓛 (LendsMember T.row self.entry i result) }
        ensures variant { IsSome result ↔ (i < length self.old.list) }
        ensures value { IfSome result (λ x. slice_get self.old.list i ≡ Some x.now) }
    {
        self.vec.get_mut(i)
    }

    /// Takes out the last member, and gives nothing exactly where there is none.
    pub fn pop(&mut self) -> Option<T>
        ensures list { MatchOption result ((self.old.list ≡ []) × (self.new.list ≡ [])) (λ x. self.old.list ≡ self.new.list ++ x ∷ []) }
        ensures spare { self.old.spare ≤ self.new.spare }
    {
        self.vec.pop()
    }

    /// Puts `x` at the end. Without memory the list stays as it was, and `x` comes back.
    pub fn push(&mut self, x: T) -> Result<(), (NoMemory, T)>
        ensures ok { OnOk result (self.new.list ≡ self.old.list ++ x ∷ []) }
        ensures err { IfErr result (λ e. (self.new ≡ self.old) × (e.1 ≡ x)) }
    {
        match self.vec.reserve(1) {
            Ok(()) => {
                self.vec.push_reserved(x);
                Ok(())
            }
            Err(_) => Err((NoMemory, x)),
        }
    }

    /// Makes room for `n` more members at least.
    pub fn reserve(&mut self, n: usize) -> Result<(), NoMemory>
        ensures ok { OnOk result (n ≤ self.new.spare) }
        ensures list { self.new.list ≡ self.old.list }
        ensures spare { self.old.spare ≤ self.new.spare }
    {
        self.vec.reserve(n)?;
        Ok(())
    }

    /// Puts `x` at the end, into room that is there. It takes no memory.
    pub fn push_reserved(&mut self, x: T)
        requires { 0 < self.old.spare }
        ensures list { self.new.list ≡ self.old.list ++ x ∷ [] }
        ensures spare { self.new.spare + 1 ≡ self.old.spare }
    {
        self.vec.push_reserved(x);
    }
}
