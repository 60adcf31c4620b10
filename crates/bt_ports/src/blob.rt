//! Bytes that are kept.
ghost use Rattle.std.specs.Prelude.{◌≡◌, [], ◌++◌, OnOk, OnErr, IfOk};

use crate::NoMemory;
use std::alloc::{AllocError, Global};
use std::marker::Model;

/// A run of bytes, which contracts see as a list of bytes.
#[derive(Drop)]
pub struct Blob {
    vec: Vec<u8>,
}

impl Model for Blob {
    ghost use Rattle.std.specs.Prelude.{List, ℕ};

    ghost Value = { List ℕ };

    ghost view = { λ a. a.vec.items };
}

impl Clone for Blob {
    ghost is_clone = { λ s t. t ≡ s };

    ghost use Rattle.std.specs.Prelude.{◌≡◌};

    fn clone(&self) -> Result<Blob, AllocError> {
        Ok(Blob {
            vec: self.vec.clone()?,
        })
    }
}

impl Blob {
    /// No bytes. It takes no memory.
    pub fn new(alloc: Global) -> Blob
        ensures { result ≡ [] }
    {
        Blob {
            vec: Vec::new(alloc),
        }
    }

    /// A copy of `b`.
    pub fn make(alloc: Global, b: &[u8]) -> Result<Blob, NoMemory>
        ensures { IfOk result (λ t. t ≡ b.now) }
    {
        Ok(Blob {
            vec: Vec::from_slice(alloc, b)?,
        })
    }

    /// The bytes of the vector. It takes no memory.
    pub fn from_vec(vec: Vec<u8>) -> Blob
        ensures { result ≡ vec.items }
    {
        Blob { vec }
    }

    /// The vector of the bytes. It takes no memory.
    pub fn into_vec(self) -> Vec<u8>
        ensures { result.items ≡ self }
    {
        let Blob { vec } = self;
        vec
    }

    /// The bytes.
    pub fn as_slice(&self) -> &[u8]
        ensures { result.now ≡ self.now }
    {
        self.vec.as_slice()
    }

    /// Puts `b` at the end. Without memory the bytes stay as they were.
    pub fn push_all(&mut self, b: &[u8]) -> Result<(), NoMemory>
        ensures ok { OnOk result (self.new ≡ self.old ++ b.now) }
        ensures err { OnErr result (self.new ≡ self.old) }
    {
        self.vec.extend_from_slice(b)?;
        Ok(())
    }
}
