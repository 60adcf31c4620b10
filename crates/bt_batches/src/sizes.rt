//! Batches cut by their size.
ghost use Rattle.std.specs.Prelude.{◌≡◌, ◌++◌, ◌∷◌, [], IfOk, OnOk, map};
ghost use Rattle.bt_batches.specs.Grouping as spec;

use crate::piece::{Batch, Batches, Piece, put};
use bt_ports::NoMemory;
use std::alloc::Global;
use std::mem;

// Puts a message into the piece, and the piece behind the others once it has its size.
fn add(
    alloc: Global,
    size: u32,
    p: Piece,
    piece: &mut Batch,
    pieces: &mut Batches,
) -> Result<(), NoMemory>
    ensures pieces { OnOk result (map (λ b. b.items) pieces.new.items
        ≡ map (λ b. b.items) pieces.old.items ++ spec.full size (piece.old.items ++ p ∷ [])) }
    ensures piece { OnOk result (piece.new.items ≡ spec.not_full size (piece.old.items ++ p ∷ [])) }
{
    piece.push(p)?;
    if piece.len() >= size as usize {
        let full = mem::replace(piece, Vec::new(alloc));
        pieces.push(full)?;
    }
    Ok(())
}

/// The pieces of that size, the last one shorter. None is empty, whatever the size is.
#[tactic(auto, using(crate::proofs::Lists::left_is_filled))]
pub fn split(alloc: Global, size: u32, batch: Batch) -> Result<Batches, NoMemory>
    ensures { IfOk result (λ bs. map (λ b. b.items) bs.items ≡ spec.split size batch.items) }
{
    let mut pieces = Vec::new(alloc);
    let mut piece = Vec::new(alloc);
    for p in batch {
        add(alloc, size, p, &mut piece, &mut pieces)?;
    }
    put(piece, &mut pieces)?;
    Ok(pieces)
}
