//! Messages with their origins, and batches.
ghost use Rattle.std.specs.Prelude.{◌≡◌, IfOk, [], ◌∷◌, ◌++◌, OnOk, map};
ghost use Rattle.bt_batches.specs.Pieces as spec;
ghost use Rattle.bt_batches.specs.Pieces.{without_flag};

use bt_messages::messages;
use bt_ports::NoMemory;
use bt_ports::origins::Origins;
use bt_ports::text::Text;
use bt_value::Msg;
use std::alloc::Global;

/// A message, and the numbers of the items that it comes from.
#[derive(Drop)]
pub struct Piece {
    /// The message.
    pub msg: Msg,
    /// The items that it comes from.
    pub from: Origins,
}

/// Messages that are processed together, in their order.
pub type Batch = Vec<Piece>;

/// Batches in their order.
pub type Batches = Vec<Batch>;

/// The message with a flag.
pub fn flagged(p: Piece, t: Text) -> Piece
    ensures { result ≡ spec.flagged_piece t p }
{
    let Piece { msg, from } = p;
    Piece {
        msg: messages::flagged(msg, t),
        from,
    }
}

/// The message without one.
pub fn unflagged(p: Piece) -> Piece
    ensures { result ≡ spec.without_flag p }
{
    let Piece { msg, from } = p;
    Piece {
        msg: messages::unflagged(msg),
        from,
    }
}

/// The batch of one message.
pub fn one(alloc: Global, p: Piece) -> Result<Batch, NoMemory>
    ensures { IfOk result (λ b. b.items ≡ p ∷ []) }
{
    let mut batch = Vec::with_capacity(alloc, 1)?;
    batch.push(p)?;
    Ok(batch)
}

/// Puts a batch at the end; one without messages is none.
pub fn put(batch: Batch, batches: &mut Batches) -> Result<(), NoMemory>
    ensures { OnOk result (map (λ b. b.items) batches.new.items
        ≡ map (λ b. b.items) batches.old.items ++ spec.filled batch.items) }
{
    if !batch.is_empty() {
        batches.push(batch)?;
    }
    Ok(())
}

/// Puts batches behind others.
pub fn append(more: Batches, batches: &mut Batches) -> Result<(), NoMemory>
    ensures { OnOk result (map (λ b. b.items) batches.new.items
        ≡ map (λ b. b.items) batches.old.items ++ map (λ b. b.items) more.items) }
{
    let mut more = more;
    batches.append(&mut more)?;
    Ok(())
}

// The messages of batches end to end.
fn join(alloc: Global, batches: Batches) -> Result<Batch, NoMemory>
    ensures { IfOk result (λ b. b.items ≡ spec.joined (map (λ b. b.items) batches.items)) }
{
    let mut all = Vec::new(alloc);
    for batch in batches {
        let mut batch = batch;
        all.append(&mut batch)?;
    }
    Ok(all)
}

/// The messages of batches end to end, as one batch. A batch alone is moved as it is.
pub fn joined(alloc: Global, batches: Batches) -> Result<Batch, NoMemory>
    ensures { IfOk result (λ b. b.items ≡ spec.joined (map (λ b. b.items) batches.items)) }
{
    let mut batches = batches;
    if batches.len() != 1 {
        return join(alloc, batches);
    }
    match batches.pop() {
        Some(batch) => Ok(batch),
        None => Ok(Vec::new(alloc)),
    }
}

/// Takes the flags of all messages.
pub fn unflag_all(batch: &mut [Piece])
    ensures { batch.new ≡ map without_flag batch.old }
{
    for p in batch.iter_mut() {
        p.msg.flag = None;
    }
}
