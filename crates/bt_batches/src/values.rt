//! Messages gathered by a text.
ghost use Rattle.std.specs.Prelude.{◌≡◌, ◌<◌, ◌++◌, ◌∷◌, [], IfOk, OnOk, map, ℕ, List, length, Some, vec_len, if◌then◌else◌};
ghost use Rattle.std.specs.BTreeMap.{get_by_text};
ghost use Rattle.std.specs.Option.{ForSome};
ghost use Rattle.std.specs.Str.{bytes_eq};
ghost use Rattle.bt_batches.specs.Grouping as spec;
ghost use Rattle.bt_batches.specs.Grouping.{Keyed};
ghost use Rattle.bt_batches.specs.Gathered.{IsGathered, put_at};

use crate::piece::{Batch, Batches, Piece, one};
use bt_mappings::{Pieces, Spot, interpolate};
use bt_messages::messages::place;
use bt_ports::NoMemory;
use bt_ports::text::Text;
use std::alloc::Global;
use std::collections::BTreeMap;

// At each text the place of its batch.
type Places = BTreeMap<String, usize>;

// The messages with the texts of their groups.
fn with_texts(
    alloc: Global,
    value: &Pieces,
    moment: u64,
    batch: Batch,
) -> Result<Vec<(Text, Piece)>, NoMemory>
    ensures { IfOk result (λ ks. ks.items ≡ spec.all_keyed value.now.list moment batch.items) }
{
    let size = place(batch.len())?;
    let mut messages = Vec::with_capacity(alloc, size as usize)?;
    let mut index = 0;
    for p in batch {
        let spot = Spot {
            index,
            size,
            moment,
        };
        let text = interpolate(alloc, value, &p.msg, spot)?;
        messages.push((text, p))?;
        index += 1;
    }
    Ok(messages)
}

// Puts a message at the end of a batch.
#[tactic(auto, using(crate::proofs::Gathering::put_at_set))]
fn push_at(batches: &mut Batches, i: usize, p: Piece) -> Result<(), NoMemory>
    requires { i < vec_len batches.old }
    ensures { OnOk result (map (λ b. b.items) batches.new.items
        ≡ put_at (map (λ b. b.items) batches.old.items) i p) }
{
    let batch = &mut batches[i];
    batch.push(p)?;
    Ok(())
}

// Puts a message into a new batch at the end, and the batch's place at its text.
#[tactic(auto, using(std::proofs::lemmas::Map::Text::text_keys))]
fn push_new(
    alloc: Global,
    places: &mut Places,
    batches: &mut Batches,
    text: Text,
    p: Piece,
) -> Result<(), NoMemory>
    ensures places { OnOk result ((q : List ℕ) → get_by_text places.new q
        ≡ (if bytes_eq q text then Some (vec_len batches.old) else get_by_text places.old q)) }
    ensures batches { OnOk result (map (λ b. b.items) batches.new.items
        ≡ map (λ b. b.items) batches.old.items ++ (p ∷ []) ∷ []) }
{
    let _ = places.insert(text.into_string(), batches.len())?;
    let batch = one(alloc, p)?;
    batches.push(batch)?;
    Ok(())
}

// The place of the batch of a text.
fn place_of(places: &Places, text: &str) -> Option<usize>
    ensures { result ≡ get_by_text places.now text.now }
{
    places.get(text).copied()
}

// Puts a message to the batch of its text, which is a new one at the end where there is none.
fn join(
    alloc: Global,
    places: &mut Places,
    batches: &mut Batches,
    message: (Text, Piece),
) -> Result<(), NoMemory>
    requires { (q : List ℕ) → ForSome (get_by_text places.old q) (λ i. i < vec_len batches.old) }
    ensures { OnOk result ((ks : List Keyed)
        → IsGathered ks (get_by_text places.old) (map (λ b. b.items) batches.old.items)
        → IsGathered (ks ++ message ∷ []) (get_by_text places.new) (map (λ b. b.items) batches.new.items)) }
{
    let (text, p) = message;
    match place_of(places, text.as_str()) {
        Some(i) => {
            push_at(batches, i, p)?;
            Ok(())
        }
        None => {
            push_new(alloc, places, batches, text, p)?;
            Ok(())
        }
    }
}

/// One batch for each text that the value gives, in order of first appearance. Its time grows as that of a sort.
#[tactic(auto, using(crate::proofs::Gathering::gathered_within))]
pub fn by_value(
    alloc: Global,
    value: &Pieces,
    moment: u64,
    batch: Batch,
) -> Result<Batches, NoMemory>
    ensures { IfOk result (λ bs. map (λ b. b.items) bs.items ≡ spec.by_value value.now.list moment batch.items) }
{
    let messages = with_texts(alloc, value, moment, batch)?;
    let mut places = BTreeMap::new(alloc);
    let mut batches = Vec::new(alloc);
    for message in messages {
        join(alloc, &mut places, &mut batches, message)?;
    }
    Ok(batches)
}
