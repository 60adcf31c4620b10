//! A demand from words.
use bt_demand::demand::{Demand, Demands, Stage, State};
use bt_ports::NoMemory;
use bt_ports::blob::Blob;
use bt_ports::text::Text;
use std::alloc::Global;

// A number that can't be read is 0.
fn number(text: &str) -> u32 {
    text.parse::<u32>().unwrap_or(0)
}

// The leaf of two numbers with a comma between, its own and its sink's.
fn leaf(alloc: Global, numbers: &str) -> Result<Demand, NoMemory> {
    let (leaf, sink) = numbers.split_once(',').unwrap_or((numbers, ""));
    Ok(Demand::Leaf {
        leaf: number(leaf),
        sink: number(sink),
        bytes: Blob::make(alloc, b"text")?,
        state: State::Untried,
    })
}

fn hold(alloc: Global, node: u32, child: Demand) -> Result<Demand, NoMemory> {
    Ok(Demand::Hold {
        node,
        ends: false,
        size: 4,
        child: Box::new(alloc, child).map_err(|_| NoMemory)?,
        stage: Stage::Untried,
    })
}

// The last of the demands built so far.
fn last(built: &mut Vec<Demand>) -> Demand {
    built.pop().unwrap_or(Demand::Drop)
}

// The last two of the demands built so far.
fn last_two(alloc: Global, built: &mut Vec<Demand>) -> Result<Demands, NoMemory> {
    let second = last(built);
    let first = last(built);
    let mut list = Vec::new(alloc);
    list.push(first).map_err(|_| NoMemory)?;
    list.push(second).map_err(|_| NoMemory)?;
    Ok(Demands { list })
}

// What a word builds of the demands before it.
fn built_by(alloc: Global, word: &str, built: &mut Vec<Demand>) -> Result<Demand, NoMemory> {
    let (kind, rest) = word.split_once('=').unwrap_or((word, ""));
    match kind {
        "leaf" => leaf(alloc, rest),
        "reject" => Ok(Demand::Reject(Text::make(alloc, rest)?)),
        "hold" => {
            let child = last(built);
            hold(alloc, number(rest), child)
        }
        "all" => Ok(Demand::All(last_two(alloc, built)?)),
        "first" => Ok(Demand::First(last_two(alloc, built)?)),
        _ => Ok(Demand::Drop),
    }
}

/// The demand that the words build.
pub fn build(alloc: Global, words: &str) -> Result<Demand, NoMemory> {
    let mut built = Vec::new(alloc);
    for word in words.split(' ') {
        let demand = built_by(alloc, word, &mut built)?;
        built.push(demand).map_err(|_| NoMemory)?;
    }
    Ok(last(&mut built))
}
