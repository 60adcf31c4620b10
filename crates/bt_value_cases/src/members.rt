//! Members put in, found and taken out.

use crate::case::Case;
use crate::fault::Fault;
use crate::texts::shown;
use bt_ports::text::Text;
use bt_value::{Members, Val, read_json};
use std::alloc::Global;

// The keys with their places from 1.
fn pairs_of(alloc: Global, keys: &str) -> Result<Vec<(Text, Val)>, Fault> {
    let mut pairs = Vec::new(alloc);
    let mut place: i64 = 0;
    for key in keys.split(',') {
        place = place.saturating_add(1);
        pairs.push((Text::make(alloc, key)?, Val::Int(place)))?;
    }
    Ok(pairs)
}

/// The members that the keys with their places are.
pub fn from_pairs(alloc: Global, keys: &str) -> Result<String, Fault> {
    let members = Members::from_pairs(alloc, pairs_of(alloc, keys)?)?;
    shown(alloc, &Val::Obj(members))
}

/// The members after the keys are put in with their places and one is taken out; how many there are, the first key, and what
/// was found and taken out.
pub fn put(alloc: Global, case: Case<'_>) -> Result<String, Fault> {
    let mut members = Members::new(alloc);
    for (key, value) in pairs_of(alloc, case.field("keys"))? {
        members.put(key, value)?;
    }
    let found = option_shown(alloc, members.find(case.field("find")))?;
    let replaced = members.replace(case.field("replace"), Val::Null);
    let was = option_shown(alloc, replaced.as_ref())?;
    let removed = members.remove(case.field("remove"));
    let taken = option_shown(alloc, removed.as_ref())?;
    let count = members.len();
    let first = match members.at(0) {
        Some((key, _)) => String::from_str(alloc, key)?,
        None => String::new(alloc),
    };
    let past = members.at(count).is_none();
    let all = shown(alloc, &Val::Obj(members))?;
    Ok(format!(in alloc;
        "{all} count={count} first={first} past={past} found={found} replaced={was} removed={taken}"
    )?)
}

fn option_shown(alloc: Global, value: Option<&Val>) -> Result<String, Fault> {
    match value {
        Some(value) => shown(alloc, value),
        None => Ok(String::from_str(alloc, "nothing")?),
    }
}

/// An object of `count` keys, written in steps of `step` round the count and then once more in rising order with the place
/// behind a hundred: how many members it has when it is read, and the first and the last.
pub fn read_many(alloc: Global, case: Case<'_>) -> Result<String, Fault> {
    let count = case.number("count").max(1);
    let step = case.number("step");
    let mut text = String::from_str(alloc, "{")?;
    let mut place: u32 = 0;
    for _ in 0..count {
        let member = format!(in alloc; "\"k{place:04}\":{place},")?;
        text.push_str(member.as_str())?;
        place = place.saturating_add(step) % count;
    }
    for place in 0..count {
        let member = format!(in alloc; "\"k{place:04}\":100{place},")?;
        text.push_str(member.as_str())?;
    }
    text.push_str("\"z\":null}")?;
    let value = read_json(alloc, text.as_str().as_bytes())?;
    let Val::Obj(members) = &value else {
        return Err(Fault::Unknown);
    };
    let len = members.len();
    let first = member_shown(alloc, members.at(0))?;
    let last = member_shown(alloc, members.at(len.saturating_sub(2)))?;
    Ok(format!(in alloc; "{len} {first} {last}")?)
}

fn member_shown(alloc: Global, member: Option<(&str, &Val)>) -> Result<String, Fault> {
    match member {
        Some((key, value)) => {
            let value = shown(alloc, value)?;
            Ok(format!(in alloc; "{key}={value}")?)
        }
        None => Ok(String::from_str(alloc, "nothing")?),
    }
}
