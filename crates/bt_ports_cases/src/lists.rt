//! Texts, bytes, lists and item numbers.
use crate::fields::{Fields, joined, number, shown};
use bt_ports::NoMemory;
use bt_ports::blob::Blob;
use bt_ports::origins::Origins;
use bt_ports::sequence::Sequence;
use bt_ports::text::Text;
use std::alloc::Global;

/// A copy of `start` with `push` at its end, and the text as it was before.
pub(crate) fn text(alloc: Global, fields: &Fields) -> Result<String, NoMemory> {
    let start = Text::make(alloc, fields.get("start"))?;
    let mut copy = start.clone()?;
    copy.push_str(fields.get("push"))?;
    let whole = Text::from_string(copy.into_string());
    let empty = Text::new(alloc);
    Ok(format!(in alloc; " {}{} {}", empty.as_str(), whole.as_str(), start.as_str())?)
}

/// The same of bytes.
pub(crate) fn blob(alloc: Global, fields: &Fields) -> Result<String, NoMemory> {
    let start = Blob::make(alloc, fields.get("start").as_bytes())?;
    let mut copy = start.clone()?;
    copy.push_all(fields.get("push").as_bytes())?;
    let whole = Blob::from_vec(copy.into_vec());
    let empty = Blob::new(alloc);
    Ok(format!(in alloc;
        " {}{} {}",
        shown(empty.as_slice()),
        shown(whole.as_slice()),
        shown(start.as_slice())
    )?)
}

/// The list with `push` at its end and `first` at its beginning, its member at `get`, its last member, and how many are
/// left then.
pub(crate) fn sequence(alloc: Global, fields: &Fields) -> Result<String, NoMemory> {
    let mut list = fields.numbers(alloc, "members")?;
    list.reserve(1)?;
    list.push_reserved(number(fields.get("push")));
    if let Some(first) = list.get_mut(0) {
        *first = number(fields.get("first"));
    }
    let mut list = Sequence::from_vec(list.into_vec());
    let all = joined(alloc, list.as_slice())?;
    let place = number(fields.get("get")) as usize;
    let at = list.get(place).copied();
    let last = list.pop();
    Ok(format!(in alloc;
        " {all} get {at:?} pop {last:?} left {} empty {}",
        list.len(),
        list.is_empty()
    )?)
}

/// The joined numbers, how many there are, and the least of them.
pub(crate) fn origins(alloc: Global, fields: &Fields) -> Result<String, NoMemory> {
    let members = fields.numbers(alloc, "of")?;
    let mut all = Origins::make(alloc, number(fields.get("first")))?;
    for member in members.as_slice() {
        all.join(&Origins::make(alloc, *member)?)?;
    }
    let numbers = joined(alloc, all.as_slice())?;
    Ok(format!(in alloc;
        " {numbers} len {} first {} second {:?}",
        all.len(),
        all.first(),
        all.get(1)
    )?)
}
