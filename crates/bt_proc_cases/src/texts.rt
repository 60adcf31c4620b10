//! Parts of a case's JSON.

use crate::wrong::Wrong;
use bt_value::{Members, Val};

/// The elements of a list.
pub(crate) fn elements(v: &Val) -> Result<&[Val], Wrong> {
    match v {
        Val::Arr(items) => Ok(items.as_slice()),
        _ => Err(Wrong::NoCase),
    }
}

/// A text.
pub(crate) fn text(v: &Val) -> Result<&str, Wrong> {
    match v {
        Val::Str(t) => Ok(t.as_str()),
        _ => Err(Wrong::NoCase),
    }
}

/// A member that must be there.
pub(crate) fn member<'a>(fields: &'a Members, key: &str) -> Result<&'a Val, Wrong> {
    match fields.find(key) {
        Some(v) => Ok(v),
        None => Err(Wrong::NoCase),
    }
}
