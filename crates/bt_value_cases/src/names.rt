//! Names of methods and functions, and a message copied.

use crate::case::Case;
use crate::fault::Fault;
use bt_ports::blob::Blob;
use bt_ports::text::Text;
use bt_value::{Members, Msg, Val, function_of, method_of};
use std::alloc::Global;

/// The name of the method that the name means.
pub fn method(alloc: Global, name: &str) -> Result<String, Fault> {
    match method_of(name) {
        Some(id) => Ok(format!(in alloc; "{id:?} {}", id.name())?),
        None => Ok(String::from_str(alloc, "no method")?),
    }
}

/// The name of the function that the name means.
pub fn function(alloc: Global, name: &str) -> Result<String, Fault> {
    match function_of(name) {
        Some(id) => Ok(format!(in alloc; "{id:?} {}", id.name())?),
        None => Ok(String::from_str(alloc, "no function")?),
    }
}

/// The parts of a message's copy.
pub fn copied_message(alloc: Global, case: Case<'_>) -> Result<String, Fault> {
    let mut meta = Members::new(alloc);
    meta.put(Text::make(alloc, case.field("key"))?, Val::Null)?;
    let message = Msg {
        content: Blob::make(alloc, case.field("content").as_bytes())?,
        meta,
        flag: Some(Text::make(alloc, case.field("flag"))?),
    };
    let Msg {
        content,
        meta,
        flag,
    } = message.copy(alloc)?;
    let content = String::from_utf8_lossy(alloc, content.as_slice())?;
    let count = meta.len();
    match flag {
        Some(flag) => {
            let flag = flag.as_str();
            Ok(format!(in alloc; "{content} {count} {flag}")?)
        }
        None => Ok(format!(in alloc; "{content} {count}")?),
    }
}
