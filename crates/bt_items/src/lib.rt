//! Items of the input as messages.
#![tactic(auto)]

ghost use Rattle.std.specs.Prelude.{◌≡◌, IfOk};
ghost use Rattle.bt_items.specs.Messages as spec;

use bt_ports::NoMemory;
use bt_ports::blob::Blob;
use bt_ports::parts::Item;
use bt_ports::text::Text;
use bt_value::{Members, Msg, Val};
use std::alloc::Global;

/// The metadata of an item with that path, or of one without: its `path`, where it has one.
pub fn metadata(alloc: Global, path: &Option<Text>) -> Result<Members, NoMemory>
    ensures { IfOk result (λ ms. ms ≡ spec.metadata path.now) }
{
    let mut meta = Members::new(alloc);
    if let Some(path) = path {
        let key = Text::make(alloc, "path")?;
        let value = Val::Str(Text::make(alloc, path.as_str())?);
        meta.put(key, value)?;
    }
    Ok(meta)
}

/// The message that an item begins as: its bytes as content, its path as metadata `path` where it has one, and no flag.
///
/// The item's bytes are copied.
pub fn message(alloc: Global, item: &Item) -> Result<Msg, NoMemory>
    ensures { IfOk result (λ m. m ≡ spec.message item.now) }
{
    let meta = metadata(alloc, &item.path)?;
    let content = Blob::make(alloc, item.bytes.as_slice())?;
    Ok(Msg {
        content,
        meta,
        flag: None,
    })
}
