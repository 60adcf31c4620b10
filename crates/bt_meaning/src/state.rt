//! What statements write.

use bt_ports::text::Text;
use bt_value::{Members, Val};

/// The document that statements build.
#[derive(Drop)]
pub enum Root {
    /// It isn't set.
    Unset,
    /// It was deleted.
    Gone,
    /// It is this value.
    Set(Val),
    /// It was handed in and is no document: asking for it fails with this text.
    Unread(Text),
}

/// The document, the metadata and the variables.
#[derive(Drop)]
pub struct State {
    /// The document.
    pub root: Root,
    /// The metadata.
    pub meta: Members,
    /// The variables.
    pub vars: Members,
}
