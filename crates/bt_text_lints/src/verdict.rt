//! What is wrong with a text.

use bt_ports::text::Text;
use sqlite_items::Items;

/// The printed faults and the printed lints of a text.
#[derive(Drop)]
pub struct Verdict {
    /// Why it isn't read.
    pub faults: Items<Text>,
    /// What is wrong with what is read.
    pub lints: Items<Text>,
}
