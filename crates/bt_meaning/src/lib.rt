//! What queries and mappings mean.
//!
//! Definitions alone, over the tree of a mapping: what a query gives in a context, what statements
//! make of the document, the metadata and the variables, and what becomes of a message. The crates
//! above evaluate queries and run mappings, and their contracts say that they do so by these.
#![tactic(auto)]

pub mod content;
pub mod forms;
pub mod message;
pub mod state;

pub use content::ContentFault;
pub use forms::{Each, Form};
pub use message::{Mapped, Spot};
pub use state::{Root, State};
