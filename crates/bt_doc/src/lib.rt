//! JSON texts that are looked at by paths without building what isn't asked for.
//!
//! A `Doc` is a text that was read, and a `Part` a value in it, or in a tree: contracts see either as
//! the value that it is, so that a look into it is a look into that value.
#![tactic(auto)]

mod build;
pub mod doc;
pub mod part;

pub use doc::Doc;
pub use part::Part;
