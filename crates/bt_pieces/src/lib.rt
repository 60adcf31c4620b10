//! The pieces of an interpolated text: what stands as it is, and the queries between `${!` and `}`.
#![tactic(auto)]

pub mod cut;

pub use cut::{Span, Spans, one_cut, pieces};
