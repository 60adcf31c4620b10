//! The schema of a configuration: what stands at each of its places, and what may be wrong there.
//!
//! The table of fields is `specs/Table.antt`, which `form_of`, `member`, `element`, `required` and
//! `names_kind` are proved equal to. Texts with a form of their own stand in `specs/Texts.antt`.
#![tactic(auto)]

pub mod forms;
pub mod lints;
mod members;
pub mod places;
mod pointer;
mod policies;
mod texts;

pub use forms::{Form, Language, element, form_of, names_kind, required};
pub use lints::{Lint, LintKind, Lints, lint_line};
pub use members::member;
pub use places::Place;
pub use pointer::{nth, under};
pub use policies::{is_hold, is_newer};
pub use texts::{closing_bytes, delimiter, fits, fits_csv, is_glob, period};
