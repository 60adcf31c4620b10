//! The members of an object, and where a walk goes on.
ghost use Rattle.std.specs.Prelude.{◌≡◌, ◌==◌};
ghost use Rattle.bt_schema.specs.Table as table;
ghost use Rattle.bt_walk.specs.Members as spec;
ghost use Rattle.bt_walk.specs.Walk.{met};

use bt_schema::{Form, Place, form_of, names_kind};
use bt_value::Members;

/// Whether a member of this name is there.
#[tactic(auto, using(crate::proofs::Finds::has_met))]
pub fn has(fields: &Members, name: &str) -> bool
    ensures { result ≡ spec.has (met fields.now) name.now }
{
    fields.find(name).is_some()
}

/// Whether exactly one member names a kind.
pub fn has_one_kind(here: Place, fields: &Members) -> bool
    ensures met { result ≡ (spec.kinds here (met fields.now) == 1) }
    ensures plain { result ≡ (spec.kinds here fields.now == 1) }
{
    let mut count = 0usize;
    for field in fields.as_slice() {
        if names_kind(here, field.0.as_str()) {
            count += 1;
        }
    }
    count == 1
}

/// Whether what stands in an object is walked.
pub fn is_walked(here: Place, fields: &Members) -> bool
    ensures met { result ≡ spec.is_walked (table.form_of here) here (met fields.now) }
    ensures plain { result ≡ spec.is_walked (table.form_of here) here fields.now }
{
    match form_of(here) {
        Form::Object => true,
        Form::Component | Form::Choice => has_one_kind(here, fields),
        _ => false,
    }
}
