//! Values that the lints of one place look for below it or at the top.
ghost use Rattle.std.specs.Prelude.{◌≡◌, codes};
ghost use Rattle.bt_value.specs.Keys.{find};
ghost use Rattle.bt_schema.specs.Policies as spec;
ghost use Rattle.bt_schema.specs.Texts as texts;

use crate::places::Place;
use crate::texts::period;
use bt_value::{Members, Val};

/// Whether the value is the fields of a `broker` whose batching is on.
pub fn is_hold(place: Place, v: &Val) -> bool
    ensures { result ≡ spec.is_hold place v.now }
{
    match (place, v) {
        (Place::Broker, Val::Obj(fields)) => batching_on(fields),
        _ => false,
    }
}

fn batching_on(broker: &Members) -> bool
    ensures { result ≡ spec.policy_at (find (codes "batching") broker.now) }
{
    match broker.find("batching") {
        Some(Val::Obj(policy)) => policy_on(policy),
        _ => false,
    }
}

fn policy_on(policy: &Members) -> bool
    ensures { result ≡ spec.policy_on policy.now }
{
    number_at(policy, "count")
        || number_at(policy, "byte_size")
        || period_at(policy)
        || check_at(policy)
}

fn number_at(policy: &Members, key: &str) -> bool
    ensures { result ≡ spec.at_key spec.is_set_number (find key.now policy.now) }
{
    match policy.find(key) {
        Some(Val::Int(n)) => *n != 0,
        _ => false,
    }
}

fn period_at(policy: &Members) -> bool
    ensures { result ≡ spec.at_key spec.is_set_period (find (codes "period") policy.now) }
{
    match policy.find("period") {
        Some(Val::Str(t)) => is_set_period(t.as_str()),
        _ => false,
    }
}

fn is_set_period(text: &str) -> bool
    ensures { result ≡ spec.is_set_time (texts.period text.now) }
{
    match period(text) {
        Some(n) => n != 0,
        None => false,
    }
}

fn check_at(policy: &Members) -> bool
    ensures { result ≡ spec.at_key spec.is_set_text (find (codes "check") policy.now) }
{
    match policy.find("check") {
        Some(Val::Str(t)) => !t.as_str().is_empty(),
        _ => false,
    }
}

/// Whether a configuration is of version 2.
pub fn is_newer(config: &Val) -> bool
    ensures { result ≡ spec.is_newer config.now }
{
    match config {
        Val::Obj(fields) => version_at(fields),
        _ => false,
    }
}

fn version_at(fields: &Members) -> bool
    ensures { result ≡ spec.at_key spec.is_two (find (codes "version") fields.now) }
{
    match fields.find("version") {
        Some(Val::Int(n)) => *n == 2,
        _ => false,
    }
}
