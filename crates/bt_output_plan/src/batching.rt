//! The batching of a broker.
ghost use Rattle.std.specs.Prelude.{◌≡◌, codes};
ghost use Rattle.bt_value.specs.Keys.{find};
ghost use Rattle.bt_output_plan.specs.Fields as values;
ghost use Rattle.bt_output_plan.specs.Reading as spec;
ghost use Rattle.bt_output_plan.specs.Reading.{met, reading};

use crate::fields::{count_at, period_at, size_at, text_at};
use bt_demand::routes::HoldPolicy;
use bt_value::{Members, Val};

/// When what waits is released, and the check that ends a batch, where the empty text stands for none.
#[derive(Clone, Copy)]
pub struct Batching<'a> {
    pub policy: HoldPolicy,
    pub check: &'a str,
}

const OFF: HoldPolicy = HoldPolicy {
    count: 0,
    byte_size: 0,
    period: 0,
};

fn batching_in(fields: &Members) -> Batching<'_>
    ensures policy { result.policy ≡ (spec.batching_in (met fields.now)).policy }
    ensures check { result.check.now ≡ (spec.batching_in (met fields.now)).check }
{
    Batching {
        policy: HoldPolicy {
            count: count_at(fields),
            byte_size: size_at(fields),
            period: period_at(fields),
        },
        check: text_at(fields, "check"),
    }
}

fn batching_of(v: &Val) -> Batching<'_>
    ensures policy { result.policy ≡ (reading v.now).batching.policy }
    ensures check { result.check.now ≡ (reading v.now).batching.check }
{
    match v {
        Val::Obj(fields) => batching_in(fields),
        _ => Batching {
            policy: OFF,
            check: "",
        },
    }
}

/// The batching of a broker with these fields.
#[tactic(auto, using(crate::proofs::Finds::find_met))]
pub fn batching_at(fields: &Members) -> Batching<'_>
    ensures policy { result.policy ≡ (spec.batching_of (find (codes "batching") (met fields.now))).policy }
    ensures check { result.check.now ≡ (spec.batching_of (find (codes "batching") (met fields.now))).check }
{
    match fields.find("batching") {
        Some(v) => batching_of(v),
        None => Batching {
            policy: OFF,
            check: "",
        },
    }
}

/// Whether one of its conditions is on.
pub fn is_on(b: &Batching<'_>) -> bool
    ensures { result ≡ values.is_on (record { policy = b.now.policy; check = b.now.check.now }) }
{
    b.policy.count != 0 || b.policy.byte_size != 0 || b.policy.period != 0 || !b.check.is_empty()
}
