//! The fields of tests, and what they are where they are absent.
ghost use Rattle.std.specs.Prelude.{◌≡◌};
ghost use Rattle.std.specs.Option.{option_copied};
ghost use Rattle.bt_units.specs.Fields as spec;

use bt_value::Val;

/// The pointer of the list of processors of `pipeline`.
pub(crate) const AT_PIPELINE: &str = "/pipeline/processors";

/// The value of the key.
pub(crate) fn field<'a>(v: &'a Val, key: &str) -> Option<&'a Val>
    ensures { option_copied result ≡ spec.field key.now v.now }
{
    match v {
        Val::Obj(members) => members.find(key),
        _ => None,
    }
}

/// A text, or the empty text.
pub(crate) fn string(v: &Val) -> &str
    ensures { result.now ≡ spec.string v.now }
{
    match v {
        Val::Str(text) => text.as_str(),
        _ => "",
    }
}

/// The elements of a list.
pub(crate) fn elements(v: &Val) -> &[Val]
    ensures { result.now ≡ spec.elements v.now }
{
    match v {
        Val::Arr(items) => items.as_slice(),
        _ => &[],
    }
}

fn elements_at<'a>(v: &'a Val, key: &str) -> &'a [Val]
    ensures { result.now ≡ spec.elements_of (spec.field key.now v.now) }
{
    match field(v, key) {
        Some(list) => elements(list),
        None => &[],
    }
}

/// The tests of a configuration.
pub(crate) fn tests_of(config: &Val) -> &[Val]
    ensures { result.now ≡ spec.tests_of config.now }
{
    elements_at(config, "tests")
}

/// The messages that a test puts in.
pub(crate) fn input_batch(test: &Val) -> &[Val]
    ensures { result.now ≡ spec.input_batch test.now }
{
    elements_at(test, "input_batch")
}

/// The batches that a test expects.
pub(crate) fn output_batches(test: &Val) -> &[Val]
    ensures { result.now ≡ spec.output_batches test.now }
{
    elements_at(test, "output_batches")
}

/// The name of a test.
pub(crate) fn name_of(test: &Val) -> &str
    ensures { result.now ≡ spec.name_of test.now }
{
    match field(test, "name") {
        Some(name) => string(name),
        None => "",
    }
}

/// The pointer of the processors that a test runs.
pub(crate) fn target_of(test: &Val) -> &str
    ensures { result.now ≡ spec.target_of test.now }
{
    match field(test, "target_processors") {
        Some(pointer) => string(pointer),
        None => AT_PIPELINE,
    }
}
