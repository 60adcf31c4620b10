//! The form of configurations that run today.
ghost use Rattle.std.specs.Prelude.{◌≡◌, is_some};
ghost use Rattle.bt_run.specs.Form as spec;
ghost use Rattle.bt_value.specs.Keys.{find};

use bt_value::{Members, Val};

fn has(members: &Members, key: &str) -> bool
    ensures { result ≡ is_some (find key.now members.now) }
{
    members.find(key).is_some()
}

/// Whether the configuration names an input, a pipeline or an output.
pub(crate) fn names_parts(config: &Val) -> bool
    ensures { result ≡ spec.names_parts config.now }
{
    match config {
        Val::Obj(members) => {
            has(members, "input") || has(members, "pipeline") || has(members, "output")
        }
        _ => false,
    }
}
