//! The numbers of `pipeline`.
ghost use Rattle.std.specs.Prelude.{◌≡◌, ◌<◌, ◌^◌};
ghost use Rattle.bt_value.specs.declared.val.Val.{out-Val};
ghost use Rattle.std.specs.Option.{option_copied};
ghost use Rattle.bt_plan.specs.Numbers as spec;

use bt_value::Val;

fn number_in(most: u32, default: u32, n: i64) -> u32
    requires { most < 2 ^ 31 }
    ensures { result ≡ spec.number_within most default n }
{
    if 1 <= n && n <= most as i64 {
        n as u32
    } else {
        default
    }
}

fn number_of(most: u32, default: u32, found: Option<&Val>) -> u32
    requires { most < 2 ^ 31 }
    ensures { result ≡ spec.number_of most default (option_copied found.entry) }
{
    match found {
        Some(Val::Int(n)) => number_in(most, default, *n),
        _ => default,
    }
}

fn pipeline_number(most: u32, default: u32, key: &str, found: Option<&Val>) -> u32
    requires { most < 2 ^ 31 }
    ensures { result ≡ spec.pipeline_number most default key.now (option_copied found.entry) }
{
    match found {
        Some(Val::Obj(fields)) => number_of(most, default, fields.find(key)),
        _ => default,
    }
}

fn config_number(most: u32, default: u32, key: &str, config: &Val) -> u32
    requires { most < 2 ^ 31 }
    ensures { result ≡ spec.config_number most default key.now (out-Val config.now) }
{
    match config {
        Val::Obj(fields) => pipeline_number(most, default, key, fields.find("pipeline")),
        _ => default,
    }
}

/// How many threads are to work.
pub fn threads(config: &Val) -> u32
    ensures { result ≡ spec.threads config.now }
{
    config_number(64, 1, "threads", config)
}

/// How many transactions may be open.
pub fn window(config: &Val) -> u32
    ensures { result ≡ spec.window config.now }
{
    config_number(16_384, 1024, "window", config)
}
