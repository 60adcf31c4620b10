//! Parts of values that were given, or the failures that stand in their place.
ghost use Rattle.std.specs.Prelude.{◌≡◌, IfOk};
ghost use Rattle.bt_kinds.specs.Targets as targets;
ghost use Rattle.bt_meaning.specs.Outcomes.{part_of};

use bt_kinds::kinds::{Kind, wrong};
use bt_kinds::targets::{boolean, number, string};
use bt_ports::NoMemory;
use bt_ports::text::Text;
use bt_value::Out;
use std::alloc::Global;

/// A number, or the failure that stands in its place.
pub fn number_of(alloc: Global, name: &str, o: Out) -> Result<Result<i64, Out>, NoMemory>
    ensures { IfOk result (λ r. r ≡ part_of name.now targets.number o) }
{
    match o {
        Out::Value(v) => match number(&v) {
            Ok(n) => Ok(Ok(n)),
            Err(kind) => Ok(Err(wrong(alloc, name, kind)?)),
        },
        Out::Failed(t) => Ok(Err(Out::Failed(t))),
        Out::Deleted => Ok(Err(wrong(alloc, name, Kind::Deleted)?)),
        Out::Nothing => Ok(Err(wrong(alloc, name, Kind::Nothing)?)),
    }
}

/// A boolean, or the failure that stands in its place.
pub fn boolean_of(alloc: Global, name: &str, o: Out) -> Result<Result<bool, Out>, NoMemory>
    ensures { IfOk result (λ r. r ≡ part_of name.now targets.boolean o) }
{
    match o {
        Out::Value(v) => match boolean(&v) {
            Ok(b) => Ok(Ok(b)),
            Err(kind) => Ok(Err(wrong(alloc, name, kind)?)),
        },
        Out::Failed(t) => Ok(Err(Out::Failed(t))),
        Out::Deleted => Ok(Err(wrong(alloc, name, Kind::Deleted)?)),
        Out::Nothing => Ok(Err(wrong(alloc, name, Kind::Nothing)?)),
    }
}

/// A string, or the failure that stands in its place.
pub fn string_of(alloc: Global, name: &str, o: Out) -> Result<Result<Text, Out>, NoMemory>
    ensures { IfOk result (λ r. r ≡ part_of name.now targets.string o) }
{
    match o {
        Out::Value(v) => match string(v) {
            Ok(s) => Ok(Ok(s)),
            Err(kind) => Ok(Err(wrong(alloc, name, kind)?)),
        },
        Out::Failed(t) => Ok(Err(Out::Failed(t))),
        Out::Deleted => Ok(Err(wrong(alloc, name, Kind::Deleted)?)),
        Out::Nothing => Ok(Err(wrong(alloc, name, Kind::Nothing)?)),
    }
}
