//! Which maps reach a map.

ghost use Rattle.std.specs.Prelude.{◌≡◌, ◌↔◌, ℕ, List, ◌<◌, length, slice_get, Some, IfOk, OnOk};
ghost use Rattle.std.specs.List.{Contains};
ghost use Rattle.bt_lints.specs.Names as spec;
ghost use Rattle.bt_lints.specs.Lints.{Reaches};

use crate::names::{Names, has, push_name};
use bt_ports::NoMemory;
use bt_ports::sequence::Sequence;
use bt_ports::text::Text;
use std::alloc::Global;

/// That one map applies another.
#[derive(Drop)]
pub struct Application {
    /// The map in whose body it stands.
    pub by: Text,
    /// The map that is applied.
    pub map: Text,
}

/// Which maps apply which.
pub type Applications = Sequence<Application>;

/// Puts the maps that apply one map behind the names that are there, but for those among them.
fn push_appliers(
    alloc: Global,
    applications: &[Application],
    name: &str,
    names: &mut Names,
) -> Result<(), NoMemory>
    ensures { OnOk result (names.new.list ≡ spec.with_appliers applications.now name.now names.old.list) }
{
    for application in applications {
        if application.map.as_str() == name && !has(names.as_slice(), application.by.as_str()) {
            push_name(alloc, names, application.by.as_str())?;
        }
    }
    Ok(())
}

fn name_at(alloc: Global, names: &[Text], i: usize) -> Result<Text, NoMemory>
    requires { i < length names.now }
    ensures { IfOk result (λ name. slice_get names.now i ≡ Some name) }
{
    Text::make(alloc, names[i].as_str())
}

/// The maps that reach a map.
pub fn reaching(
    alloc: Global,
    applications: &[Application],
    target: &str,
) -> Result<Names, NoMemory>
    ensures { IfOk result (λ names. (a : List ℕ) → Contains names.list a ↔ Reaches applications.now a target.now) }
{
    let mut names = Names::new(alloc);
    push_name(alloc, &mut names, target)?;
    let mut next = 0;
    while next < names.len() {
        let name = name_at(alloc, names.as_slice(), next)?;
        push_appliers(alloc, applications, name.as_str(), &mut names)?;
        next += 1;
    }
    Ok(names)
}
