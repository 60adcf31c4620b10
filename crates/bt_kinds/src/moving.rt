//! Lists taken apart by move, and members put under copied keys.
ghost use Rattle.std.specs.Prelude.{◌≡◌, IfOk, OnOk, OnErr};
ghost use Rattle.bt_kinds.specs.Moving as spec;

use bt_ports::NoMemory;
use bt_ports::text::Text;
use bt_value::{Members, Val};
use sqlite_items::Items;
use std::alloc::Global;

/// The items in a vector.
pub fn into_vec<T: Drop>(alloc: Global, items: Items<T>) -> Result<Vec<T>, NoMemory>
    ensures { IfOk result (λ v. v.items ≡ items) }
{
    let mut left = items;
    let mut taken = Vec::new(alloc);
    while let Some(item) = left.pop() {
        taken.push(item)?;
    }
    taken.reverse();
    Ok(taken)
}

/// Puts a member, whose key is copied.
pub fn put(alloc: Global, members: &mut Members, key: &str, v: Val) -> Result<(), NoMemory>
    ensures ok { OnOk result (members.new ≡ spec.put key.now v members.old) }
    ensures err { OnErr result (members.new ≡ members.old) }
{
    let name = Text::make(alloc, key)?;
    members.put(name, v)
}
